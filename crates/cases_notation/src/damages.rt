//! Damages of a message, tried one by one.
//!
//! It is cut after each byte, and each byte is set to others.

use crate::decoder::Decoder;
use crate::text::Text;
use std::alloc::Global;

/// A damage of a message.
#[derive(Clone, Copy)]
pub enum Damage {
    /// Only so many bytes are left.
    Cut(usize),
    /// The byte at an offset is another.
    Set { offset: usize, byte: u8 },
}

/// How many damages were tried, and those at which two answers differ.
#[derive(Drop)]
pub struct Tried {
    cuts: u64,
    sets: u64,
    differ: Text,
}

impl Tried {
    /// No damage was tried yet.
    pub fn new(alloc: Global) -> Tried {
        let mut differ = Text::new(alloc);
        differ.put("[");
        Tried {
            cuts: 0,
            sets: 0,
            differ,
        }
    }

    /// Counts a damage.
    pub fn add(&mut self, damage: Damage, differs: bool) {
        match damage {
            Damage::Cut(_) => self.cuts = self.cuts.saturating_add(1),
            Damage::Set { .. } => self.sets = self.sets.saturating_add(1),
        }
        if differs {
            self.differ.comma();
            put_damage(&mut self.differ, damage);
        }
    }

    /// Appends how many cuts were tried: `"cuts": 200,`.
    pub fn put_cuts(&self, out: &mut Text) {
        out.put("\"cuts\":");
        out.show(&self.cuts);
        out.put(",");
    }

    /// Appends how many sets were tried, and the damages at which two answers differ:
    /// `"sets": 800, "differ": []`.
    pub fn put(self, d: &mut Decoder, out: &mut Text) {
        out.put("\"sets\":");
        out.show(&self.sets);
        out.put(",\"differ\":");
        out.finished(d, self.differ);
        out.put("]");
    }
}

fn put_damage(out: &mut Text, damage: Damage) {
    match damage {
        Damage::Cut(length) => {
            out.put("{\"cut\":");
            out.show(&length);
            out.put("}");
        }
        Damage::Set { offset, byte } => {
            out.put("{\"set\":[");
            out.pair(&offset, &byte);
            out.put("]}");
        }
    }
}

/// A message of so many bytes cut to each smaller length.
pub fn cuts(d: &mut Decoder, length: usize) -> Vec<Damage> {
    let mut all = d.list();
    for left in 0..length {
        d.push(&mut all, Damage::Cut(left));
    }
    all
}

/// These, and the message with each byte set to 00, 7F, 80 and FF.
pub fn damages(d: &mut Decoder, length: usize) -> Vec<Damage> {
    let mut all = cuts(d, length);
    for byte in [0x00, 0x7f, 0x80, 0xff] {
        put_sets(d, &mut all, length, byte);
    }
    all
}

fn put_sets(d: &mut Decoder, all: &mut Vec<Damage>, length: usize, byte: u8) {
    for offset in 0..length {
        d.push(all, Damage::Set { offset, byte });
    }
}

/// The message with this damage.
pub fn damaged(d: &mut Decoder, message: &[u8], damage: Damage) -> Vec<u8> {
    let mut copy = d.list();
    d.extend(&mut copy, message);
    match damage {
        Damage::Cut(length) => cut(&mut copy, length),
        Damage::Set { offset, byte } => set(&mut copy, offset, byte),
    }
    copy
}

fn cut(message: &mut Vec<u8>, length: usize) {
    if length < message.len() {
        message.truncate(length);
    }
}

fn set(message: &mut [u8], offset: usize, byte: u8) {
    if let Some(at) = message.get_mut(offset) {
        *at = byte;
    }
}
