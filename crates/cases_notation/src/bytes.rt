//! Bytes, and bits.
//!
//! Bytes are a part, or a list of parts:
//!
//! - hex digits; `{"text": ".."}`; `{"zeros": 56}`
//! - `{"message": TABLE}`, `{"footer": TABLE}`: encoded by `tables.rt`
//! - `{"framed": TABLE, "body": [PART, ..], "times": 2}`: so many encapsulated messages, each with
//!   this body. By default there is one.
//! - `{"cut": 44}`: leaves so many of the bytes before it
//! - `{"set": [[26, 3], ..]}`: sets bytes before it, each by its offset and value
//! - `{"repeat": [PART, ..], "times": 7}`: repeats plain parts. In these
//!   `{"u32": 316, "step": -48}` is a little-endian number of 32 bits, to which the step is added
//!   at each turn.
//!
//! Bits are `"1011"`, the first slot's bit first, or `{"bytes": BYTES, "bits": 9}`. The latter are
//! the first nine bits of these bytes, the lowest bit of a byte first.

ghost use Rattle.std.specs.Prelude.{◌<◌};

use crate::decoder::Decoder;
use crate::tables::{footer, message};
use lower::bitmap::Bitmap;
use lower::buffer::Buffer;
use serde_json::Value;

/// Bytes in the notation of this module.
pub fn bytes(d: &mut Decoder, value: &Value) -> Vec<u8> {
    let mut out = d.list();
    match value {
        Value::Array(parts) => {
            for part in parts {
                put_part(d, &mut out, part);
            }
        }
        _ => put_part(d, &mut out, value),
    }
    out
}

/// Appends a part, or makes its change to the bytes before it.
pub fn put_part(d: &mut Decoder, out: &mut Vec<u8>, part: &Value) {
    if let Some(length) = part.get("cut") {
        cut(d, out, length);
    } else if let Some(changes) = part.get("set") {
        set(d, out, changes);
    } else if let Some(parts) = part.get("repeat") {
        put_turns(d, out, parts, part.get("times"));
    } else if let Some(table) = part.get("message") {
        let message = message(d, table);
        d.extend(out, &message);
    } else if let Some(table) = part.get("footer") {
        let footer = footer(d, table, &[]);
        d.extend(out, &footer);
    } else if let Some(table) = part.get("framed") {
        put_framed(d, out, table, part);
    } else {
        put_plain_part(d, out, part, 0);
    }
}

// Leaves only the first bytes, so many.
fn cut(d: &mut Decoder, out: &mut Vec<u8>, length: &Value) {
    let length = d.count(Some(length), "cut");
    if length <= out.len() {
        out.truncate(length);
    } else {
        d.miss("cut");
    }
}

// Sets bytes: each change is an offset and a byte.
fn set(d: &mut Decoder, out: &mut Vec<u8>, changes: &Value) {
    for change in d.items(Some(changes), "set") {
        set_byte(d, out, change);
    }
}

fn set_byte(d: &mut Decoder, out: &mut Vec<u8>, change: &Value) {
    let (offset, byte) = d.both(change, "set");
    let offset = d.count(Some(offset), "set");
    let byte = d.number(Some(byte), "set");
    match out.get_mut(offset) {
        Some(at) => *at = byte,
        None => d.miss("set"),
    }
}

// Appends these parts so many times.
fn put_turns(d: &mut Decoder, out: &mut Vec<u8>, parts: &Value, times: Option<&Value>) {
    for turn in 0..d.count(times, "times") {
        put_turn(d, out, Some(parts), "repeat", turn);
    }
}

// Appends plain parts, the part of this name, as they are at a turn.
fn put_turn(
    d: &mut Decoder,
    out: &mut Vec<u8>,
    parts: Option<&Value>,
    name: &'static str,
    turn: usize,
) {
    for part in d.items(parts, name) {
        put_plain_part(d, out, part, turn);
    }
}

// Appends a part that changes no other and has no parts, as it is at this turn.
fn put_plain_part(d: &mut Decoder, out: &mut Vec<u8>, part: &Value, turn: usize) {
    if let Some(zeros) = part.get("zeros") {
        let zeros = d.count(Some(zeros), "zeros");
        put_zeros(d, out, zeros);
    } else if let Some(text) = part.get("text") {
        let text = d.text(Some(text), "text");
        d.extend(out, text.as_bytes());
    } else if let Some(first) = part.get("u32") {
        put_step(d, out, first, part.get("step"), turn);
    } else {
        let digits = d.text(Some(part), "bytes");
        put_hex(d, out, digits);
    }
}

// Appends the number of a turn.
fn put_step(d: &mut Decoder, out: &mut Vec<u8>, first: &Value, step: Option<&Value>, turn: usize) {
    let first = d.whole(Some(first), "u32");
    let step = match step {
        None => 0,
        step => d.whole(step, "step"),
    };
    put_u32(
        d,
        out,
        first.saturating_add(step.saturating_mul(turn as i128)),
    );
}

// Appends a number of 32 bits, little-endian.
fn put_u32(d: &mut Decoder, out: &mut Vec<u8>, number: i128) {
    match u32::try_from(number) {
        Ok(number) => d.extend(out, &number.to_le_bytes()),
        Err(_) => d.miss("u32"),
    }
}

/// Appends so many zeros.
pub fn put_zeros(d: &mut Decoder, out: &mut Vec<u8>, zeros: usize) {
    for _ in 0..zeros {
        d.push(out, 0);
    }
}

// Appends bytes of two digits each. There may be spaces between bytes.
fn put_hex(d: &mut Decoder, out: &mut Vec<u8>, digits: &str) {
    for word in digits.split(' ') {
        match hex::decode(d.alloc(), word) {
            Ok(bytes) => d.extend(out, &bytes),
            Err(_) => d.miss("bytes"),
        }
    }
}

// ---- encapsulated messages

// Appends so many encapsulated messages.
fn put_framed(d: &mut Decoder, out: &mut Vec<u8>, table: &Value, part: &Value) {
    let framed = framed(d, table, part.get("body"));
    let times = match part.get("times") {
        None => 1,
        times => d.count(times, "times"),
    };
    for _ in 0..times {
        d.extend(out, &framed);
    }
}

// The continuation marker, the length of the padded metadata, these metadata, and the padded body
// (Arrow columnar format, Encapsulated message format).
fn framed(d: &mut Decoder, table: &Value, body_parts: Option<&Value>) -> Vec<u8> {
    let mut body = d.list();
    put_turn(d, &mut body, body_parts, "body", 0);
    pad(d, &mut body, 64);
    let mut metadata = message(d, table);
    pad(d, &mut metadata, 8);
    let mut out = d.list();
    d.extend(&mut out, &[0xff; 4]);
    put_u32(d, &mut out, metadata.len() as i128);
    d.extend(&mut out, &metadata);
    d.extend(&mut out, &body);
    out
}

// Appends zeros, up to a multiple of this length.
fn pad(d: &mut Decoder, out: &mut Vec<u8>, multiple: usize)
    requires { 0 < multiple }
{
    let over = out.len() % multiple;
    if over != 0 {
        put_zeros(d, out, multiple - over);
    }
}

// ---- bits

/// Bits in the notation of this module, as a bitmap from the public call.
pub fn bits(d: &mut Decoder, value: &Value) -> Option<Bitmap> {
    match value {
        Value::String(digits) => bits_of_digits(d, digits.as_bytes()),
        _ => {
            let held = d.member(value, "bytes");
            let held = bytes(d, held);
            let length = d.count(value.get("bits"), "bits");
            bitmap(d, held, length)
        }
    }
}

fn bits_of_digits(d: &mut Decoder, digits: &[u8]) -> Option<Bitmap> {
    let mut held = d.list();
    for eight in digits.chunks(8) {
        let byte = byte_of(d, eight);
        d.push(&mut held, byte);
    }
    bitmap(d, held, digits.len())
}

fn bitmap(d: &mut Decoder, bytes: Vec<u8>, length: usize) -> Option<Bitmap> {
    let held = Buffer::new(bytes);
    let held = d.take(held)?;
    let bitmap = Bitmap::try_new(held, length);
    d.take(bitmap)
}

// The byte of up to eight bits, the least significant first.
fn byte_of(d: &mut Decoder, digits: &[u8]) -> u8 {
    let mut byte = 0u8;
    for digit in digits.iter().rev() {
        byte = byte.wrapping_mul(2).wrapping_add(bit_of(d, *digit));
    }
    byte
}

fn bit_of(d: &mut Decoder, digit: u8) -> u8 {
    match digit {
        b'0' => 0,
        b'1' => 1,
        _ => {
            d.miss("bits");
            0
        }
    }
}
