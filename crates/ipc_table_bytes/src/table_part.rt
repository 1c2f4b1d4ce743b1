//! Encodes tables.
ghost use Rattle.std.specs.Prelude.{◌≡◌, ◌<◌, ◌^◌, ◌++◌, ◌+◌, IfOk, OnOk, length};
ghost use Rattle.ipc_table_bytes.specs.Parts.{AreSlots, IsPart, entry_of, number_in, numbers, tail_of, tails, vtable_bytes};
ghost use Rattle.ipc_table_bytes.specs.Tree.{Slots, table};

use crate::build::{Built, Pool, Slot, pad, put_u16, put_u64, together, whole};
use std::alloc::AllocError;

fn entry_of(index: usize, slot: &Slot) -> u16
    requires { index < 1000 }
    ensures { result ≡ entry_of index slot.now }
{
    match slot {
        Slot::Absent => 0,
        Slot::Number(_) | Slot::Offset(_) => (8 + 8 * index) as u16,
    }
}

// The vtable, padded to a multiple of 8, in a vector with room for `capacity` bytes.
fn vtable(pool: &mut Pool, capacity: usize, slots: &[Slot]) -> Result<Vec<u8>, AllocError>
    requires { length slots.now < 1000 }
    ensures { IfOk result (λ v. v.items ≡ vtable_bytes slots.now) }
{
    let mut bytes = pool.take(capacity)?;
    put_u16(&mut bytes, (4 + 2 * slots.len()) as u16)?;
    put_u16(&mut bytes, (8 + 8 * slots.len()) as u16)?;
    for (i, slot) in slots.iter().enumerate() {
        put_u16(&mut bytes, entry_of(i, slot))?;
    }
    pad(&mut bytes)?;
    Ok(bytes)
}

/// Returns a table: its vtable, 8 bytes for each slot, and then the parts that its slots refer to.
///
/// It fails only if an allocation fails.
pub fn table(pool: &mut Pool, slots: &[Slot]) -> Result<Built, AllocError>
    requires { length slots.now < 1000 }
    ensures { (xs : Slots) → AreSlots slots.now xs → IfOk result (λ built. IsPart built (table xs)) }
{
    let tails = tails_len(slots)?;
    let len = whole(4 + 2 * slots.len()) + 8 + 8 * slots.len() + tails;
    let mut bytes = vtable(pool, len, slots)?;
    let entry = bytes.len();
    put_u64(&mut bytes, entry as u64)?;
    put_numbers(&mut bytes, slots)?;
    put_tails(&mut bytes, slots)?;
    Ok(Built { bytes, entry })
}

// The length in bytes of the parts that the slots refer to.
fn tails_len(slots: &[Slot]) -> Result<usize, AllocError>
    ensures value { IfOk result (λ len. len ≡ length (tails slots.now)) }
    ensures small { IfOk result (λ len. len < 2 ^ 63) }
{
    let mut len = 0;
    for slot in slots {
        len = together(len, tail_len(slot))?;
    }
    Ok(len)
}

fn tail_len(slot: &Slot) -> usize
    ensures value { result ≡ length (tail_of slot.now) }
    ensures small { result < 2 ^ 63 }
{
    match slot {
        Slot::Absent | Slot::Number(_) => 0,
        Slot::Offset(part) => part.bytes.len(),
    }
}

fn put_numbers(bytes: &mut Vec<u8>, slots: &[Slot]) -> Result<(), AllocError>
    requires few { length slots.now < 1000 }
    requires small { length (tails slots.now) < 2 ^ 63 }
    ensures { OnOk result (bytes.new.items ≡ bytes.old.items ++ numbers 0 slots.now) }
{
    // The length of the parts of the earlier slots.
    let mut before = 0;
    for (i, slot) in slots.iter().enumerate() {
        let ahead = 8 * (slots.len() - i) + before;
        put_u64(bytes, number_in(ahead, slot))?;
        before += tail_len(slot);
    }
    Ok(())
}

// The number in a slot, whose part is `ahead` bytes after it.
fn number_in(ahead: usize, slot: &Slot) -> u64
    requires { ahead < 2 ^ 63 + 2 ^ 20 }
    ensures { result ≡ number_in ahead slot.now }
{
    match slot {
        Slot::Absent => 0,
        Slot::Number(number) => *number,
        Slot::Offset(part) => (ahead + part.entry) as u64,
    }
}

fn put_tails(bytes: &mut Vec<u8>, slots: &[Slot]) -> Result<(), AllocError>
    ensures { OnOk result (bytes.new.items ≡ bytes.old.items ++ tails slots.now) }
{
    for slot in slots {
        put_tail(bytes, slot)?;
    }
    Ok(())
}

fn put_tail(bytes: &mut Vec<u8>, slot: &Slot) -> Result<(), AllocError>
    ensures { OnOk result (bytes.new.items ≡ bytes.old.items ++ tail_of slot.now) }
{
    match slot {
        Slot::Absent | Slot::Number(_) => Ok(()),
        Slot::Offset(part) => bytes.extend_from_slice(&part.bytes),
    }
}
