//! Encoded parts of a message, and helpers that append to them.
ghost use Rattle.std.specs.Prelude.{◌≡◌, ◌<◌, ◌%◌, ◌^◌, ◌++◌, ◌+◌, [], IfOk, OnOk, length};
ghost use Rattle.ipc_table_bytes.specs.Pads.{le, padded, short, zeros};
ghost use Rattle.ipc_table_bytes.specs.Sizes.{whole};

use std::alloc::{AllocError, Global};
use std::mem::replace;

/// The bytes of a part and of everything it refers to.
///
/// They can be placed at any multiple of 8. `entry` is the offset in them to which offsets refer.
#[derive(Drop)]
pub struct Built {
    pub(crate) bytes: Vec<u8>,
    pub(crate) entry: usize,
    ghost whole: { length bytes.items % 8 ≡ 0 },
    ghost near: { entry < 2 ^ 16 },
}

/// The content of one slot of a table.
#[derive(Drop)]
pub enum Slot {
    /// The slot is absent.
    Absent,
    /// A number in the table itself, also for booleans and enumerations.
    Number(u64),
    /// A part that the slot refers to.
    Offset(Built),
}

/// Memory of parts that are no longer needed, in which the next parts are built.
#[derive(Drop)]
pub struct Pool {
    alloc: Global,
    free: Vec<Vec<u8>>,
}

impl Pool {
    /// Returns a pool without memory. It allocates nothing.
    pub fn new(alloc: Global) -> Pool {
        Pool {
            alloc,
            free: Vec::new(alloc),
        }
    }

    // An empty vector with room for `capacity` bytes.
    pub(crate) fn take(&mut self, capacity: usize) -> Result<Vec<u8>, AllocError>
        ensures { IfOk result (λ bytes. bytes.items ≡ []) }
    {
        let mut bytes = match self.free.pop() {
            Some(bytes) => bytes,
            None => Vec::new(self.alloc),
        };
        bytes.clear();
        bytes.reserve(capacity)?;
        Ok(bytes)
    }

    /// Returns the allocator of the parts.
    pub fn alloc(&self) -> Global {
        self.alloc
    }

    /// Takes the memory of a part. It fails only if an allocation fails.
    pub fn give(&mut self, part: Built) -> Result<(), AllocError> {
        self.free.push(part.bytes).map_err(AllocError::from)
    }

    /// Takes the memory of some parts. It fails only if an allocation fails.
    pub fn give_parts(&mut self, parts: Vec<Built>) -> Result<(), AllocError> {
        for part in parts {
            self.give(part)?;
        }
        Ok(())
    }

    /// Takes the memory of the parts in these slots, which become absent.
    ///
    /// It fails only if an allocation fails.
    pub fn give_slots(&mut self, slots: &mut [Slot]) -> Result<(), AllocError> {
        for slot in slots.iter_mut() {
            if let Slot::Offset(part) = replace(slot, Slot::Absent) {
                self.give(part)?;
            }
        }
        Ok(())
    }
}

// A length or an offset as 32 bits, at most `u32::MAX`. A message in which that changes it is too
// long as a whole.
pub(crate) fn short(n: usize) -> u32
    ensures { result ≡ short n }
{
    n.min(u32::MAX as usize) as u32
}

// A length rounded up to a multiple of 8.
pub(crate) fn whole(len: usize) -> usize
    requires { len < 2 ^ 63 + 8 }
    ensures { result ≡ whole len }
{
    len + (8 - len % 8) % 8
}

// The sum of two lengths. It fails from 2^63 bytes on, since no vector can be so long.
pub(crate) fn together(len: usize, more: usize) -> Result<usize, AllocError>
    requires len { len < 2 ^ 63 }
    requires more { more < 2 ^ 63 }
    ensures value { IfOk result (λ sum. sum ≡ len + more) }
    ensures small { IfOk result (λ sum. sum < 2 ^ 63) }
{
    let sum = len + more;
    if sum > isize::MAX as usize {
        return Err(AllocError);
    }
    Ok(sum)
}

// Appends a 16-bit number, little-endian.
#[tactic(auto, using(crate::proofs::Lengths::lengths), unfolding(crate::specs::Pads::le))]
pub(crate) fn put_u16(bytes: &mut Vec<u8>, number: u16) -> Result<(), AllocError>
    ensures items { OnOk result (bytes.new.items ≡ bytes.old.items ++ le 2 number) }
    ensures len { OnOk result (length bytes.new.items ≡ length bytes.old.items + 2) }
{
    bytes.extend_from_slice(&number.to_le_bytes())
}

/// Appends a 32-bit number, little-endian. It fails only if an allocation fails.
#[tactic(auto, using(crate::proofs::Lengths::lengths), unfolding(crate::specs::Pads::le))]
pub fn put_u32(bytes: &mut Vec<u8>, number: u32) -> Result<(), AllocError>
    ensures items { OnOk result (bytes.new.items ≡ bytes.old.items ++ le 4 number) }
    ensures len { OnOk result (length bytes.new.items ≡ length bytes.old.items + 4) }
{
    bytes.extend_from_slice(&number.to_le_bytes())
}

/// Appends a 64-bit number, little-endian. It fails only if an allocation fails.
#[tactic(auto, using(crate::proofs::Lengths::lengths), unfolding(crate::specs::Pads::le))]
pub fn put_u64(bytes: &mut Vec<u8>, number: u64) -> Result<(), AllocError>
    ensures items { OnOk result (bytes.new.items ≡ bytes.old.items ++ le 8 number) }
    ensures len { OnOk result (length bytes.new.items ≡ length bytes.old.items + 8) }
{
    bytes.extend_from_slice(&number.to_le_bytes())
}

// Appends zeros up to a multiple of 8.
#[tactic(auto, using(crate::proofs::Lengths::lengths))]
pub(crate) fn pad(bytes: &mut Vec<u8>) -> Result<(), AllocError>
    ensures items { OnOk result (bytes.new.items ≡ padded bytes.old.items) }
    ensures whole { OnOk result (length bytes.new.items % 8 ≡ 0) }
{
    let len = whole(bytes.len());
    bytes.resize(len, 0)
}

pub(crate) fn put_zeros(bytes: &mut Vec<u8>, count: usize) -> Result<(), AllocError>
    requires { count < 8 }
    ensures { OnOk result (bytes.new.items ≡ bytes.old.items ++ zeros count) }
{
    let len = bytes.len();
    bytes.resize(len + count, 0)
}
