//! Offsets of slots whose values have any length.
//!
//! Arrow columnar format, "Variable-size Binary Layout": slot `i` is from offset `i` to offset
//! `i + 1`, so there is one offset more than slots.
ghost use Rattle.std.specs.Prelude.{◌≡◌, ℕ, ℤ, pos, ◌+◌, ◌-◌, ◌*◌, ◌^◌, ◌<◌, ◌≤◌, min, ◌≤ℤ◌, ◌↔◌, length, take, drop, map, slice_index, IsTrue, IfOk, IfErr, MatchResult, MatchOption};
ghost use Rattle.lower.specs.Offsets.{AreOffsets, BreaksOffsets, IsOffsets, places, NeverFalls};

use crate::buffer::Buffer;
use crate::error::{Error, Rule};
use lower_types::NativeType;
use std::alloc::{AllocError, Global};
use std::fmt;
use std::marker::Model;

/// An offset type: a signed integer of 32 or 64 bits.
pub trait Offset: NativeType {
    // The integer that an offset is.
    ghost integer: { Self → ℤ };

    // No offset of the type reaches this.
    ghost limit: { ℕ };

    /// Returns whether `numbers` is nonempty, starts at 0 or above, and never decreases.
    fn are_offsets(numbers: &[Self]) -> bool
        ensures { IsTrue result ↔ AreOffsets integer numbers.now };

    /// Returns an offset that isn't negative as a `usize`.
    fn to_usize(self) -> usize
        requires { pos 0 ≤ℤ integer self }
        ensures { pos result ≡ integer self };

    /// Returns `place` as an offset, or `None` if the type has no such number.
    fn from_usize(place: usize) -> Option<Self>
        ensures { MatchOption result (limit ≤ place) (λ o. (integer o ≡ pos place) × (place < limit)) };
}

impl Offset for i32 {
    ghost integer = { λ z. z };

    ghost limit = { 2 ^ 31 };

    fn are_offsets(numbers: &[i32]) -> bool {
        match numbers.first() {
            None => false,
            Some(first) => *first >= 0 && never_falls_i32(numbers),
        }
    }

    fn to_usize(self) -> usize {
        self.cast_unsigned() as usize
    }

    fn from_usize(place: usize) -> Option<i32> {
        i32::try_from(place).ok()
    }
}

impl Offset for i64 {
    ghost integer = { λ z. z };

    ghost limit = { 2 ^ 63 };

    fn are_offsets(numbers: &[i64]) -> bool {
        match numbers.first() {
            None => false,
            Some(first) => *first >= 0 && never_falls_i64(numbers),
        }
    }

    fn to_usize(self) -> usize {
        self.cast_unsigned() as usize
    }

    fn from_usize(place: usize) -> Option<i64> {
        i64::try_from(place).ok()
    }
}

// Whether no number is below the one before it. The loop has no early exit, so that it is
// vectorized.
fn never_falls_i32(numbers: &[i32]) -> bool
    ensures { IsTrue result ↔ NeverFalls numbers.now (length numbers.now) }
{
    let mut is_rising = true;
    let mut last = numbers.first().copied().unwrap_or(0);
    for number in numbers {
        if *number < last {
            is_rising = false;
        }
        last = *number;
    }
    is_rising
}

fn never_falls_i64(numbers: &[i64]) -> bool
    ensures { IsTrue result ↔ NeverFalls numbers.now (length numbers.now) }
{
    let mut is_rising = true;
    let mut last = numbers.first().copied().unwrap_or(0);
    for number in numbers {
        if *number < last {
            is_rising = false;
        }
        last = *number;
    }
    is_rising
}

/// Offsets: at least one, the first not negative, each at least the one before.
///
/// Clones and slices share the memory.
#[derive(Drop)]
pub struct OffsetsBuffer<O: Offset> {
    offsets: Buffer<O>,
}

impl<O: Offset> Model for OffsetsBuffer<O> {
    ghost use Rattle.std.specs.Prelude.{◌≡◌, ℕ, List, map, pos};
    ghost use Rattle.lower.specs.Offsets.{IsOffsets, places};

    ghost Value = { List ℕ };

    ghost view = { λ a. places O.integer a.offsets };

    ghost invariant = { λ a. (map pos (places O.integer a.offsets) ≡ map O.integer a.offsets) × IsOffsets (places O.integer a.offsets) };
}

impl<O: Offset> Clone for OffsetsBuffer<O> {
    ghost is_clone = { λ a b. b ≡ a };

    fn clone(&self) -> Result<OffsetsBuffer<O>, AllocError> {
        Ok(OffsetsBuffer {
            offsets: self.offsets.clone()?,
        })
    }
}

impl<O: Offset> OffsetsBuffer<O> {
    /// Returns the offsets after checking them.
    ///
    /// Errors, each as `Error::OutOfSpec`:
    ///
    /// - `Rule::NoOffset`: `offsets` is empty.
    /// - `Rule::FallingOffset`: the first offset is negative, or one is less than the offset before
    ///   it.
    pub fn try_new(offsets: Buffer<O>) -> Result<OffsetsBuffer<O>, Error>
        ensures exact { MatchResult result
            (λ o. (map pos o ≡ map O.integer offsets) × IsOffsets o)
            (λ _. ¬ (AreOffsets O.integer offsets)) }
        ensures only { IfErr result (BreaksOffsets O.integer offsets) }
    {
        if offsets.is_empty() {
            return Err(Error::OutOfSpec(Rule::NoOffset));
        }
        if !O::are_offsets(offsets.as_slice()) {
            return Err(Error::OutOfSpec(Rule::FallingOffset));
        }
        Ok(OffsetsBuffer { offsets })
    }

    /// Returns the number of offsets, one more than there are slots.
    pub fn len(&self) -> usize
        ensures len { result ≡ length self.now }
        ensures offsets { IsOffsets self.now }
    {
        self.offsets.len()
    }

    /// Returns the offsets in their own type.
    pub fn as_slice(&self) -> &[O]
        ensures places { places O.integer result.now ≡ self.now }
        ensures integers { map O.integer result.now ≡ map pos self.now }
    {
        self.offsets.as_slice()
    }

    /// Returns offset `i`.
    pub fn get(&self, i: usize) -> usize
        requires { i < length self.now }
        ensures { result ≡ slice_index self.now i }
    {
        self.offsets.as_slice()[i].to_usize()
    }

    /// Returns the last offset, where the last slot ends.
    pub fn last(&self) -> usize
        ensures value { result ≡ slice_index self.now (length self.now - 1) }
        ensures offsets { IsOffsets self.now }
    {
        self.get(self.len() - 1)
    }

    /// Returns the offsets of the `len` slots from slot `offset`, in the same memory.
    pub fn sliced(self, offset: usize, len: usize) -> Self
        requires { offset + len < length self }
        ensures { result ≡ take (len + 1) (drop offset self) }
    {
        OffsetsBuffer {
            offsets: self.offsets.sliced(offset, len + 1),
        }
    }

    /// Keeps only the offsets of the `len` slots from slot `offset`.
    pub fn slice(&mut self, offset: usize, len: usize)
        requires { offset + len < length self.old }
        ensures { self.new ≡ take (len + 1) (drop offset self.old) }
    {
        prove!(len < self.offsets.len());
        self.offsets.slice(offset, len + 1);
    }

    /// Returns the number of bytes that stay allocated as long as these offsets exist, as
    /// [`Buffer::retained_bytes`].
    pub fn retained_bytes(&self) -> usize
        ensures { min (O.width * length self.now) (2 ^ 64 - 1) ≤ result }
    {
        self.offsets.retained_bytes()
    }

    /// Returns the same offsets in memory of their own.
    pub fn compact(&self, alloc: Global) -> Result<Self, AllocError>
        ensures { IfOk result (λ o. o ≡ self.now) }
    {
        Ok(OffsetsBuffer {
            offsets: self.offsets.compact(alloc)?,
        })
    }
}

/// Prints the offsets as a slice.
impl<O: Offset + fmt::Debug> fmt::Debug for OffsetsBuffer<O> {
    fn fmt<W: fmt::Write>(&self, f: &mut fmt::Formatter<W>) -> fmt::Result {
        fmt::Debug::fmt(self.as_slice(), f)
    }
}
