//! The offsets of lists (Arrow columnar format, "Variable-size List Layout").
ghost use Rattle.std.specs.Prelude.{◌≡◌, ◌+◌, ◌<◌, length, slice_index, IfOk};
ghost use Rattle.lower.specs.Offsets.{IsOffsets};
ghost use Rattle.lower_flat_arrays.specs.Validities.{part};
ghost use Rattle.lower_validation.specs.ListTypes.{list_with, last_offset};
ghost use Rattle.lower_validation.specs.AnyOffsets.{list_places, list_width};

use lower::datatypes::PhysicalType;
use lower::offset::OffsetsBuffer;
use std::alloc::{AllocError, Global};
use std::fmt;

/// The offsets of lists, of 32 or 64 bits.
#[derive(Drop)]
pub enum ListOffsets {
    /// Those of a list.
    Small(OffsetsBuffer<i32>),
    /// Those of a large list.
    Large(OffsetsBuffer<i64>),
}

impl ListOffsets {
    /// Returns the number of offsets, one more than there are slots.
    pub fn len(&self) -> usize
        ensures len { result ≡ length (list_places self.now) }
        ensures offsets { IsOffsets (list_places self.now) }
    {
        match self {
            ListOffsets::Small(offsets) => offsets.len(),
            ListOffsets::Large(offsets) => offsets.len(),
        }
    }

    /// Returns offset `i`.
    pub fn get(&self, i: usize) -> usize
        requires { i < length (list_places self.now) }
        ensures { result ≡ slice_index (list_places self.now) i }
    {
        match self {
            ListOffsets::Small(offsets) => offsets.get(i),
            ListOffsets::Large(offsets) => offsets.get(i),
        }
    }

    /// Returns the last offset, where the last slot ends.
    pub fn last(&self) -> usize
        ensures value { result ≡ last_offset (list_places self.now) }
        ensures offsets { IsOffsets (list_places self.now) }
    {
        match self {
            ListOffsets::Small(offsets) => offsets.last(),
            ListOffsets::Large(offsets) => offsets.last(),
        }
    }

    /// Returns the offsets of the `len` slots from slot `offset`, in the same memory.
    pub fn sliced(self, offset: usize, len: usize) -> Self
        requires { offset + len < length (list_places self) }
        ensures width { list_width result ≡ list_width self }
        ensures places { list_places result ≡ part offset (len + 1) (list_places self) }
    {
        match self {
            ListOffsets::Small(offsets) => ListOffsets::Small(offsets.sliced(offset, len)),
            ListOffsets::Large(offsets) => ListOffsets::Large(offsets.sliced(offset, len)),
        }
    }

    // The layout of lists with these offsets.
    pub(super) fn physical_type(&self) -> PhysicalType
        ensures { result ≡ list_with (list_width self.now) }
    {
        match self {
            ListOffsets::Small(_) => PhysicalType::List,
            ListOffsets::Large(_) => PhysicalType::LargeList,
        }
    }

    /// Returns the number of bytes that stay allocated as long as the offsets exist.
    ///
    /// See [`Buffer::retained_bytes`](lower::buffer::Buffer::retained_bytes).
    pub fn retained_bytes(&self) -> usize {
        match self {
            ListOffsets::Small(offsets) => offsets.retained_bytes(),
            ListOffsets::Large(offsets) => offsets.retained_bytes(),
        }
    }

    /// Returns the same offsets in memory of their own. It fails only if an allocation fails.
    pub fn compact(&self, alloc: Global) -> Result<Self, AllocError>
        ensures { IfOk result (λ copy. copy ≡ self.now) }
    {
        match self {
            ListOffsets::Small(offsets) => Ok(ListOffsets::Small(offsets.compact(alloc)?)),
            ListOffsets::Large(offsets) => Ok(ListOffsets::Large(offsets.compact(alloc)?)),
        }
    }
}

impl Clone for ListOffsets {
    ghost is_clone = { λ a b. b ≡ a };

    /// Returns the same offsets, in the same memory.
    ///
    /// It fails only if the count of owners can't grow.
    fn clone(&self) -> Result<Self, AllocError> {
        match self {
            ListOffsets::Small(offsets) => Ok(ListOffsets::Small(offsets.clone()?)),
            ListOffsets::Large(offsets) => Ok(ListOffsets::Large(offsets.clone()?)),
        }
    }
}

/// Prints the offsets as a slice.
impl fmt::Debug for ListOffsets {
    fn fmt<W: fmt::Write>(&self, f: &mut fmt::Formatter<W>) -> fmt::Result {
        match self {
            ListOffsets::Small(offsets) => fmt::Debug::fmt(offsets, f),
            ListOffsets::Large(offsets) => fmt::Debug::fmt(offsets, f),
        }
    }
}
