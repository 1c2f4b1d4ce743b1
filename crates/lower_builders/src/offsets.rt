//! Offsets that are pushed one by one.
//!
//! Arrow columnar format, "Variable-size Binary Layout": slot `i` is from offset `i` to offset
//! `i + 1`, so there is one offset more than slots.
ghost use Rattle.std.specs.Prelude.{◌≡◌, ◌+◌, ◌-◌, ◌<◌, ◌≤◌, [], ◌∷◌, ◌++◌, IfOk, MatchResult, length, sum, take};
ghost use Rattle.lower.specs.Offsets.{IsOffsets};
ghost use Rattle.lower_builders.specs.Growing.{last_end_of, offsets_by_lengths, CantReach};

use crate::error::BuildError;
use lower::buffer::Buffer;
use lower::offset::{Offset, OffsetsBuffer};
use std::alloc::{AllocError, Global};
use std::marker::Model;

/// Offsets that grow slot by slot, from a first offset of 0.
#[derive(Drop)]
pub struct Offsets<O: Offset> {
    offsets: Vec<O>,
}

impl<O: Offset> Model for Offsets<O> {
    ghost use Rattle.std.specs.Prelude.{◌≡◌, ℕ, List, map, pos};
    ghost use Rattle.lower.specs.Offsets.{IsOffsets, places};

    ghost Value = { List ℕ };

    ghost view = { λ a. places O.integer a.offsets.items };

    ghost invariant = { λ a. (map pos (places O.integer a.offsets.items) ≡ map O.integer a.offsets.items) × IsOffsets (places O.integer a.offsets.items) };
}

impl<O: Offset> Offsets<O> {
    /// Returns the offsets of no slots, with memory for those of `capacity` slots.
    ///
    /// The error is `BuildError::Memory`, or `BuildError::OffsetOverflow` if the type has no 0.
    pub fn with_capacity(alloc: Global, capacity: usize) -> Result<Self, BuildError>
        ensures { MatchResult result (λ o. o ≡ 0 ∷ []) (CantReach O.limit 0) }
    {
        let Some(first) = O::from_usize(0) else {
            return Err(BuildError::OffsetOverflow);
        };
        let mut offsets = Vec::with_capacity(alloc, capacity.saturating_add(1))?;
        offsets.push(first)?;
        Ok(Offsets { offsets })
    }

    /// Returns the offsets of no slots: a 0.
    ///
    /// The error is `BuildError::Memory`, or `BuildError::OffsetOverflow` if the type has no 0.
    pub fn new(alloc: Global) -> Result<Self, BuildError>
        ensures { MatchResult result (λ o. o ≡ 0 ∷ []) (CantReach O.limit 0) }
    {
        Offsets::with_capacity(alloc, 0)
    }

    /// Allocates memory for the offsets of `additional` more slots.
    pub fn reserve(&mut self, additional: usize) -> Result<(), AllocError>
        ensures { self.new ≡ self.old }
    {
        self.offsets.reserve(additional)
    }

    /// Returns the number of slots, one less than there are offsets.
    pub fn len_proxy(&self) -> usize
        ensures count { result ≡ length self.now - 1 }
        ensures offsets { IsOffsets self.now }
    {
        self.offsets.len() - 1
    }

    /// Returns the last offset, where the last slot ends.
    pub fn last(&self) -> usize
        ensures value { result ≡ last_end_of self.now }
        ensures offsets { IsOffsets self.now }
    {
        self.offsets.as_slice()[self.offsets.len() - 1].to_usize()
    }

    /// Appends the offset where a slot of this length ends.
    ///
    /// Errors, each of which leaves the offsets as they were:
    ///
    /// - `BuildError::OffsetOverflow`: that offset is above the maximum of its type.
    /// - `BuildError::Memory`: an allocation fails.
    pub fn try_push_usize(&mut self, len: usize) -> Result<(), BuildError>
        ensures { let end = last_end_of self.old + len in MatchResult result
            (λ _. (self.new ≡ self.old ++ end ∷ []) × (end < O.limit))
            (λ e. (self.new ≡ self.old) × CantReach O.limit end e) }
    {
        let Some(end) = self.last().checked_add(len) else {
            return Err(BuildError::OffsetOverflow);
        };
        let Some(offset) = O::from_usize(end) else {
            return Err(BuildError::OffsetOverflow);
        };
        self.offsets.push(offset)?;
        Ok(())
    }

    // Removes the last slot.
    pub(crate) fn pop(&mut self)
        requires { 2 ≤ length self.old }
        ensures { self.new ≡ take (length self.old - 1) self.old }
    {
        self.offsets.pop();
    }

    /// Returns the offsets of slots of these lengths, in bytes or in slots of a child.
    ///
    /// Errors:
    ///
    /// - `BuildError::OffsetOverflow`: an offset would be above the maximum of its type.
    /// - `BuildError::Memory`: an allocation fails.
    #[tactic(auto, using(crate::proofs::Lengths::length_steps, crate::proofs::OffsetPushes::misses_more))]
    pub fn try_from_lengths(alloc: Global, lengths: &[usize]) -> Result<Self, BuildError>
        ensures { MatchResult result
            (λ o. o ≡ offsets_by_lengths lengths.now)
            (CantReach O.limit (sum lengths.now)) }
    {
        let mut offsets = Offsets::with_capacity(alloc, lengths.len())?;
        for len in lengths {
            offsets.try_push_usize(*len)?;
        }
        Ok(offsets)
    }

    /// Returns these offsets as a buffer. No offset is copied.
    pub fn finish(self) -> Result<OffsetsBuffer<O>, AllocError>
        ensures { IfOk result (λ o. o ≡ self) }
    {
        match OffsetsBuffer::try_new(Buffer::new(self.offsets)?) {
            Ok(offsets) => Ok(offsets),
            Err(_) => unreachable!(),
        }
    }
}
