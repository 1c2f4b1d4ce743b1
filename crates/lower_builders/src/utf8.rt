//! Arrays of texts that are built slot by slot.
ghost use Rattle.std.specs.Prelude.{◌≡◌, [], Some, None, IfOk, MatchResult, length, map};
ghost use Rattle.std.specs.Option.{option_copied};
ghost use Rattle.lower.specs.TypeTrees.{plain};
ghost use Rattle.lower.specs.TypeViews.{type_view};
ghost use Rattle.lower.specs.Physical.{physical};
ghost use Rattle.lower_flat_arrays.specs.Texts.{texts_with};
ghost use Rattle.lower_flat_arrays.specs.Options.{options, spans};
ghost use Rattle.lower_builders.specs.Growing.{CantReach};
ghost use Rattle.lower_builders.specs.Validity.{as_validity, validity_bits};
ghost use Rattle.lower_builders.specs.Bytes.{text_type, byte_count, PushesBytes};

use crate::binary::MutableBinaryArray;
use crate::error::BuildError;
use lower::datatypes::DataType;
use lower::offset::Offset;
use lower::types::PrimitiveType;
use lower_flat_arrays::Utf8Array;
use std::alloc::{AllocError, Global};
use std::marker::Model;

/// A [`Utf8Array`] that grows slot by slot.
#[derive(Drop)]
pub struct MutableUtf8Array<O: Offset> {
    slots: MutableBinaryArray<O>,
}

impl<O: Offset> Model for MutableUtf8Array<O> {
    ghost use Rattle.std.specs.Prelude.{ℕ, List, Option};
    ghost use Rattle.lower_builders.specs.Bytes.{AreUtf8};

    ghost Value = { List (Option (List ℕ)) };

    ghost view = { λ a. a.slots };

    ghost invariant = { λ a. AreUtf8 a.slots };
}

// The type of texts with such offsets.
fn default_data_type(offsets: PrimitiveType) -> DataType
    ensures tree { type_view result ≡ plain (text_type offsets) }
    ensures layout { physical (type_view result) ≡ texts_with offsets }
{
    match offsets {
        PrimitiveType::Int64 => DataType::LargeUtf8,
        _ => DataType::Utf8,
    }
}

impl<O: Offset> MutableUtf8Array<O> {
    /// Returns a builder of no slots, with memory for the offsets of `capacity` slots.
    ///
    /// The error is `BuildError::Memory`, or `BuildError::OffsetOverflow` if `O` has no 0.
    pub fn with_capacity(alloc: Global, capacity: usize) -> Result<Self, BuildError>
        ensures { MatchResult result (λ a. a ≡ []) (CantReach O.limit 0) }
    {
        Ok(MutableUtf8Array {
            slots: MutableBinaryArray::with_capacity(alloc, capacity)?,
        })
    }

    /// Returns a builder of no slots.
    ///
    /// The error is `BuildError::Memory`, or `BuildError::OffsetOverflow` if `O` has no 0.
    pub fn new(alloc: Global) -> Result<Self, BuildError>
        ensures { MatchResult result (λ a. a ≡ []) (CantReach O.limit 0) }
    {
        MutableUtf8Array::with_capacity(alloc, 0)
    }

    /// Allocates memory for `additional` more slots with `bytes` bytes together.
    pub fn reserve(&mut self, additional: usize, bytes: usize) -> Result<(), AllocError>
        ensures { self.new ≡ self.old }
    {
        self.slots.reserve(additional, bytes)
    }

    /// Returns the number of slots.
    pub fn len(&self) -> usize
        ensures { result ≡ length self.now }
    {
        self.slots.len()
    }

    // Appends a slot of this text.
    #[tactic(auto, using(crate::proofs::TextPushes::text_pushes))]
    fn push_text(&mut self, text: &str) -> Result<(), BuildError>
        ensures { PushesBytes O.limit result self.old (Some text.now) self.new }
    {
        self.slots.push(Some(text.as_bytes()))
    }

    /// Appends a null, as [`MutableUtf8Array::push`] does.
    #[tactic(auto, using(crate::proofs::TextPushes::text_pushes))]
    pub fn push_null(&mut self) -> Result<(), BuildError>
        ensures { PushesBytes O.limit result self.old None self.new }
    {
        self.slots.push_null()
    }

    /// Appends a slot, which is null if `value` is `None`.
    ///
    /// Errors, each of which leaves the slots as they were:
    ///
    /// - `BuildError::OffsetOverflow`: the slots have more bytes than the maximum offset.
    /// - `BuildError::Memory`: an allocation fails.
    pub fn push(&mut self, value: Option<&str>) -> Result<(), BuildError>
        ensures { PushesBytes O.limit result self.old (option_copied value.entry) self.new }
    {
        match value {
            None => self.push_null(),
            Some(text) => self.push_text(text),
        }
    }

    /// Returns the array of these slots. No byte is copied.
    ///
    /// Its data type is `DataType::Utf8`, or `DataType::LargeUtf8` with offsets of 64 bits.
    /// Without nulls it has no validity bitmap.
    pub fn finish(self) -> Result<Utf8Array<O>, AllocError>
        ensures data_type { IfOk result (λ a. a.type ≡ plain (text_type O.primitive)) }
        ensures slots { IfOk result (λ a. options a.validity (spans a) ≡ self) }
        ensures validity { IfOk result (λ a. a.validity ≡ as_validity (validity_bits self)) }
    {
        let data_type = default_data_type(O::primitive_type());
        let (offsets, values, validity) = self.slots.into_parts()?;
        match Utf8Array::try_new(data_type, offsets, values, validity) {
            Ok(array) => Ok(array),
            Err(_) => unreachable!(),
        }
    }

    /// Returns a builder of these texts, without nulls. Their bytes are copied.
    ///
    /// Errors:
    ///
    /// - `BuildError::OffsetOverflow`: they have more bytes together than the maximum offset.
    /// - `BuildError::Memory`: an allocation fails.
    #[tactic(auto, using(crate::proofs::OffsetPushes::misses_more))]
    pub fn from_slice(alloc: Global, values: &[&str]) -> Result<Self, BuildError>
        ensures { let slots = map (λ v. Some v.now) values.now in MatchResult result
            (λ a. a ≡ slots)
            (CantReach O.limit (byte_count slots)) }
    {
        let mut array = MutableUtf8Array::with_capacity(alloc, values.len())?;
        for value in values {
            array.push(Some(*value))?;
        }
        Ok(array)
    }

    /// Returns a builder of these slots, with a null for each `None`. Their bytes are copied.
    ///
    /// Errors:
    ///
    /// - `BuildError::OffsetOverflow`: they have more bytes together than the maximum offset.
    /// - `BuildError::Memory`: an allocation fails.
    #[tactic(auto, using(crate::proofs::OffsetPushes::misses_more))]
    pub fn from_options(alloc: Global, slots: &[Option<&str>]) -> Result<Self, BuildError>
        ensures { let all = map option_copied slots.now in MatchResult result
            (λ a. a ≡ all)
            (CantReach O.limit (byte_count all)) }
    {
        let mut array = MutableUtf8Array::with_capacity(alloc, slots.len())?;
        for slot in slots {
            array.push(*slot)?;
        }
        Ok(array)
    }
}
