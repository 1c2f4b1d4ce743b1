//! Arrays of byte strings that are built slot by slot.
ghost use Rattle.std.specs.Prelude.{◌≡◌, [], Some, None, IfOk, MatchResult, length, map};
ghost use Rattle.std.specs.Option.{option_copied};
ghost use Rattle.lower.specs.TypeTrees.{plain};
ghost use Rattle.lower.specs.TypeViews.{type_view};
ghost use Rattle.lower.specs.Physical.{physical};
ghost use Rattle.lower_flat_arrays.specs.Binaries.{bytes_with};
ghost use Rattle.lower_flat_arrays.specs.Options.{options, option_where, spans};
ghost use Rattle.lower_builders.specs.Growing.{CantReach};
ghost use Rattle.lower_builders.specs.Validity.{as_validity, validity_bits};
ghost use Rattle.lower_builders.specs.Bytes.{binary_type, bytes_in, byte_count, PushesBytes, ArePartsOf};

use crate::error::BuildError;
use crate::offsets::Offsets;
use crate::validity::MutableValidity;
use lower::bitmap::Bitmap;
use lower::buffer::Buffer;
use lower::datatypes::DataType;
use lower::offset::{Offset, OffsetsBuffer};
use lower::types::PrimitiveType;
use lower_flat_arrays::BinaryArray;
use std::alloc::{AllocError, Global};
use std::marker::Model;

/// A [`BinaryArray`] that grows slot by slot.
#[derive(Drop)]
pub struct MutableBinaryArray<O: Offset> {
    offsets: Offsets<O>,
    values: Vec<u8>,
    validity: MutableValidity,
}

impl<O: Offset> Model for MutableBinaryArray<O> {
    ghost use Rattle.std.specs.Prelude.{ℕ, List, Option};
    ghost use Rattle.lower_flat_arrays.specs.Options.{where_set};
    ghost use Rattle.lower_builders.specs.Bytes.{spans_of, AreSpans};

    ghost Value = { List (Option (List ℕ)) };

    ghost view = { λ a. where_set a.validity (spans_of a.offsets a.values.items) };

    ghost invariant = { λ a. AreSpans a.offsets a.values.items a.validity };
}

// The type of byte strings with such offsets.
fn default_data_type(offsets: PrimitiveType) -> DataType
    ensures tree { type_view result ≡ plain (binary_type offsets) }
    ensures layout { physical (type_view result) ≡ bytes_with offsets }
{
    match offsets {
        PrimitiveType::Int64 => DataType::LargeBinary,
        _ => DataType::Binary,
    }
}

impl<O: Offset> MutableBinaryArray<O> {
    /// Returns a builder of no slots, with memory for the offsets of `capacity` slots.
    ///
    /// The error is `BuildError::Memory`, or `BuildError::OffsetOverflow` if `O` has no 0.
    pub fn with_capacity(alloc: Global, capacity: usize) -> Result<Self, BuildError>
        ensures { MatchResult result (λ a. a ≡ []) (CantReach O.limit 0) }
    {
        Ok(MutableBinaryArray {
            offsets: Offsets::with_capacity(alloc, capacity)?,
            values: Vec::new(alloc),
            validity: MutableValidity::new(alloc),
        })
    }

    /// Returns a builder of no slots.
    ///
    /// The error is `BuildError::Memory`, or `BuildError::OffsetOverflow` if `O` has no 0.
    pub fn new(alloc: Global) -> Result<Self, BuildError>
        ensures { MatchResult result (λ a. a ≡ []) (CantReach O.limit 0) }
    {
        MutableBinaryArray::with_capacity(alloc, 0)
    }

    /// Allocates memory for `additional` more slots with `bytes` bytes together.
    pub fn reserve(&mut self, additional: usize, bytes: usize) -> Result<(), AllocError>
        ensures { self.new ≡ self.old }
    {
        self.offsets.reserve(additional)?;
        self.values.reserve(bytes)
    }

    /// Returns the number of slots.
    pub fn len(&self) -> usize
        ensures { result ≡ length self.now }
    {
        self.validity.len()
    }

    // Appends a slot of these bytes, which is null or not; a null has no bytes.
    fn push_slot(&mut self, bytes: &[u8], is_valid: bool) -> Result<(), BuildError>
        requires { bytes_in (option_where is_valid bytes.now) ≡ bytes.now }
        ensures { PushesBytes O.limit result self.old (option_where is_valid bytes.now) self.new }
    {
        self.values.reserve(bytes.len())?;
        self.offsets.try_push_usize(bytes.len())?;
        if let Err(error) = self.validity.push(is_valid) {
            self.offsets.pop();
            return Err(BuildError::from(error));
        }
        self.values.extend_from_slice(bytes)?;
        Ok(())
    }

    /// Appends a slot, which is null if `value` is `None`.
    ///
    /// Errors, each of which leaves the slots as they were:
    ///
    /// - `BuildError::OffsetOverflow`: the slots have more bytes than the maximum offset.
    /// - `BuildError::Memory`: an allocation fails.
    pub fn push(&mut self, value: Option<&[u8]>) -> Result<(), BuildError>
        ensures { PushesBytes O.limit result self.old (option_copied value.entry) self.new }
    {
        match value {
            None => self.push_slot(&[], false),
            Some(bytes) => self.push_slot(bytes, true),
        }
    }

    /// Appends a null, as [`MutableBinaryArray::push`] does.
    pub fn push_null(&mut self) -> Result<(), BuildError>
        ensures { PushesBytes O.limit result self.old None self.new }
    {
        self.push_slot(&[], false)
    }

    // The parts of the array of these slots.
    pub(crate) fn into_parts(
        self,
    ) -> Result<(OffsetsBuffer<O>, Buffer<u8>, Option<Bitmap>), AllocError>
        ensures { IfOk result (λ p. ArePartsOf self p.0 p.1 p.2) }
    {
        let MutableBinaryArray {
            offsets,
            values,
            validity,
        } = self;
        let offsets = offsets.finish()?;
        let values = Buffer::new(values)?;
        let validity = validity.finish()?;
        Ok((offsets, values, validity))
    }

    /// Returns the array of these slots. No byte is copied.
    ///
    /// Its data type is `DataType::Binary`, or `DataType::LargeBinary` with offsets of 64 bits.
    /// Without nulls it has no validity bitmap.
    pub fn finish(self) -> Result<BinaryArray<O>, AllocError>
        ensures data_type { IfOk result (λ a. a.type ≡ plain (binary_type O.primitive)) }
        ensures slots { IfOk result (λ a. options a.validity (spans a) ≡ self) }
        ensures validity { IfOk result (λ a. a.validity ≡ as_validity (validity_bits self)) }
    {
        let data_type = default_data_type(O::primitive_type());
        let (offsets, values, validity) = self.into_parts()?;
        match BinaryArray::try_new(data_type, offsets, values, validity) {
            Ok(array) => Ok(array),
            Err(_) => unreachable!(),
        }
    }

    /// Returns a builder of these byte strings, without nulls. Their bytes are copied.
    ///
    /// Errors:
    ///
    /// - `BuildError::OffsetOverflow`: they have more bytes together than the maximum offset.
    /// - `BuildError::Memory`: an allocation fails.
    #[tactic(auto, using(crate::proofs::OffsetPushes::misses_more))]
    pub fn from_slice(alloc: Global, values: &[&[u8]]) -> Result<Self, BuildError>
        ensures { let slots = map (λ v. Some v.now) values.now in MatchResult result
            (λ a. a ≡ slots)
            (CantReach O.limit (byte_count slots)) }
    {
        let mut array = MutableBinaryArray::with_capacity(alloc, values.len())?;
        for value in values {
            array.push(Some(*value))?;
        }
        Ok(array)
    }

    /// Returns a builder of these slots, with a null for each `None`. Their bytes are copied.
    ///
    /// Errors:
    ///
    /// - `BuildError::OffsetOverflow`: they have more bytes together than the maximum offset.
    /// - `BuildError::Memory`: an allocation fails.
    #[tactic(auto, using(crate::proofs::OffsetPushes::misses_more))]
    pub fn from_options(alloc: Global, slots: &[Option<&[u8]>]) -> Result<Self, BuildError>
        ensures { let all = map option_copied slots.now in MatchResult result
            (λ a. a ≡ all)
            (CantReach O.limit (byte_count all)) }
    {
        let mut array = MutableBinaryArray::with_capacity(alloc, slots.len())?;
        for slot in slots {
            array.push(*slot)?;
        }
        Ok(array)
    }
}
