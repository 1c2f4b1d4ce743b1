//! Arrays of byte strings of one length that are built slot by slot.
ghost use Rattle.std.specs.Prelude.{◌≡◌, ◌<◌, [], Some, None, IfOk, MatchResult, length};
ghost use Rattle.std.specs.Option.{option_copied};
ghost use Rattle.lower.specs.TypeTrees.{plain, fixed_binary};
ghost use Rattle.lower.specs.TypeViews.{type_view};
ghost use Rattle.lower_flat_arrays.specs.Options.{options, pieces};
ghost use Rattle.lower_builders.specs.declared.error.BuildError.TheVariants.{Length};
ghost use Rattle.lower_builders.specs.FixedBytes.{fixed_slots, NoSize, PushesFixed};
ghost use Rattle.lower_builders.specs.Validity.{as_validity, validity_bits};

use crate::error::BuildError;
use crate::validity::MutableValidity;
use lower::buffer::Buffer;
use lower::datatypes::DataType;
use lower_flat_arrays::FixedSizeBinaryArray;
use std::alloc::{AllocError, Global};
use std::marker::Model;

/// A [`FixedSizeBinaryArray`] that grows slot by slot.
#[derive(Drop)]
pub struct MutableFixedSizeBinaryArray {
    size: usize,
    values: Vec<u8>,
    validity: MutableValidity,
}

impl Model for MutableFixedSizeBinaryArray {
    ghost use Rattle.std.specs.Prelude.{◌≡◌, ◌*◌, ◌<◌, length};
    ghost use Rattle.lower_flat_arrays.specs.Options.{where_set};
    ghost use Rattle.lower_builders.specs.FixedBytes.{FixedSlots, coded_fixed_slots, pieces_of};

    ghost Value = { FixedSlots };

    ghost coded = { coded_fixed_slots };

    ghost view = { λ a. record { size = a.size; slots = where_set a.validity (pieces_of a.size (length a.validity) a.values.items) } };

    ghost invariant = { λ a. (0 < a.size) × (length a.values.items ≡ length a.validity * a.size) };
}

// The type of byte strings of this length.
fn fixed_data_type(size: usize) -> DataType
    ensures { type_view result ≡ plain (fixed_binary size) }
{
    DataType::FixedSizeBinary(size)
}

impl MutableFixedSizeBinaryArray {
    /// Returns a builder of no slots of `size` bytes each. It allocates nothing.
    ///
    /// The error is `BuildError::Length`, exactly if `size` is 0.
    pub fn new(alloc: Global, size: usize) -> Result<Self, BuildError>
        ensures { MatchResult result
            (λ a. (a ≡ fixed_slots size []) × (0 < size))
            (λ e. (e ≡ Length) × (size ≡ 0)) }
    {
        if size == 0 {
            return Err(BuildError::Length);
        }
        Ok(MutableFixedSizeBinaryArray {
            size,
            values: Vec::new(alloc),
            validity: MutableValidity::new(alloc),
        })
    }

    /// Returns a builder of no slots of `size` bytes each, with memory for `capacity` slots.
    ///
    /// Errors:
    ///
    /// - `BuildError::Length`: `size` is 0.
    /// - `BuildError::Memory`: an allocation fails, and `size` isn't 0.
    pub fn with_capacity(alloc: Global, size: usize, capacity: usize) -> Result<Self, BuildError>
        ensures { MatchResult result
            (λ a. (a ≡ fixed_slots size []) × (0 < size))
            (NoSize size) }
    {
        let mut array = MutableFixedSizeBinaryArray::new(alloc, size)?;
        array.reserve(size.saturating_mul(capacity))?;
        Ok(array)
    }

    /// Allocates memory for `bytes` more bytes of slots.
    pub fn reserve(&mut self, bytes: usize) -> Result<(), AllocError>
        ensures { self.new ≡ self.old }
    {
        self.values.reserve(bytes)
    }

    /// Returns the number of bytes of a slot.
    pub fn size(&self) -> usize
        ensures { result ≡ self.now.size }
    {
        self.size
    }

    /// Returns the number of slots.
    #[tactic(auto, using(crate::proofs::FixedPushes::fixed_pushes))]
    pub fn len(&self) -> usize
        ensures { result ≡ length self.now.slots }
    {
        self.validity.len()
    }

    // Appends a slot of these bytes.
    #[tactic(auto, using(crate::proofs::FixedPushes::fixed_pushes))]
    fn push_bytes(&mut self, bytes: &[u8]) -> Result<(), BuildError>
        ensures { PushesFixed result self.old (Some bytes.now) self.new }
    {
        if bytes.len() != self.size {
            return Err(BuildError::Length);
        }
        self.values.reserve(self.size)?;
        self.validity.push(true)?;
        self.values.extend_from_slice(bytes)?;
        Ok(())
    }

    /// Appends a null, whose bytes are 0.
    ///
    /// The error is `BuildError::Memory`, which leaves the slots as they were.
    #[tactic(auto, using(crate::proofs::FixedPushes::fixed_pushes))]
    pub fn push_null(&mut self) -> Result<(), BuildError>
        ensures { PushesFixed result self.old None self.new }
    {
        self.values.reserve(self.size)?;
        self.validity.push(false)?;
        let len = self.values.len() + self.size;
        self.values.resize(len, 0)?;
        Ok(())
    }

    /// Appends a slot, which is null if `value` is `None`.
    ///
    /// Errors, each of which leaves the slots as they were:
    ///
    /// - `BuildError::Length`: `value` hasn't the length of a slot.
    /// - `BuildError::Memory`: an allocation fails.
    pub fn push(&mut self, value: Option<&[u8]>) -> Result<(), BuildError>
        ensures { PushesFixed result self.old (option_copied value.entry) self.new }
    {
        match value {
            None => self.push_null(),
            Some(bytes) => self.push_bytes(bytes),
        }
    }

    /// Returns the array of these slots, of type `DataType::FixedSizeBinary`. No byte is copied.
    ///
    /// Without nulls it has no validity bitmap.
    #[tactic(auto, using(crate::proofs::FixedPushes::fixed_pushes))]
    pub fn finish(self) -> Result<FixedSizeBinaryArray, AllocError>
        ensures data_type { IfOk result (λ a. a.type ≡ plain (fixed_binary self.size)) }
        ensures slots { IfOk result (λ a. options a.validity (pieces a) ≡ self.slots) }
        ensures validity { IfOk result
            (λ a. a.validity ≡ as_validity (validity_bits self.slots)) }
    {
        let MutableFixedSizeBinaryArray {
            size,
            values,
            validity,
        } = self;
        let validity = validity.finish()?;
        let values = Buffer::new(values)?;
        match FixedSizeBinaryArray::try_new(fixed_data_type(size), values, validity) {
            Ok(array) => Ok(array),
            Err(_) => unreachable!(),
        }
    }
}
