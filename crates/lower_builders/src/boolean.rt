//! Arrays of booleans that are built slot by slot.
ghost use Rattle.std.specs.Prelude.{◌≡◌, [], Some, None, IfOk, map, length};
ghost use Rattle.lower.specs.TypeTrees.{plain, boolean};
ghost use Rattle.lower_flat_arrays.specs.Options.{options};
ghost use Rattle.lower_builders.specs.Pushes.{Pushes};
ghost use Rattle.lower_builders.specs.Validity.{as_validity, validity_bits};

use crate::bitmap::MutableBitmap;
use crate::validity::MutableValidity;
use lower::datatypes::DataType;
use lower_flat_arrays::BooleanArray;
use std::alloc::{AllocError, Global};
use std::marker::Model;

/// A [`BooleanArray`] that grows slot by slot.
#[derive(Drop)]
pub struct MutableBooleanArray {
    values: MutableBitmap,
    validity: MutableValidity,
}

impl Model for MutableBooleanArray {
    ghost use Rattle.std.specs.Prelude.{◌≡◌, List, Bool, Option, length};
    ghost use Rattle.lower_flat_arrays.specs.Options.{where_set};

    ghost Value = { List (Option Bool) };

    ghost view = { λ a. where_set a.validity a.values };

    ghost invariant = { λ a. length a.validity ≡ length a.values };
}

impl MutableBooleanArray {
    /// Returns a builder of no slots. It allocates nothing.
    pub fn new(alloc: Global) -> Self
        ensures { result ≡ [] }
    {
        MutableBooleanArray {
            values: MutableBitmap::new(alloc),
            validity: MutableValidity::new(alloc),
        }
    }

    /// Returns a builder of no slots with memory for the bits of `capacity` slots.
    pub fn with_capacity(alloc: Global, capacity: usize) -> Result<Self, AllocError>
        ensures { IfOk result (λ a. a ≡ []) }
    {
        Ok(MutableBooleanArray {
            values: MutableBitmap::with_capacity(alloc, capacity)?,
            validity: MutableValidity::new(alloc),
        })
    }

    /// Allocates memory for the bits of `additional` more slots.
    pub fn reserve(&mut self, additional: usize) -> Result<(), AllocError>
        ensures { self.new ≡ self.old }
    {
        self.values.reserve(additional)
    }

    /// Returns the number of slots.
    #[tactic(auto, using(crate::proofs::Slots::slot_steps))]
    pub fn len(&self) -> usize
        ensures { result ≡ length self.now }
    {
        self.values.len()
    }

    /// Appends a slot, which is null if `value` is `None`.
    ///
    /// If memory is missing, the slots stay as they were.
    #[tactic(auto, using(crate::proofs::Slots::slot_steps))]
    pub fn push(&mut self, value: Option<bool>) -> Result<(), AllocError>
        ensures { Pushes result self.old value self.new }
    {
        let len = self.values.len();
        self.values.push(value.unwrap_or(false))?;
        if let Err(error) = self.validity.push(value.is_some()) {
            self.values.truncate(len);
            return Err(error);
        }
        Ok(())
    }

    /// Appends a null, as [`MutableBooleanArray::push`] does.
    pub fn push_null(&mut self) -> Result<(), AllocError>
        ensures { Pushes result self.old None self.new }
    {
        self.push(None)
    }

    /// Returns the array of these slots, of type `DataType::Boolean`. No bit is copied.
    ///
    /// Without nulls it has no validity bitmap.
    #[tactic(auto, using(crate::proofs::Slots::slot_steps))]
    pub fn finish(self) -> Result<BooleanArray, AllocError>
        ensures data_type { IfOk result (λ a. a.type ≡ plain boolean) }
        ensures slots { IfOk result (λ a. options a.validity a.values ≡ self) }
        ensures validity { IfOk result (λ a. a.validity ≡ as_validity (validity_bits self)) }
    {
        let MutableBooleanArray { values, validity } = self;
        let validity = validity.finish()?;
        let values = values.finish()?;
        match BooleanArray::try_new(DataType::Boolean, values, validity) {
            Ok(array) => Ok(array),
            Err(_) => unreachable!(),
        }
    }

    /// Returns a builder of these booleans, without nulls.
    #[tactic(auto, using(crate::proofs::Slots::slot_steps))]
    pub fn from_slice(alloc: Global, values: &[bool]) -> Result<Self, AllocError>
        ensures { IfOk result (λ a. a ≡ map Some values.now) }
    {
        let mut array = MutableBooleanArray::with_capacity(alloc, values.len())?;
        for value in values {
            array.push(Some(*value))?;
        }
        Ok(array)
    }

    /// Returns a builder of these slots, with a null for each `None`.
    #[tactic(auto, using(crate::proofs::Slots::slot_steps))]
    pub fn from_options(alloc: Global, slots: &[Option<bool>]) -> Result<Self, AllocError>
        ensures { IfOk result (λ a. a ≡ slots.now) }
    {
        let mut array = MutableBooleanArray::with_capacity(alloc, slots.len())?;
        for slot in slots {
            array.push(*slot)?;
        }
        Ok(array)
    }
}
