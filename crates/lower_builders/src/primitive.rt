//! Arrays of numbers that are built slot by slot.
ghost use Rattle.std.specs.Prelude.{◌≡◌, [], Some, None, IfOk, map, length};
ghost use Rattle.lower.specs.TypeTrees.{plain};
ghost use Rattle.lower.specs.Physical.{number_type};
ghost use Rattle.lower_flat_arrays.specs.Options.{options};
ghost use Rattle.lower_builders.specs.Pushes.{Pushes};
ghost use Rattle.lower_builders.specs.Validity.{as_validity, validity_bits};

use crate::validity::MutableValidity;
use crate::zero::Zero;
use lower::buffer::Buffer;
use lower::datatypes::DataType;
use lower_flat_arrays::PrimitiveArray;
use std::alloc::{AllocError, Global};
use std::marker::Model;

/// A [`PrimitiveArray`] that grows slot by slot.
#[derive(Drop)]
pub struct MutablePrimitiveArray<T: Zero> {
    values: Vec<T>,
    validity: MutableValidity,
}

impl<T: Zero> Model for MutablePrimitiveArray<T> {
    ghost use Rattle.std.specs.Prelude.{◌≡◌, List, Option, length};
    ghost use Rattle.lower_flat_arrays.specs.Options.{where_set};

    ghost Value = { List (Option T) };

    ghost view = { λ a. where_set a.validity a.values.items };

    ghost invariant = { λ a. length a.validity ≡ length a.values.items };
}

impl<T: Zero> MutablePrimitiveArray<T> {
    /// Returns a builder of no slots. It allocates nothing.
    pub fn new(alloc: Global) -> Self
        ensures { result ≡ [] }
    {
        MutablePrimitiveArray {
            values: Vec::new(alloc),
            validity: MutableValidity::new(alloc),
        }
    }

    /// Returns a builder of no slots with memory for `capacity` numbers.
    pub fn with_capacity(alloc: Global, capacity: usize) -> Result<Self, AllocError>
        ensures { IfOk result (λ a. a ≡ []) }
    {
        Ok(MutablePrimitiveArray {
            values: Vec::with_capacity(alloc, capacity)?,
            validity: MutableValidity::new(alloc),
        })
    }

    /// Allocates memory for `additional` more numbers.
    pub fn reserve(&mut self, additional: usize) -> Result<(), AllocError>
        ensures { self.new ≡ self.old }
    {
        self.values.reserve(additional)
    }

    /// Returns the number of slots.
    #[tactic(auto, using(crate::proofs::Slots::slot_steps))]
    pub fn len(&self) -> usize
        ensures { result ≡ length self.now }
    {
        self.values.len()
    }

    /// Appends a slot, which is null if `value` is `None`.
    ///
    /// If memory is missing, the slots stay as they were.
    #[tactic(auto, using(crate::proofs::Slots::slot_steps))]
    pub fn push(&mut self, value: Option<T>) -> Result<(), AllocError>
        ensures { Pushes result self.old value self.new }
    {
        self.values.reserve(1)?;
        self.validity.push(value.is_some())?;
        self.values.push(value.unwrap_or(T::zero()))?;
        Ok(())
    }

    /// Appends a null, as [`MutablePrimitiveArray::push`] does.
    pub fn push_null(&mut self) -> Result<(), AllocError>
        ensures { Pushes result self.old None self.new }
    {
        self.push(None)
    }

    /// Returns the array of these slots. No number is copied.
    ///
    /// Its data type is what [`DataType::from`] gives for the numbers. Without nulls it has no
    /// validity bitmap.
    #[tactic(auto, using(crate::proofs::Slots::slot_steps))]
    pub fn finish(self) -> Result<PrimitiveArray<T>, AllocError>
        ensures data_type { IfOk result (λ a. a.type ≡ plain (number_type T.primitive)) }
        ensures slots { IfOk result (λ a. options a.validity a.values ≡ self) }
        ensures validity { IfOk result (λ a. a.validity ≡ as_validity (validity_bits self)) }
    {
        let MutablePrimitiveArray { values, validity } = self;
        let validity = validity.finish()?;
        let values = Buffer::new(values)?;
        match PrimitiveArray::try_new(DataType::from(T::primitive_type()), values, validity) {
            Ok(array) => Ok(array),
            Err(_) => unreachable!(),
        }
    }

    /// Returns a builder of these numbers, without nulls.
    #[tactic(auto, using(crate::proofs::Slots::slot_steps))]
    pub fn from_slice(alloc: Global, values: &[T]) -> Result<Self, AllocError>
        ensures { IfOk result (λ a. a ≡ map Some values.now) }
    {
        let mut array = MutablePrimitiveArray::with_capacity(alloc, values.len())?;
        for value in values {
            array.push(Some(*value))?;
        }
        Ok(array)
    }

    /// Returns a builder of these slots, with a null for each `None`.
    #[tactic(auto, using(crate::proofs::Slots::slot_steps))]
    pub fn from_options(alloc: Global, slots: &[Option<T>]) -> Result<Self, AllocError>
        ensures { IfOk result (λ a. a ≡ slots.now) }
    {
        let mut array = MutablePrimitiveArray::with_capacity(alloc, slots.len())?;
        for slot in slots {
            array.push(*slot)?;
        }
        Ok(array)
    }
}
