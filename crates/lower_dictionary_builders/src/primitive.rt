//! Arrays of integers with a dictionary that are built slot by slot.
//!
//! Arrow columnar format, "Dictionary-encoded Layout".
ghost use Rattle.std.specs.Prelude.{◌≡◌, [], Some, None, false, length, map, slice_get, IfOk};
ghost use Rattle.std.specs.List.{list_any};
ghost use Rattle.lower.specs.TypeTrees.{plain, dictionary};
ghost use Rattle.lower.specs.Physical.{number_type};
ghost use Rattle.lower_flat_arrays.specs.Options.{options};
ghost use Rattle.lower_flat_arrays.specs.Primitives.{primitive_seen};
ghost use Rattle.lower_arrays.specs.Primitives.{primitive_layout};
ghost use Rattle.lower_dictionary_builders.specs.Keyed.{values_among, value_of, PushesValue};

use crate::key::{BuildKey, dictionary_type, finish_keys};
use crate::value::DictionaryValue;
use indexmap::IndexSet;
use lower::datatypes::DataType;
use lower_arrays::array::DictionaryArray;
use lower_builders::error::BuildError;
use lower_builders::primitive::MutablePrimitiveArray;
use std::alloc::{AllocError, Global};
use std::marker::Model;
use std::sync::Arc;

/// A [`DictionaryArray`] of integers that grows slot by slot. Equal integers have one key.
#[derive(Drop)]
pub struct MutablePrimitiveDictionaryArray<K: BuildKey, T: DictionaryValue> {
    alloc: Global,
    values: IndexSet<T>,
    keys: MutablePrimitiveArray<K>,
}

impl<K: BuildKey, T: DictionaryValue> Model for MutablePrimitiveDictionaryArray<K, T> {
    ghost use Rattle.std.specs.Prelude.{List, Option, map};
    ghost use Rattle.std.specs.Option.{option_map};
    ghost use Rattle.lower_dictionary_builders.specs.Keyed.{value_of, AreKeyed};

    ghost Value = { List (Option T) };

    ghost view = { λ a. map (value_of a.values.keys) (map (option_map K.integer) a.keys) };

    ghost invariant = { λ a. AreKeyed T.eq a.values.keys (map (option_map K.integer) a.keys) };
}

impl<K: BuildKey, T: DictionaryValue> MutablePrimitiveDictionaryArray<K, T> {
    /// Returns a builder of no slots. It allocates nothing.
    #[tactic(auto, using(crate::proofs::Keyed::keyed_slots))]
    pub fn new(alloc: Global) -> Self
        ensures { result ≡ [] }
    {
        MutablePrimitiveDictionaryArray {
            alloc,
            values: IndexSet::new(alloc),
            keys: MutablePrimitiveArray::new(alloc),
        }
    }

    /// Returns a builder of no slots with memory for the keys of `capacity` slots.
    #[tactic(auto, using(crate::proofs::Keyed::keyed_slots))]
    pub fn with_capacity(alloc: Global, capacity: usize) -> Result<Self, AllocError>
        ensures { IfOk result (λ a. a ≡ []) }
    {
        Ok(MutablePrimitiveDictionaryArray {
            alloc,
            values: IndexSet::new(alloc),
            keys: MutablePrimitiveArray::with_capacity(alloc, capacity)?,
        })
    }

    /// Allocates memory for the keys of `additional` more slots.
    pub fn reserve(&mut self, additional: usize) -> Result<(), AllocError>
        ensures { self.new ≡ self.old }
    {
        self.keys.reserve(additional)
    }

    /// Returns the number of slots.
    #[tactic(auto, using(crate::proofs::Keyed::keyed_slots))]
    pub fn len(&self) -> usize
        ensures { result ≡ length self.now }
    {
        self.keys.len()
    }

    /// Appends a null, whose key is null. The dictionary gets no value.
    ///
    /// The error is `BuildError::Memory`, which leaves the slots as they were.
    pub fn push_null(&mut self) -> Result<(), BuildError>
        ensures { PushesValue T.eq K.count result self.old None self.new }
    {
        self.keys.push_null()?;
        Ok(())
    }

    // Appends a slot with the integer at this index of the dictionary.
    fn push_index(&mut self, index: usize, value: T) -> Result<(), BuildError>
        requires { slice_get (values_among T.eq self.old) index ≡ Some value }
        ensures { PushesValue T.eq K.count result self.old (Some value) self.new }
    {
        let Some(key) = K::from_index(index) else {
            return Err(BuildError::KeyOverflow);
        };
        self.keys.push(Some(key))?;
        Ok(())
    }

    // Appends a slot with an integer that isn't in the dictionary.
    fn push_new(&mut self, value: T) -> Result<(), BuildError>
        requires { list_any (T.eq value) (values_among T.eq self.old) ≡ false }
        ensures { PushesValue T.eq K.count result self.old (Some value) self.new }
    {
        let Some(key) = K::from_index(self.values.len()) else {
            return Err(BuildError::KeyOverflow);
        };
        self.values.insert(value)?;
        if let Err(error) = self.keys.push(Some(key)) {
            self.values.pop();
            return Err(BuildError::from(error));
        }
        Ok(())
    }

    // Appends a slot of this integer.
    fn push_value(&mut self, value: T) -> Result<(), BuildError>
        ensures { PushesValue T.eq K.count result self.old (Some value) self.new }
    {
        match self.values.get_index_of(&value) {
            Some(index) => self.push_index(index, value),
            None => self.push_new(value),
        }
    }

    /// Appends a slot, which is null if `value` is `None`.
    ///
    /// An integer that is equal to an earlier one gets its key. Errors, each of which leaves the
    /// slots as they were:
    ///
    /// - `BuildError::KeyOverflow`: the slots have more different integers than `K` can number.
    /// - `BuildError::Memory`: an allocation fails.
    pub fn push(&mut self, value: Option<T>) -> Result<(), BuildError>
        ensures { PushesValue T.eq K.count result self.old value self.new }
    {
        match value {
            None => self.push_null(),
            Some(value) => self.push_value(value),
        }
    }

    /// Returns the array of these slots. The integers of the dictionary are copied.
    ///
    /// Its data type is an unordered `DataType::Dictionary` of what [`DataType::from`] gives for
    /// the integers. Its dictionary has each integer once, in the order of their first slots, and
    /// no null. It fails only if an allocation fails.
    pub fn finish(self) -> Result<DictionaryArray, AllocError>
        ensures data_type { IfOk result
            (λ a. a.type ≡ dictionary K.key (plain (number_type T.primitive)) false) }
        ensures slots { let all = values_among T.eq self in IfOk result
            (λ a. map (value_of all) (options a.keys.validity a.keys.integers) ≡ self) }
        ensures values { let seen = primitive_seen (plain (number_type T.primitive))
            (values_among T.eq self) None in
            IfOk result (λ a. a.values ≡ primitive_layout T.primitive T.number seen) }
    {
        let MutablePrimitiveDictionaryArray {
            alloc,
            values,
            keys,
        } = self;
        let data_type = dictionary_type(alloc, K::key_type(), DataType::from(T::primitive_type()))?;
        let keys = finish_keys(keys)?;
        let numbers = T::array_of(alloc, values.as_slice())?;
        let values = Arc::new(alloc, numbers)?;
        match DictionaryArray::try_new(data_type, keys, values) {
            Ok(array) => Ok(array),
            Err(_) => unreachable!(),
        }
    }
}
