//! Arrays of texts with a dictionary that are built slot by slot.
//!
//! Arrow columnar format, "Dictionary-encoded Layout".
ghost use Rattle.std.specs.Prelude.{◌≡◌, ◌^◌, [], Some, None, false, length, map, slice_get, string_bytes, IfOk, IfErr};
ghost use Rattle.std.specs.List.{list_any};
ghost use Rattle.std.specs.Option.{option_copied};
ghost use Rattle.std.specs.Str.{bytes_eq};
ghost use Rattle.lower.specs.TypeTrees.{plain, utf8, dictionary};
ghost use Rattle.lower_flat_arrays.specs.Options.{options, spans};
ghost use Rattle.lower_builders.specs.Bytes.{byte_count};
ghost use Rattle.lower_builders.specs.Growing.{CantReach};
ghost use Rattle.lower_dictionary_builders.specs.Keyed.{values_among, value_of, texts_in, PushesValue};

use crate::key::{BuildKey, dictionary_type, finish_keys};
use indexmap::IndexSet;
use lower::datatypes::DataType;
use lower_arrays::array::{AnyArray, DictionaryArray};
use lower_builders::error::BuildError;
use lower_builders::primitive::MutablePrimitiveArray;
use lower_builders::utf8::MutableUtf8Array;
use lower_flat_arrays::Utf8Array;
use std::alloc::{AllocError, Global};
use std::marker::Model;
use std::sync::Arc;

/// A [`DictionaryArray`] of texts that grows slot by slot. Equal texts have one key.
#[derive(Drop)]
pub struct MutableUtf8DictionaryArray<K: BuildKey> {
    alloc: Global,
    values: IndexSet<String>,
    keys: MutablePrimitiveArray<K>,
}

impl<K: BuildKey> Model for MutableUtf8DictionaryArray<K> {
    ghost use Rattle.std.specs.Prelude.{ℕ, List, Option, map, string_bytes};
    ghost use Rattle.std.specs.Option.{option_map};
    ghost use Rattle.std.specs.Str.{bytes_eq};
    ghost use Rattle.lower_dictionary_builders.specs.Keyed.{value_of, AreKeyed};

    ghost Value = { List (Option (List ℕ)) };

    ghost view = { λ a. map (value_of (map string_bytes a.values.keys)) (map (option_map K.integer) a.keys) };

    ghost invariant = { λ a. AreKeyed bytes_eq (map string_bytes a.values.keys) (map (option_map K.integer) a.keys) };
}

// The array of these texts, without nulls.
#[tactic(auto, using(lower_builders::proofs::OffsetPushes::misses_more))]
fn texts_of(alloc: Global, texts: &[String]) -> Result<Utf8Array<i32>, BuildError>
    ensures data_type { IfOk result (λ a. a.type ≡ plain utf8) }
    ensures slots { let slots = map (λ t. Some (string_bytes t)) texts.now in
        IfOk result (λ a. options a.validity (spans a) ≡ slots) }
    ensures error { let slots = map (λ t. Some (string_bytes t)) texts.now in
        IfErr result (CantReach (2 ^ 31) (byte_count slots)) }
{
    let mut array = MutableUtf8Array::<i32>::with_capacity(alloc, texts.len())?;
    for text in texts {
        array.push(Some(text.as_str()))?;
    }
    Ok(array.finish()?)
}

impl<K: BuildKey> MutableUtf8DictionaryArray<K> {
    /// Returns a builder of no slots. It allocates nothing.
    #[tactic(auto, using(crate::proofs::Keyed::keyed_slots))]
    pub fn new(alloc: Global) -> Self
        ensures { result ≡ [] }
    {
        MutableUtf8DictionaryArray {
            alloc,
            values: IndexSet::new(alloc),
            keys: MutablePrimitiveArray::new(alloc),
        }
    }

    /// Returns a builder of no slots with memory for the keys of `capacity` slots.
    #[tactic(auto, using(crate::proofs::Keyed::keyed_slots))]
    pub fn with_capacity(alloc: Global, capacity: usize) -> Result<Self, AllocError>
        ensures { IfOk result (λ a. a ≡ []) }
    {
        Ok(MutableUtf8DictionaryArray {
            alloc,
            values: IndexSet::new(alloc),
            keys: MutablePrimitiveArray::with_capacity(alloc, capacity)?,
        })
    }

    /// Allocates memory for the keys of `additional` more slots.
    pub fn reserve(&mut self, additional: usize) -> Result<(), AllocError>
        ensures { self.new ≡ self.old }
    {
        self.keys.reserve(additional)
    }

    /// Returns the number of slots.
    #[tactic(auto, using(crate::proofs::Keyed::keyed_slots))]
    pub fn len(&self) -> usize
        ensures { result ≡ length self.now }
    {
        self.keys.len()
    }

    /// Appends a null, whose key is null. The dictionary gets no value.
    ///
    /// The error is `BuildError::Memory`, which leaves the slots as they were.
    pub fn push_null(&mut self) -> Result<(), BuildError>
        ensures { PushesValue bytes_eq K.count result self.old None self.new }
    {
        self.keys.push_null()?;
        Ok(())
    }

    // Appends a slot with the text at this index of the dictionary.
    fn push_index(&mut self, index: usize, text: &str) -> Result<(), BuildError>
        requires { slice_get (values_among bytes_eq self.old) index ≡ Some text.now }
        ensures { PushesValue bytes_eq K.count result self.old (Some text.now) self.new }
    {
        let Some(key) = K::from_index(index) else {
            return Err(BuildError::KeyOverflow);
        };
        self.keys.push(Some(key))?;
        Ok(())
    }

    // Appends a slot with a text that isn't in the dictionary.
    fn push_new(&mut self, text: &str) -> Result<(), BuildError>
        requires { list_any (bytes_eq text.now) (values_among bytes_eq self.old) ≡ false }
        ensures { PushesValue bytes_eq K.count result self.old (Some text.now) self.new }
    {
        let Some(key) = K::from_index(self.values.len()) else {
            return Err(BuildError::KeyOverflow);
        };
        let owned = String::from_str(self.alloc, text)?;
        self.values.insert(owned)?;
        if let Err(error) = self.keys.push(Some(key)) {
            self.values.pop();
            return Err(BuildError::from(error));
        }
        Ok(())
    }

    // Appends a slot of this text.
    fn push_text(&mut self, text: &str) -> Result<(), BuildError>
        ensures { PushesValue bytes_eq K.count result self.old (Some text.now) self.new }
    {
        match self.values.get_index_of(text) {
            Some(index) => self.push_index(index, text),
            None => self.push_new(text),
        }
    }

    /// Appends a slot, which is null if `value` is `None`.
    ///
    /// A text that is equal to an earlier one gets its key. Errors, each of which leaves the slots
    /// as they were:
    ///
    /// - `BuildError::KeyOverflow`: the slots have more different texts than `K` can number.
    /// - `BuildError::Memory`: an allocation fails.
    pub fn push(&mut self, value: Option<&str>) -> Result<(), BuildError>
        ensures { let slot = option_copied value.entry in
            PushesValue bytes_eq K.count result self.old slot self.new }
    {
        match value {
            None => self.push_null(),
            Some(text) => self.push_text(text),
        }
    }

    /// Returns the array of these slots. The texts of the dictionary are copied.
    ///
    /// Its data type is `DataType::Dictionary` of `DataType::Utf8`, unordered. Its dictionary has
    /// each text once, in the order of their first slots, and no null. Errors:
    ///
    /// - `BuildError::OffsetOverflow`: the different texts have 2^31 bytes or more together.
    /// - `BuildError::Memory`: an allocation fails.
    pub fn finish(self) -> Result<DictionaryArray, BuildError>
        ensures data_type { IfOk result (λ a. a.type ≡ dictionary K.key (plain utf8) false) }
        ensures slots { let texts = values_among bytes_eq self in IfOk result
            (λ a. map (value_of texts) (options a.keys.validity a.keys.integers) ≡ self) }
        ensures values { let texts = values_among bytes_eq self in
            IfOk result (λ a. texts_in a.values ≡ map Some texts) }
        ensures error { let bytes = byte_count (map Some (values_among bytes_eq self)) in
            IfErr result (CantReach (2 ^ 31) bytes) }
    {
        let MutableUtf8DictionaryArray {
            alloc,
            values,
            keys,
        } = self;
        let data_type = dictionary_type(alloc, K::key_type(), DataType::Utf8)?;
        let keys = finish_keys(keys)?;
        let texts = texts_of(alloc, values.as_slice())?;
        let values = Arc::new(alloc, AnyArray::from(texts))?;
        match DictionaryArray::try_new(data_type, keys, values) {
            Ok(array) => Ok(array),
            Err(_) => unreachable!(),
        }
    }
}
