//! Keys that builders number.
ghost use Rattle.std.specs.Prelude.{◌≡◌, ℕ, ◌^◌, ◌<◌, ◌≤◌, pos, refl, false, MatchOption, IfOk, map};
ghost use Rattle.std.specs.Option.{option_map};
ghost use Rattle.lower.specs.TypeTrees.{dictionary};
ghost use Rattle.lower.specs.TypeViews.{type_view};
ghost use Rattle.lower.specs.Physical.{integer, number_type};
ghost use Rattle.lower_validation.specs.Keys.{keys_in};
ghost use Rattle.lower_validation.specs.AnyKeys.{keys_seen};
ghost use Rattle.lower_dictionary_builders.specs.Keyed.{AreKeysOf};

use lower::datatypes::{DataType, IntegerType};
use lower_builders::primitive::MutablePrimitiveArray;
use lower_builders::zero::Zero;
use lower_flat_arrays::PrimitiveArray;
use lower_validation::keys::{DictionaryKey, DictionaryKeys};
use std::alloc::{AllocError, Global};

/// A key type that a builder of dictionaries can count in.
pub trait BuildKey: DictionaryKey + Zero {
    // How many values such keys can number.
    ghost count: { ℕ };

    /// Returns the key of the value at `index`, or `None` if the type has no such number.
    fn from_index(index: usize) -> Option<Self>
        ensures { MatchOption result (count ≤ index)
            (λ k. (Self.integer k ≡ pos index) × (index < count)) };

    /// Returns these numbers as keys of a dictionary. They share the memory of the array.
    ///
    /// It fails only if a clone of the array does.
    fn to_keys(array: &PrimitiveArray<Self>) -> Result<DictionaryKeys, AllocError>
        ensures { let keys = keys_in Self.key Self.integer array.now in
            IfOk result (λ all. keys_seen all ≡ keys) };

    // Arrays of such numbers have the integer type that the keys name.
    ghost named: { number_type Self.primitive ≡ integer Self.key };
}

// The type of an unordered dictionary with such keys and values.
pub(crate) fn dictionary_type(
    alloc: Global,
    keys: IntegerType,
    values: DataType,
) -> Result<DataType, AllocError>
    ensures { IfOk result (λ t. type_view t ≡ dictionary keys (type_view values) false) }
{
    Ok(DataType::Dictionary(keys, Box::new(alloc, values)?, false))
}

// The keys of a dictionary with these slots.
pub(crate) fn finish_keys<K: BuildKey>(
    keys: MutablePrimitiveArray<K>,
) -> Result<DictionaryKeys, AllocError>
    ensures { let slots = map (option_map K.integer) keys in
        IfOk result (λ all. AreKeysOf K.key slots (keys_seen all)) }
{
    let array = keys.finish()?;
    K::to_keys(&array)
}

impl BuildKey for i8 {
    ghost count = { 2 ^ 7 };

    ghost named = { refl };

    fn from_index(index: usize) -> Option<i8> {
        i8::try_from(index).ok()
    }

    fn to_keys(array: &PrimitiveArray<i8>) -> Result<DictionaryKeys, AllocError> {
        Ok(DictionaryKeys::Int8(array.clone()?))
    }
}

impl BuildKey for i16 {
    ghost count = { 2 ^ 15 };

    ghost named = { refl };

    fn from_index(index: usize) -> Option<i16> {
        i16::try_from(index).ok()
    }

    fn to_keys(array: &PrimitiveArray<i16>) -> Result<DictionaryKeys, AllocError> {
        Ok(DictionaryKeys::Int16(array.clone()?))
    }
}

impl BuildKey for i32 {
    ghost count = { 2 ^ 31 };

    ghost named = { refl };

    fn from_index(index: usize) -> Option<i32> {
        i32::try_from(index).ok()
    }

    fn to_keys(array: &PrimitiveArray<i32>) -> Result<DictionaryKeys, AllocError> {
        Ok(DictionaryKeys::Int32(array.clone()?))
    }
}

impl BuildKey for i64 {
    ghost count = { 2 ^ 63 };

    ghost named = { refl };

    fn from_index(index: usize) -> Option<i64> {
        i64::try_from(index).ok()
    }

    fn to_keys(array: &PrimitiveArray<i64>) -> Result<DictionaryKeys, AllocError> {
        Ok(DictionaryKeys::Int64(array.clone()?))
    }
}

impl BuildKey for u8 {
    ghost count = { 2 ^ 8 };

    ghost named = { refl };

    fn from_index(index: usize) -> Option<u8> {
        u8::try_from(index).ok()
    }

    fn to_keys(array: &PrimitiveArray<u8>) -> Result<DictionaryKeys, AllocError> {
        Ok(DictionaryKeys::UInt8(array.clone()?))
    }
}

impl BuildKey for u16 {
    ghost count = { 2 ^ 16 };

    ghost named = { refl };

    fn from_index(index: usize) -> Option<u16> {
        u16::try_from(index).ok()
    }

    fn to_keys(array: &PrimitiveArray<u16>) -> Result<DictionaryKeys, AllocError> {
        Ok(DictionaryKeys::UInt16(array.clone()?))
    }
}

impl BuildKey for u32 {
    ghost count = { 2 ^ 32 };

    ghost named = { refl };

    fn from_index(index: usize) -> Option<u32> {
        u32::try_from(index).ok()
    }

    fn to_keys(array: &PrimitiveArray<u32>) -> Result<DictionaryKeys, AllocError> {
        Ok(DictionaryKeys::UInt32(array.clone()?))
    }
}

impl BuildKey for u64 {
    ghost count = { 2 ^ 64 };

    ghost named = { refl };

    fn from_index(index: usize) -> Option<u64> {
        u64::try_from(index).ok()
    }

    fn to_keys(array: &PrimitiveArray<u64>) -> Result<DictionaryKeys, AllocError> {
        Ok(DictionaryKeys::UInt64(array.clone()?))
    }
}
