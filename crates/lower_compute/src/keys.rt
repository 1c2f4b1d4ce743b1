//! The keys of dictionaries, run by run.
ghost use Rattle.std.specs.Prelude.{◌≡◌, ℕ, pos, ◌+◌, ◌++◌, ◌^◌, ◌<◌, ◌≤◌, length, map, IfOk, OnOk, MatchOption, MatchResult};
ghost use Rattle.std.specs.List.{All};
ghost use Rattle.lower.specs.TypeTrees.{plain};
ghost use Rattle.lower.specs.Physical.{integer, number_type};
ghost use Rattle.lower_flat_arrays.specs.Validities.{ValidityFits, part};
ghost use Rattle.lower_validation.specs.AnyKeys.{keys_seen};
ghost use Rattle.lower_arrays.specs.Layouts.{len_of};
ghost use Rattle.lower_compute.specs.Runs.{RunFits, items_of_runs};
ghost use Rattle.lower_compute.specs.Copies.{NoCopy};
ghost use Rattle.lower_compute.specs.Keyed.{value_place, value_places};

use crate::error::ComputeError;
use crate::runs::Run;
use lower::bitmap::Bitmap;
use lower::buffer::Buffer;
use lower::datatypes::{DataType, IntegerType};
use lower_arrays::array::{DictionaryArray, DictionaryKey, DictionaryKeys, PrimitiveArray};
use std::alloc::{AllocError, Global};

/// A type of keys that indices can be converted into.
pub(crate) trait FromIndex: DictionaryKey {
    // No index from here on is a key.
    ghost limit: { ℕ };

    /// Returns the key of the value at `index`, or `None` if the type has no such number.
    fn from_index(index: usize) -> Option<Self>
        ensures { MatchOption result (limit ≤ index) (λ k. Self.integer k ≡ pos index) };
}

impl FromIndex for i8 {
    ghost limit = { 2 ^ 7 };

    fn from_index(index: usize) -> Option<i8> {
        i8::try_from(index).ok()
    }
}

impl FromIndex for i16 {
    ghost limit = { 2 ^ 15 };

    fn from_index(index: usize) -> Option<i16> {
        i16::try_from(index).ok()
    }
}

impl FromIndex for i32 {
    ghost limit = { 2 ^ 31 };

    fn from_index(index: usize) -> Option<i32> {
        i32::try_from(index).ok()
    }
}

impl FromIndex for i64 {
    ghost limit = { 2 ^ 63 };

    fn from_index(index: usize) -> Option<i64> {
        i64::try_from(index).ok()
    }
}

impl FromIndex for u8 {
    ghost limit = { 2 ^ 8 };

    fn from_index(index: usize) -> Option<u8> {
        u8::try_from(index).ok()
    }
}

impl FromIndex for u16 {
    ghost limit = { 2 ^ 16 };

    fn from_index(index: usize) -> Option<u16> {
        u16::try_from(index).ok()
    }
}

impl FromIndex for u32 {
    ghost limit = { 2 ^ 32 };

    fn from_index(index: usize) -> Option<u32> {
        u32::try_from(index).ok()
    }
}

impl FromIndex for u64 {
    ghost limit = { 2 ^ 64 };

    fn from_index(index: usize) -> Option<u64> {
        u64::try_from(index).ok()
    }
}

// The indices as keys of one type.
fn numbers<K: FromIndex>(alloc: Global, places: &[usize]) -> Result<Vec<K>, ComputeError>
    ensures { MatchResult result
        (λ keys. map K.integer keys.items ≡ map (λ n. pos n) places.now) NoCopy }
{
    let mut keys = Vec::with_capacity(alloc, places.len())?;
    for place in places {
        let Some(key) = K::from_index(*place) else {
            return Err(ComputeError::Overflow);
        };
        keys.push(key)?;
    }
    Ok(keys)
}

// The indices as an array of keys of one type.
fn integers<K: FromIndex>(
    alloc: Global,
    places: &[usize],
    validity: Option<Bitmap>,
) -> Result<PrimitiveArray<K>, ComputeError>
    requires { ValidityFits validity (length places.now) }
    ensures { MatchResult result
        (λ a. (a.type ≡ plain (number_type K.primitive))
        × (map K.integer a.values ≡ map (λ n. pos n) places.now)
        × (a.validity ≡ validity))
        NoCopy }
{
    let values = Buffer::new(numbers(alloc, places)?)?;
    match PrimitiveArray::try_new(DataType::from(K::primitive_type()), values, validity) {
        Ok(array) => Ok(array),
        Err(_) => unreachable!(),
    }
}

/// Returns the indices as keys of this type.
///
/// Errors:
///
/// - `ComputeError::Overflow`: the type has no such number.
/// - `ComputeError::Memory`: an allocation fails.
pub(crate) fn keys_of(
    alloc: Global,
    key_type: IntegerType,
    places: &[usize],
    validity: Option<Bitmap>,
) -> Result<DictionaryKeys, ComputeError>
    requires { ValidityFits validity (length places.now) }
    ensures { MatchResult result
        (λ keys. keys_seen keys ≡ record {
          key = key_type;
          type = plain (integer key_type);
          integers = map (λ n. pos n) places.now;
          validity = validity;
        })
        NoCopy }
{
    match key_type {
        IntegerType::Int8 => Ok(DictionaryKeys::Int8(integers(alloc, places, validity)?)),
        IntegerType::Int16 => Ok(DictionaryKeys::Int16(integers(alloc, places, validity)?)),
        IntegerType::Int32 => Ok(DictionaryKeys::Int32(integers(alloc, places, validity)?)),
        IntegerType::Int64 => Ok(DictionaryKeys::Int64(integers(alloc, places, validity)?)),
        IntegerType::UInt8 => Ok(DictionaryKeys::UInt8(integers(alloc, places, validity)?)),
        IntegerType::UInt16 => Ok(DictionaryKeys::UInt16(integers(alloc, places, validity)?)),
        IntegerType::UInt32 => Ok(DictionaryKeys::UInt32(integers(alloc, places, validity)?)),
        IntegerType::UInt64 => Ok(DictionaryKeys::UInt64(integers(alloc, places, validity)?)),
    }
}

// The index of the value of a slot, if the values begin at `start`; 0 if the key is null.
fn place_of(start: usize, array: &DictionaryArray, index: usize) -> usize
    requires within { index < length array.now.keys.integers }
    requires small { start + len_of array.now.values < 2 ^ 64 }
    ensures { result ≡ value_place start array.now index }
{
    if array.is_valid(index) {
        start + array.key_value(index)
    } else {
        0
    }
}

// Appends the indices of the values of the slots of a run.
fn append_places(
    out: &mut Vec<usize>,
    start: usize,
    array: &DictionaryArray,
    offset: usize,
    len: usize,
) -> Result<(), AllocError>
    requires within { offset + len ≤ length array.now.keys.integers }
    requires small { start + len_of array.now.values < 2 ^ 64 }
    ensures { OnOk result
        (out.new.items ≡ out.old.items ++ part offset len (value_places start array.now)) }
{
    prove!(len <= array.len());
    for i in 0..len {
        let place = place_of(start, array, offset + i);
        out.push(place)?;
    }
    Ok(())
}

/// Returns the indices of the values of the slots of each run; beside each array is the index at
/// which its values begin.
pub(crate) fn places_of_runs(
    alloc: Global,
    arrays: &[(usize, &DictionaryArray)],
    runs: &[Run],
) -> Result<Vec<usize>, AllocError>
    requires fits { All (RunFits (map (λ p. length p.1.now.keys.integers) arrays.now)) runs.now }
    requires small { All (λ p. p.0 + len_of p.1.now.values < 2 ^ 64) arrays.now }
    ensures { IfOk result
        (λ v. v.items
        ≡ items_of_runs (map (λ p. value_places p.0 p.1.now) arrays.now) runs.now) }
{
    let mut places = Vec::new(alloc);
    for run in runs {
        let placed = arrays[run.array];
        append_places(&mut places, placed.0, placed.1, run.offset, run.len)?;
    }
    Ok(places)
}
