//! Arrays of integers with a dictionary, built slot by slot.

use crate::dictionaries::{has_keys, has_six_keys, has_type, is_overflow};
use lower::datatypes::DataType;
use lower_arrays::array::{AnyArray, DictionaryArray, PrimitiveArray};
use lower_builders::error::BuildError;
use lower_dictionary_builders::primitive::MutablePrimitiveDictionaryArray;
use lower_dictionary_builders::value::DictionaryValue;
use std::alloc::{AllocError, Global};
use std::test::Fail;

fn has_numbers(
    alloc: Global,
    array: &DictionaryArray,
    numbers: &[i64],
) -> Result<bool, AllocError> {
    let expected = PrimitiveArray::from_slice(alloc, numbers)?;
    Ok(*array.values() == AnyArray::from(expected))
}

fn built(alloc: Global, slots: &[Option<i64>]) -> Result<DictionaryArray, BuildError> {
    let mut array = MutablePrimitiveDictionaryArray::<i32, i64>::new(alloc);
    for slot in slots {
        array.push(*slot)?;
    }
    Ok(array.finish()?)
}

fn six_integers(alloc: Global) -> Result<DictionaryArray, BuildError> {
    let slots = [Some(7), None, Some(-7), Some(7), Some(0), Some(-7)];
    built(alloc, &slots)
}

#[test]
fn equal_integers_have_one_key(rt: HostRuntime) -> Result<(), Fail> {
    let alloc = rt.alloc();
    let array = six_integers(alloc)?;
    assert!(rt; has_six_keys(&array));
    assert!(rt; has_numbers(alloc, &array, &[7, -7, 0])?);
    Ok(())
}

#[test]
fn integers_have_the_type_of_a_dictionary(rt: HostRuntime) -> Result<(), Fail> {
    let alloc = rt.alloc();
    let array = six_integers(alloc)?;
    assert!(rt; has_type(alloc, &array, DataType::Int64)?);
    Ok(())
}

// An integer, a null and the same integer, with memory that is reserved before and between.
fn reserved(alloc: Global) -> Result<MutablePrimitiveDictionaryArray<i32, i64>, BuildError> {
    let mut array = MutablePrimitiveDictionaryArray::with_capacity(alloc, 2)?;
    array.push(Some(3))?;
    array.reserve(9)?;
    array.push_null()?;
    array.push(Some(3))?;
    Ok(array)
}

#[test]
fn reserved_memory_has_no_slots(rt: HostRuntime) -> Result<(), Fail> {
    let alloc = rt.alloc();
    let builder = reserved(alloc)?;
    assert_eq!(rt; builder.len(), 3);
    let array = builder.finish()?;
    assert!(rt; has_keys(&array, &[Some(0), None, Some(0)]));
    assert!(rt; has_numbers(alloc, &array, &[3])?);
    Ok(())
}

// The slots `first`, `second` and `first`.
fn three_slots<T: DictionaryValue>(
    alloc: Global,
    first: T,
    second: T,
) -> Result<DictionaryArray, BuildError> {
    let mut array = MutablePrimitiveDictionaryArray::<i32, T>::new(alloc);
    array.push(Some(first))?;
    array.push(Some(second))?;
    array.push(Some(first))?;
    Ok(array.finish()?)
}

fn two_values<T: DictionaryValue>(
    alloc: Global,
    first: T,
    second: T,
) -> Result<AnyArray, AllocError> {
    let mut values = Vec::new(alloc);
    values.push(first)?;
    values.push(second)?;
    T::array_of(alloc, values.as_slice())
}

// Whether a dictionary of two integers has both.
fn are_kept<T: DictionaryValue>(alloc: Global, first: T, second: T) -> Result<bool, BuildError> {
    let array = three_slots(alloc, first, second)?;
    let expected = two_values(alloc, first, second)?;
    Ok(has_keys(&array, &[Some(0), Some(1), Some(0)]) && *array.values() == expected)
}

#[test]
fn integers_of_each_type_are_kept(rt: HostRuntime) -> Result<(), Fail> {
    let alloc = rt.alloc();
    assert!(rt; are_kept(alloc, i8::MIN, i8::MAX)?);
    assert!(rt; are_kept(alloc, i16::MIN, i16::MAX)?);
    assert!(rt; are_kept(alloc, i32::MIN, i32::MAX)?);
    assert!(rt; are_kept(alloc, i64::MIN, i64::MAX)?);
    assert!(rt; are_kept(alloc, u8::MIN, u8::MAX)?);
    assert!(rt; are_kept(alloc, u16::MIN, u16::MAX)?);
    assert!(rt; are_kept(alloc, u32::MIN, u32::MAX)?);
    assert!(rt; are_kept(alloc, u64::MIN, u64::MAX)?);
    Ok(())
}

// The integers 0 to 255.
fn full(alloc: Global) -> Result<MutablePrimitiveDictionaryArray<u8, i64>, BuildError> {
    let mut array = MutablePrimitiveDictionaryArray::new(alloc);
    for number in 0..256 {
        array.push(Some(number))?;
    }
    Ok(array)
}

// A builder whose keys have run out takes an integer that it has.
#[test]
fn unsigned_keys_of_8_bits_number_256_integers(rt: HostRuntime) -> Result<(), Fail> {
    let mut builder = full(rt.alloc())?;
    assert!(rt; is_overflow(builder.push(Some(256)))?);
    assert_eq!(rt; builder.len(), 256);
    builder.push(Some(255))?;
    let array = builder.finish()?;
    assert_eq!(rt; array.len(), 257);
    assert_eq!(rt; array.values().len(), 256);
    Ok(())
}
