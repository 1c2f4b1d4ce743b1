//! Arrays of texts with a dictionary, built slot by slot.

use lower::datatypes::{DataType, IntegerType};
use lower_arrays::array::{AnyArray, DictionaryArray};
use lower_arrays::value::Value;
use lower_builders::error::BuildError;
use lower_builders::utf8::MutableUtf8Array;
use lower_dictionary_builders::key::BuildKey;
use lower_dictionary_builders::utf8::MutableUtf8DictionaryArray;
use lower_validation::keys::DictionaryKeys;
use std::alloc::{AllocError, Global};
use std::test::Fail;

/// Whether the keys are these numbers of 32 bits.
pub fn has_keys(array: &DictionaryArray, expected: &[Option<i32>]) -> bool {
    let DictionaryKeys::Int32(keys) = array.keys() else {
        return false;
    };
    if keys.len() != expected.len() {
        return false;
    }
    for (key, number) in keys.iter().zip(expected) {
        if key != *number {
            return false;
        }
    }
    true
}

/// Whether the data type is an unordered dictionary of such values, with keys of 32 bits.
pub fn has_type(
    alloc: Global,
    array: &DictionaryArray,
    values: DataType,
) -> Result<bool, AllocError> {
    let values = Box::new(alloc, values)?;
    let expected = DataType::Dictionary(IntegerType::Int32, values, false);
    Ok(*array.data_type() == expected)
}

/// Whether a value is refused because the keys have run out.
pub fn is_overflow(outcome: Result<(), BuildError>) -> Result<bool, BuildError> {
    match outcome {
        Err(BuildError::Memory) => Err(BuildError::Memory),
        Err(error) => Ok(error == BuildError::KeyOverflow),
        Ok(()) => Ok(false),
    }
}

fn has_texts(alloc: Global, array: &DictionaryArray, texts: &[&str]) -> Result<bool, BuildError> {
    let expected = MutableUtf8Array::<i32>::from_slice(alloc, texts)?.finish()?;
    Ok(*array.values() == AnyArray::from(expected))
}

fn built<K: BuildKey>(
    alloc: Global,
    slots: &[Option<&str>],
) -> Result<DictionaryArray, BuildError> {
    let mut array = MutableUtf8DictionaryArray::<K>::new(alloc);
    for slot in slots {
        array.push(*slot)?;
    }
    array.finish()
}

fn six_texts(alloc: Global) -> Result<DictionaryArray, BuildError> {
    let slots = [Some("b"), None, Some(""), Some("b"), Some("é"), Some("")];
    built::<i32>(alloc, &slots)
}

/// Whether the keys are 0, null, 1, 0, 2 and 1.
pub fn has_six_keys(array: &DictionaryArray) -> bool {
    has_keys(array, &[Some(0), None, Some(1), Some(0), Some(2), Some(1)])
}

#[test]
fn equal_texts_have_one_key(rt: HostRuntime) -> Result<(), Fail> {
    let alloc = rt.alloc();
    let array = six_texts(alloc)?;
    assert!(rt; has_six_keys(&array));
    assert!(rt; has_texts(alloc, &array, &["b", "", "é"])?);
    Ok(())
}

#[test]
fn texts_have_the_type_of_a_dictionary(rt: HostRuntime) -> Result<(), Fail> {
    let alloc = rt.alloc();
    let array = six_texts(alloc)?;
    assert!(rt; has_type(alloc, &array, DataType::Utf8)?);
    Ok(())
}

#[test]
fn nulls_have_no_value(rt: HostRuntime) -> Result<(), Fail> {
    let array = built::<i32>(rt.alloc(), &[None, None])?;
    assert!(rt; has_keys(&array, &[None, None]));
    assert_eq!(rt; array.values().len(), 0);
    Ok(())
}

#[test]
fn no_slots_have_no_value(rt: HostRuntime) -> Result<(), Fail> {
    let array = built::<i32>(rt.alloc(), &[])?;
    assert!(rt; has_keys(&array, &[]));
    assert_eq!(rt; array.values().len(), 0);
    Ok(())
}

// A text, a null and the same text, with memory that is reserved before and between.
fn reserved(alloc: Global) -> Result<MutableUtf8DictionaryArray<i32>, BuildError> {
    let mut array = MutableUtf8DictionaryArray::with_capacity(alloc, 2)?;
    array.push(Some("a"))?;
    array.reserve(9)?;
    array.push_null()?;
    array.push(Some("a"))?;
    Ok(array)
}

#[test]
fn reserved_memory_has_no_slots(rt: HostRuntime) -> Result<(), Fail> {
    let alloc = rt.alloc();
    let builder = reserved(alloc)?;
    assert_eq!(rt; builder.len(), 3);
    let array = builder.finish()?;
    assert!(rt; has_keys(&array, &[Some(0), None, Some(0)]));
    assert!(rt; has_texts(alloc, &array, &["a"])?);
    Ok(())
}

// Whether texts have keys of this type.
fn has_key_type<K: BuildKey>(alloc: Global, key_type: IntegerType) -> Result<bool, BuildError> {
    let array = built::<K>(alloc, &[Some("a"), Some("b"), Some("a")])?;
    if array.keys().key_type() != key_type {
        return Ok(false);
    }
    let array = AnyArray::from(array);
    Ok(array.slot(1) == Some(Value::Text("b")) && array.slot(2) == Some(Value::Text("a")))
}

#[test]
fn keys_have_the_type_of_the_builder(rt: HostRuntime) -> Result<(), Fail> {
    let alloc = rt.alloc();
    assert!(rt; has_key_type::<i8>(alloc, IntegerType::Int8)?);
    assert!(rt; has_key_type::<i16>(alloc, IntegerType::Int16)?);
    assert!(rt; has_key_type::<i32>(alloc, IntegerType::Int32)?);
    assert!(rt; has_key_type::<i64>(alloc, IntegerType::Int64)?);
    assert!(rt; has_key_type::<u8>(alloc, IntegerType::UInt8)?);
    assert!(rt; has_key_type::<u16>(alloc, IntegerType::UInt16)?);
    assert!(rt; has_key_type::<u32>(alloc, IntegerType::UInt32)?);
    assert!(rt; has_key_type::<u64>(alloc, IntegerType::UInt64)?);
    Ok(())
}

// The texts "0" to "127".
fn full(alloc: Global) -> Result<MutableUtf8DictionaryArray<i8>, BuildError> {
    let mut array = MutableUtf8DictionaryArray::new(alloc);
    for number in 0..128 {
        let text = number.to_string(alloc)?;
        array.push(Some(text.as_str()))?;
    }
    Ok(array)
}

// A builder whose keys have run out takes a text that it has.
#[test]
fn keys_of_8_bits_number_128_texts(rt: HostRuntime) -> Result<(), Fail> {
    let mut builder = full(rt.alloc())?;
    assert!(rt; is_overflow(builder.push(Some("128")))?);
    assert_eq!(rt; builder.len(), 128);
    builder.push(Some("127"))?;
    let array = builder.finish()?;
    assert_eq!(rt; array.values().len(), 128);
    assert!(rt; AnyArray::from(array).slot(128) == Some(Value::Text("127")));
    Ok(())
}
