//! Columns of keys.

use crate::columns::{joins, texts};
use lower::datatypes::{DataType, IntegerType};
use lower_arrays::array::{AnyArray, DictionaryArray, DictionaryKeys};
use lower_builders::primitive::MutablePrimitiveArray;
use lower_compute::concatenate::concatenate;
use lower_compute::error::ComputeError;
use std::alloc::{AllocError, Global};
use std::sync::Arc;
use std::test::Fail;

fn key_type(alloc: Global) -> Result<DataType, AllocError> {
    let values = Box::new(alloc, DataType::Utf8)?;
    Ok(DataType::Dictionary(IntegerType::Int8, values, false))
}

fn indices(alloc: Global, keys: &[Option<i8>]) -> Result<DictionaryKeys, AllocError> {
    let keys = MutablePrimitiveArray::<i8>::from_options(alloc, keys)?;
    Ok(DictionaryKeys::Int8(keys.finish()?))
}

fn array(
    data_type: DataType,
    keys: DictionaryKeys,
    values: Arc<AnyArray>,
) -> Result<AnyArray, Fail> {
    Ok(AnyArray::from(DictionaryArray::try_new(data_type, keys, values)?))
}

// Keys of a dictionary with these texts.
fn dictionary(
    alloc: Global,
    keys: &[Option<i8>],
    values: &[Option<&str>],
) -> Result<AnyArray, Fail> {
    let values = Arc::new(alloc, texts(alloc, values)?)?;
    let keys = indices(alloc, keys)?;
    array(key_type(alloc)?, keys, values)
}

#[test]
fn dictionaries_that_differ_are_joined(rt: HostRuntime) -> Result<(), Fail> {
    let alloc = rt.alloc();
    let first = dictionary(alloc, &[Some(1), None, Some(0)], &[Some("a"), Some("b")])?;
    let other = dictionary(alloc, &[Some(0), Some(1)], &[Some("b"), None])?;
    let keys = [Some(1), None, Some(0), Some(1), Some(2)];
    let expected = dictionary(alloc, &keys, &[Some("a"), Some("b"), None])?;
    assert!(rt; joins(alloc, first, other, expected)?);
    Ok(())
}

// How many values the dictionary has of the slots of one column and then of another, or none if
// they are too many for their keys.
fn count(alloc: Global, first: AnyArray, other: AnyArray) -> Result<Option<usize>, Fail> {
    match concatenate(alloc, &[&first, &other]) {
        Ok(AnyArray::Dictionary(copy)) => Ok(Some(copy.values().len())),
        Ok(_) => Err(Fail::new("no dictionary")),
        Err(ComputeError::Overflow) => Ok(None),
        Err(error) => Err(Fail::from(error)),
    }
}

#[test]
fn equal_values_are_shared(rt: HostRuntime) -> Result<(), Fail> {
    let alloc = rt.alloc();
    let first = dictionary(alloc, &[Some(1), None], &[Some("a"), Some("b")])?;
    let other = dictionary(alloc, &[Some(0)], &[Some("a"), Some("b")])?;
    assert_eq!(rt; count(alloc, first, other)?, Some(2));
    Ok(())
}

// 100 equal texts, and the key of the last.
fn hundred(alloc: Global, text: &str) -> Result<AnyArray, Fail> {
    let mut values = Vec::new(alloc);
    for _ in 0..100 {
        values.push(Some(text))?;
    }
    dictionary(alloc, &[Some(99)], &values)
}

#[test]
fn keys_above_the_maximum_of_their_type_are_refused(rt: HostRuntime) -> Result<(), Fail> {
    let alloc = rt.alloc();
    let first = hundred(alloc, "a")?;
    assert_eq!(rt; count(alloc, first, hundred(alloc, "b")?)?, None);
    let first = hundred(alloc, "a")?;
    assert_eq!(rt; count(alloc, first, hundred(alloc, "a")?)?, Some(100));
    Ok(())
}
