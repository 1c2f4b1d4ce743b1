//! Columns of structs and of maps.

use crate::columns::{field, joins, numbers, offsets, takes, texts};
use lower::datatypes::{DataType, Field};
use lower::offset::OffsetsBuffer;
use lower_arrays::array::{AnyArray, MapArray, StructArray};
use std::alloc::{AllocError, Global};
use std::test::Fail;

/// A field of texts, and one of numbers.
pub fn fields(alloc: Global) -> Result<Vec<Field>, AllocError> {
    let key = field(alloc, "key", DataType::Utf8)?;
    Ok(vec![in alloc; key, field(alloc, "value", DataType::Int64)?]?)
}

/// Columns of these texts and numbers.
pub fn children(
    alloc: Global,
    keys: &[Option<&str>],
    slots: &[Option<i64>],
) -> Result<Vec<AnyArray>, Fail> {
    let keys = texts(alloc, keys)?;
    Ok(vec![in alloc; keys, numbers(alloc, slots)?]?)
}

fn records(alloc: Global, keys: &[Option<&str>], slots: &[Option<i64>]) -> Result<AnyArray, Fail> {
    let data_type = DataType::Struct(fields(alloc)?);
    let children = children(alloc, keys, slots)?;
    Ok(AnyArray::from(StructArray::try_new(data_type, children, None)?))
}

#[test]
fn structs_are_taken(rt: HostRuntime) -> Result<(), Fail> {
    let alloc = rt.alloc();
    let keys = [Some("a"), Some("bc"), Some("")];
    let array = records(alloc, &keys, &[Some(1), None, Some(3)])?;
    let keys = [Some("bc"), Some(""), Some(""), Some("a")];
    let expected = records(alloc, &keys, &[None, Some(3), Some(3), Some(1)])?;
    assert!(rt; takes(alloc, array, &[1, 2, 2, 0], expected)?);
    Ok(())
}

fn map_type(alloc: Global) -> Result<DataType, AllocError> {
    let pair = field(alloc, "entries", DataType::Struct(fields(alloc)?))?;
    Ok(DataType::Map(Box::new(alloc, pair)?, false))
}

fn map(
    data_type: DataType,
    ends: OffsetsBuffer<i32>,
    pairs: Box<AnyArray>,
) -> Result<AnyArray, Fail> {
    Ok(AnyArray::from(MapArray::try_new(data_type, ends, pairs, None)?))
}

// Maps of these pairs between these offsets.
fn maps(
    alloc: Global,
    keys: &[Option<&str>],
    slots: &[Option<i64>],
    ends: &[i32],
) -> Result<AnyArray, Fail> {
    let pairs = Box::new(alloc, records(alloc, keys, slots)?)?;
    let ends = offsets(alloc, ends)?;
    map(map_type(alloc)?, ends, pairs)
}

#[test]
fn maps_are_taken(rt: HostRuntime) -> Result<(), Fail> {
    let alloc = rt.alloc();
    let keys = [Some("a"), Some("b"), Some("c")];
    let array = maps(alloc, &keys, &[Some(1), Some(2), None], &[0, 2, 2, 3])?;
    let keys = [Some("c"), Some("a"), Some("b")];
    let expected = maps(alloc, &keys, &[None, Some(1), Some(2)], &[0, 1, 1, 3])?;
    assert!(rt; takes(alloc, array, &[2, 1, 0], expected)?);
    Ok(())
}

#[test]
fn maps_are_joined(rt: HostRuntime) -> Result<(), Fail> {
    let alloc = rt.alloc();
    let first = maps(alloc, &[Some("a")], &[Some(1)], &[0, 0, 1])?;
    let other = maps(alloc, &[Some("b")], &[None], &[0, 1])?;
    let keys = [Some("a"), Some("b")];
    let expected = maps(alloc, &keys, &[Some(1), None], &[0, 0, 1, 2])?;
    assert!(rt; joins(alloc, first, other, expected)?);
    Ok(())
}
