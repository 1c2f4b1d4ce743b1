//! Types that have no arrays of nulls.

use crate::nested_nulls::{item, two_fields};
use lower::datatypes::{DataType, UnionMode};
use lower_nulls::error::NullError;
use lower_nulls::{new_empty_array, new_null_array};
use std::alloc::{AllocError, Global};
use std::test::Fail;

// Whether there is no array of so many nulls, because of `expected`.
fn is_refused(
    alloc: Global,
    data_type: DataType,
    length: usize,
    expected: NullError,
) -> Result<bool, NullError> {
    match new_null_array(alloc, data_type, length) {
        Err(NullError::Memory) => Err(NullError::Memory),
        Err(error) => Ok(error == expected),
        Ok(_) => Ok(false),
    }
}

// Whether no array has the type.
fn has_no_arrays(alloc: Global, data_type: DataType) -> Result<bool, NullError> {
    is_refused(alloc, data_type, 1, NullError::DataType)
}

#[test]
fn floats_are_refused(rt: HostRuntime) -> Result<(), Fail> {
    let alloc = rt.alloc();
    assert!(rt; has_no_arrays(alloc, DataType::Float16)?);
    assert!(rt; has_no_arrays(alloc, DataType::Float32)?);
    assert!(rt; has_no_arrays(alloc, DataType::Float64)?);
    assert!(rt; has_no_arrays(alloc, DataType::List(item(alloc, DataType::Float32)?))?);
    Ok(())
}

#[test]
fn floats_are_refused_without_slots(rt: HostRuntime) -> Result<(), Fail> {
    let array = new_empty_array(rt.alloc(), DataType::Float64);
    assert!(rt; matches!(array, Err(NullError::DataType)));
    Ok(())
}

#[test]
fn sizes_of_0_are_refused(rt: HostRuntime) -> Result<(), Fail> {
    let alloc = rt.alloc();
    assert!(rt; has_no_arrays(alloc, DataType::FixedSizeBinary(0))?);
    assert!(rt;
        has_no_arrays(
            alloc,
            DataType::FixedSizeList(item(alloc, DataType::Int8)?, 0)
        )?
    );
    Ok(())
}

#[test]
fn structs_and_maps_without_fields_are_refused(rt: HostRuntime) -> Result<(), Fail> {
    let alloc = rt.alloc();
    assert!(rt; has_no_arrays(alloc, DataType::Struct(Vec::new(alloc)))?);
    assert!(rt; has_no_arrays(alloc, DataType::Map(item(alloc, DataType::Int8)?, false))?);
    Ok(())
}

// A union of two fields with these type ids.
fn union_type(alloc: Global, ids: &[i32]) -> Result<DataType, AllocError> {
    let ids = Vec::from_slice(alloc, ids)?;
    Ok(DataType::Union(two_fields(alloc)?, Some(ids), UnionMode::Sparse))
}

// Type ids are distinct, from 0 to 126, one for each field.
const WRONG_IDS: [&[i32]; 6] = [&[], &[1], &[1, 1], &[300, 1], &[-1, 1], &[1, 127]];

#[test]
fn wrong_type_ids_are_refused(rt: HostRuntime) -> Result<(), Fail> {
    let alloc = rt.alloc();
    for ids in WRONG_IDS {
        assert!(rt; has_no_arrays(alloc, union_type(alloc, ids)?)?, "{ids:?}");
    }
    Ok(())
}

#[test]
fn unions_without_fields_are_refused(rt: HostRuntime) -> Result<(), Fail> {
    let alloc = rt.alloc();
    let union = DataType::Union(Vec::new(alloc), None, UnionMode::Dense);
    assert!(rt; has_no_arrays(alloc, union)?);
    Ok(())
}

// Whether so many slots of the type are too large.
fn is_too_large(alloc: Global, data_type: DataType, length: usize) -> Result<bool, NullError> {
    is_refused(alloc, data_type, length, NullError::Length)
}

// Lists of so many nulls.
fn null_lists(alloc: Global, size: usize) -> Result<DataType, AllocError> {
    Ok(DataType::FixedSizeList(item(alloc, DataType::Null)?, size))
}

// Lists of two lists of 2^63 nulls.
fn nested_lists(alloc: Global) -> Result<DataType, AllocError> {
    Ok(DataType::FixedSizeList(item(alloc, null_lists(alloc, 1 << 63)?)?, 2))
}

#[test]
fn slots_of_2_to_the_64_are_refused(rt: HostRuntime) -> Result<(), Fail> {
    let alloc = rt.alloc();
    assert!(rt; is_too_large(alloc, DataType::FixedSizeBinary(1 << 63), 2)?);
    assert!(rt; is_too_large(alloc, null_lists(alloc, 1 << 63)?, 2)?);
    assert!(rt; is_too_large(alloc, nested_lists(alloc)?, 1)?);
    Ok(())
}

#[test]
fn arrays_without_slots_need_no_memory_for_values(rt: HostRuntime) -> Result<(), Fail> {
    let alloc = rt.alloc();
    let bytes = new_empty_array(alloc, DataType::FixedSizeBinary(usize::MAX))?;
    assert_eq!(rt; bytes.len(), 0);
    let lists = new_empty_array(alloc, null_lists(alloc, usize::MAX)?)?;
    assert_eq!(rt; lists.len(), 0);
    Ok(())
}
