//! Arrays of nulls of types with children.

use crate::nulls::has_null_arrays;
use lower::datatypes::{DataType, Field, IntegerType, UnionMode};
use lower_arrays::array::{AnyArray, UnionArray};
use lower_nulls::error::NullError;
use lower_nulls::new_null_array;
use std::alloc::{AllocError, Global};
use std::test::Fail;

/// A nullable field.
pub fn field(alloc: Global, name: &str, data_type: DataType) -> Result<Field, AllocError> {
    Ok(Field::new(name.to_string(alloc)?, data_type, true))
}

/// The field of a list's items.
pub fn item(alloc: Global, data_type: DataType) -> Result<Box<Field>, AllocError> {
    Ok(Box::new(alloc, field(alloc, "item", data_type)?)?)
}

/// A list of integers, and an integer.
pub fn two_fields(alloc: Global) -> Result<Vec<Field>, AllocError> {
    let mut fields = Vec::new(alloc);
    let list = DataType::List(item(alloc, DataType::Int8)?);
    fields.push(field(alloc, "a", list)?)?;
    fields.push(field(alloc, "b", DataType::Int8)?)?;
    Ok(fields)
}

// Whether there are arrays of nulls of the type.
fn is_null(alloc: Global, data_type: DataType) -> Result<bool, NullError> {
    has_null_arrays(alloc, &data_type)
}

#[test]
fn lists_are_null(rt: HostRuntime) -> Result<(), Fail> {
    let alloc = rt.alloc();
    assert!(rt; is_null(alloc, DataType::List(item(alloc, DataType::Int8)?))?);
    assert!(rt; is_null(alloc, DataType::LargeList(item(alloc, DataType::Utf8)?))?);
    assert!(rt;
        is_null(
            alloc,
            DataType::FixedSizeList(item(alloc, DataType::Date32)?, 2)
        )?
    );
    Ok(())
}

// Maps from lists to integers.
fn map_type(alloc: Global) -> Result<DataType, AllocError> {
    let pair = DataType::Struct(two_fields(alloc)?);
    Ok(DataType::Map(item(alloc, pair)?, true))
}

// Dictionaries of texts.
fn dictionary_type(alloc: Global) -> Result<DataType, AllocError> {
    let texts = Box::new(alloc, DataType::Utf8)?;
    Ok(DataType::Dictionary(IntegerType::UInt16, texts, true))
}

fn extension_type(alloc: Global, storage: DataType) -> Result<DataType, AllocError> {
    let storage = Box::new(alloc, storage)?;
    Ok(DataType::Extension("e".to_string(alloc)?, storage, None))
}

#[test]
fn maps_structs_and_dictionaries_are_null(rt: HostRuntime) -> Result<(), Fail> {
    let alloc = rt.alloc();
    assert!(rt; is_null(alloc, map_type(alloc)?)?);
    assert!(rt; is_null(alloc, DataType::Struct(two_fields(alloc)?))?);
    assert!(rt; is_null(alloc, dictionary_type(alloc)?)?);
    Ok(())
}

#[test]
fn extensions_are_null(rt: HostRuntime) -> Result<(), Fail> {
    let alloc = rt.alloc();
    assert!(rt; is_null(alloc, extension_type(alloc, DataType::Int8)?)?);
    assert!(rt; is_null(alloc, extension_type(alloc, map_type(alloc)?)?)?);
    assert!(rt; is_null(alloc, extension_type(alloc, dictionary_type(alloc)?)?)?);
    Ok(())
}

// Three null slots of a union of two fields with the type ids 7 and 3.
fn null_union(alloc: Global, mode: UnionMode) -> Result<AnyArray, NullError> {
    let ids = vec![in alloc; 7, 3]?;
    let data_type = DataType::Union(two_fields(alloc)?, Some(ids), mode);
    new_null_array(alloc, data_type, 3)
}

// Whether each slot has the type id of the first child, and each child three nulls.
fn is_of_first_child(array: &UnionArray) -> bool {
    if array.types().as_slice() != [7, 7, 7].as_slice() {
        return false;
    }
    for child in array.fields() {
        if child.null_count() != 3 {
            return false;
        }
    }
    true
}

fn is_sparse(array: &AnyArray) -> bool {
    match array {
        AnyArray::Union(array) => is_of_first_child(array) && array.offsets().is_none(),
        _ => false,
    }
}

fn is_dense(array: &AnyArray) -> bool {
    match array {
        AnyArray::Union(array) => match array.offsets() {
            Some(offsets) => {
                is_of_first_child(array) && offsets.as_slice() == [0, 0, 0].as_slice()
            }
            None => false,
        },
        _ => false,
    }
}

#[test]
fn null_slots_of_unions_are_of_the_first_child(rt: HostRuntime) -> Result<(), Fail> {
    let alloc = rt.alloc();
    let sparse = null_union(alloc, UnionMode::Sparse)?;
    assert!(rt; is_sparse(&sparse), "{sparse:?}");
    let dense = null_union(alloc, UnionMode::Dense)?;
    assert!(rt; is_dense(&dense), "{dense:?}");
    Ok(())
}
