//! Columns of unions.

use crate::columns::{joins, takes};
use crate::records::{children, fields};
use lower::buffer::Buffer;
use lower::datatypes::{DataType, UnionMode};
use lower_arrays::array::{AnyArray, UnionArray};
use std::alloc::Global;
use std::test::Fail;

fn sparse(
    types: Buffer<i8>,
    data_type: DataType,
    children: Vec<AnyArray>,
) -> Result<AnyArray, Fail> {
    Ok(AnyArray::from(UnionArray::try_new(data_type, types, children, None)?))
}

// A sparse union of texts (id 0) and numbers (id 1).
fn sparse_union(
    alloc: Global,
    types: &[i8],
    keys: &[Option<&str>],
    slots: &[Option<i64>],
) -> Result<AnyArray, Fail> {
    let types = Buffer::new(Vec::from_slice(alloc, types)?)?;
    let children = children(alloc, keys, slots)?;
    sparse(
        types,
        DataType::Union(fields(alloc)?, None, UnionMode::Sparse),
        children,
    )
}

#[test]
fn sparse_unions_are_taken(rt: HostRuntime) -> Result<(), Fail> {
    let alloc = rt.alloc();
    let keys = [Some("a"), Some("-"), None];
    let array = sparse_union(alloc, &[0, 1, 0], &keys, &[Some(-1), Some(2), Some(-3)])?;
    let keys = [None, Some("?"), Some("a")];
    let expected = sparse_union(alloc, &[0, 1, 0], &keys, &[Some(-4), Some(2), Some(-5)])?;
    assert!(rt; takes(alloc, array, &[2, 1, 0], expected)?);
    Ok(())
}

fn dense(
    types: Buffer<i8>,
    places: Buffer<i32>,
    data_type: DataType,
    children: Vec<AnyArray>,
) -> Result<AnyArray, Fail> {
    Ok(AnyArray::from(UnionArray::try_new(data_type, types, children, Some(places))?))
}

// A dense union of texts (id 0) and numbers (id 1).
fn dense_union(
    alloc: Global,
    types: &[i8],
    places: &[i32],
    keys: &[Option<&str>],
    slots: &[Option<i64>],
) -> Result<AnyArray, Fail> {
    let types = Buffer::new(Vec::from_slice(alloc, types)?)?;
    let places = Buffer::new(Vec::from_slice(alloc, places)?)?;
    let children = children(alloc, keys, slots)?;
    let data_type = DataType::Union(fields(alloc)?, None, UnionMode::Dense);
    dense(types, places, data_type, children)
}

#[test]
fn dense_unions_are_joined(rt: HostRuntime) -> Result<(), Fail> {
    let alloc = rt.alloc();
    let keys = [Some("a"), Some("b")];
    let first = dense_union(alloc, &[0, 1, 0], &[0, 1, 1], &keys, &[Some(-1), Some(2)])?;
    let other = dense_union(alloc, &[1, 0], &[0, 0], &[None], &[Some(3)])?;
    let keys = [Some("a"), Some("b"), None];
    let places = [0, 0, 1, 1, 2];
    let expected = dense_union(alloc, &[0, 1, 0, 1, 0], &places, &keys, &[Some(2), Some(3)])?;
    assert!(rt; joins(alloc, first, other, expected)?);
    Ok(())
}
