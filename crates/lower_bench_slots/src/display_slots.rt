//! Texts, bytes, booleans and slots of nested types as texts.

use crate::displays::{int32, numbers, prints};
use lower::buffer::Buffer;
use lower::datatypes::{DataType, Field, IntegerType, UnionMode};
use lower::offset::OffsetsBuffer;
use lower_arrays::array::{
    AnyArray, DictionaryArray, DictionaryKeys, ListArray, ListOffsets, MapArray, StructArray,
    UnionArray,
};
use lower_builders::binary::MutableBinaryArray;
use lower_builders::boolean::MutableBooleanArray;
use lower_builders::primitive::MutablePrimitiveArray;
use lower_builders::utf8::MutableUtf8Array;
use std::alloc::{AllocError, Global};
use std::sync::Arc;
use std::test::Fail;

fn texts(alloc: Global, slots: &[Option<&str>]) -> Result<AnyArray, Fail> {
    let array = MutableUtf8Array::<i32>::from_options(alloc, slots)?;
    Ok(AnyArray::from(array.finish()?))
}

fn bytes(alloc: Global, slots: &[Option<&[u8]>]) -> Result<AnyArray, Fail> {
    let array = MutableBinaryArray::<i32>::from_options(alloc, slots)?;
    Ok(AnyArray::from(array.finish()?))
}

fn booleans(alloc: Global, slots: &[bool]) -> Result<AnyArray, Fail> {
    let array = MutableBooleanArray::from_slice(alloc, slots)?;
    Ok(AnyArray::from(array.finish()?))
}

#[test]
fn texts_are_bare(rt: HostRuntime) -> Result<(), Fail> {
    let alloc = rt.alloc();
    let array = texts(alloc, &[Some("a b"), Some(""), None])?;
    assert!(rt; prints(alloc, array, &["a b", "", "null"])?);
    Ok(())
}

#[test]
fn bytes_are_hexadecimal(rt: HostRuntime) -> Result<(), Fail> {
    let alloc = rt.alloc();
    let array = bytes(alloc, &[Some(b"\x00\xff\x1a"), Some(b"")])?;
    assert!(rt; prints(alloc, array, &["00ff1a", ""])?);
    Ok(())
}

#[test]
fn booleans_are_words(rt: HostRuntime) -> Result<(), Fail> {
    let alloc = rt.alloc();
    let array = booleans(alloc, &[true, false])?;
    assert!(rt; prints(alloc, array, &["true", "false"])?);
    Ok(())
}

fn field(alloc: Global, name: &str, data_type: DataType) -> Result<Field, AllocError> {
    Ok(Field::new(name.to_string(alloc)?, data_type, true))
}

fn list_type(alloc: Global) -> Result<DataType, AllocError> {
    let item = field(alloc, "item", DataType::Int32)?;
    Ok(DataType::List(Box::new(alloc, item)?))
}

fn offsets(alloc: Global, offsets: &[i32]) -> Result<OffsetsBuffer<i32>, Fail> {
    let offsets = Buffer::new(Vec::from_slice(alloc, offsets)?)?;
    Ok(OffsetsBuffer::try_new(offsets)?)
}

// The lists of 7 and null, of nothing, and of 9.
fn lists(alloc: Global) -> Result<AnyArray, Fail> {
    let offsets = ListOffsets::Small(offsets(alloc, &[0, 2, 2, 3])?);
    let child = Box::new(alloc, numbers(alloc)?)?;
    Ok(AnyArray::from(ListArray::try_new(list_type(alloc)?, offsets, child, None)?))
}

#[test]
fn lists_are_in_brackets(rt: HostRuntime) -> Result<(), Fail> {
    let alloc = rt.alloc();
    assert!(rt; prints(alloc, lists(alloc)?, &["[7, null]", "[]", "[9]"])?);
    Ok(())
}

fn key_type(alloc: Global) -> Result<DataType, AllocError> {
    let values = Box::new(alloc, DataType::Utf8)?;
    Ok(DataType::Dictionary(IntegerType::Int32, values, false))
}

// The keys 1, null and 0.
fn indices(alloc: Global) -> Result<DictionaryKeys, AllocError> {
    let keys = MutablePrimitiveArray::<i32>::from_options(alloc, &[Some(1), None, Some(0)])?;
    Ok(DictionaryKeys::Int32(keys.finish()?))
}

// The values `a` and `b`.
fn values(alloc: Global) -> Result<Arc<AnyArray>, Fail> {
    let values = texts(alloc, &[Some("a"), Some("b")])?;
    Ok(Arc::new(alloc, values)?)
}

fn dictionary(
    data_type: DataType,
    keys: DictionaryKeys,
    values: Arc<AnyArray>,
) -> Result<AnyArray, Fail> {
    Ok(AnyArray::from(DictionaryArray::try_new(data_type, keys, values)?))
}

// The slots `b`, null and `a` by keys.
fn keys(alloc: Global) -> Result<AnyArray, Fail> {
    let values = values(alloc)?;
    let keys = indices(alloc)?;
    dictionary(key_type(alloc)?, keys, values)
}

#[test]
fn keys_are_their_values(rt: HostRuntime) -> Result<(), Fail> {
    let alloc = rt.alloc();
    assert!(rt; prints(alloc, keys(alloc)?, &["b", "null", "a"])?);
    Ok(())
}

// A field of texts by keys, and one of dates.
fn fields(alloc: Global) -> Result<Vec<Field>, AllocError> {
    let key = field(alloc, "key", key_type(alloc)?)?;
    Ok(vec![in alloc; key, field(alloc, "day", DataType::Date32)?]?)
}

fn children(alloc: Global) -> Result<Vec<AnyArray>, Fail> {
    let keys = keys(alloc)?;
    Ok(vec![in alloc; keys, int32(alloc, DataType::Date32, &[0, 1, 2])?]?)
}

fn structs(alloc: Global) -> Result<AnyArray, Fail> {
    let data_type = DataType::Struct(fields(alloc)?);
    Ok(AnyArray::from(StructArray::try_new(data_type, children(alloc)?, None)?))
}

#[test]
fn structs_have_their_names(rt: HostRuntime) -> Result<(), Fail> {
    let alloc = rt.alloc();
    let texts = [
        "{key: b, day: 1970-01-01}",
        "{key: null, day: 1970-01-02}",
        "{key: a, day: 1970-01-03}",
    ];
    assert!(rt; prints(alloc, structs(alloc)?, &texts)?);
    Ok(())
}

// A sparse union of texts by keys with the type id 5, and of dates with the type id 3.
fn union(alloc: Global) -> Result<AnyArray, Fail> {
    let ids = vec![in alloc; 5, 3]?;
    let data_type = DataType::Union(fields(alloc)?, Some(ids), UnionMode::Sparse);
    let types = Buffer::new(Vec::from_slice(alloc, &[5i8, 3, 5])?)?;
    Ok(AnyArray::from(UnionArray::try_new(data_type, types, children(alloc)?, None)?))
}

#[test]
fn unions_print_the_child_that_is_named(rt: HostRuntime) -> Result<(), Fail> {
    let alloc = rt.alloc();
    assert!(rt; prints(alloc, union(alloc)?, &["b", "1970-01-02", "a"])?);
    Ok(())
}

fn map_type(alloc: Global) -> Result<DataType, AllocError> {
    let pair = field(alloc, "entries", DataType::Struct(fields(alloc)?))?;
    Ok(DataType::Map(Box::new(alloc, pair)?, false))
}

// The maps of one pair, and of two.
fn maps(alloc: Global) -> Result<AnyArray, Fail> {
    let pairs = Box::new(alloc, structs(alloc)?)?;
    let offsets = offsets(alloc, &[0, 1, 3])?;
    Ok(AnyArray::from(MapArray::try_new(map_type(alloc)?, offsets, pairs, None)?))
}

#[test]
fn maps_are_lists_of_pairs(rt: HostRuntime) -> Result<(), Fail> {
    let alloc = rt.alloc();
    let texts = [
        "[{key: b, day: 1970-01-01}]",
        "[{key: null, day: 1970-01-02}, {key: a, day: 1970-01-03}]",
    ];
    assert!(rt; prints(alloc, maps(alloc)?, &texts)?);
    Ok(())
}
