//! Arrays, which the public constructors make of their parts.
//!
//! An array is `{"array": KIND, ..}` with its parts by name: `"type"`, which may be left out where
//! the kind is the name of a type; `"validity"`, bits, which may be left out; and the parts of its
//! kind. `"slice": [OFFSET, LEN]` then slices it, and `"slice_again"` slices the result.
//!
//! - `"null"`: `"len"`
//! - `"boolean"`: `"values"`, bits
//! - `"int8"` to `"uint64"`, `"int128"`, `"int256"`, `"days_ms"`, `"months_days_ns"`: `"values"`,
//!   numbers, or for each number a list of its parts
//! - `"fixed_size_binary"`: `"values"`, bytes
//! - `"binary"`, `"large_binary"`, `"utf8"`, `"large_utf8"`: `"offsets"`, `"values"`, bytes
//! - `"list"`, `"large_list"`, `"map"`: `"offsets"`, `"child"`, an array
//! - `"fixed_size_list"`: `"child"`
//! - `"struct"`: `"children"`, arrays
//! - `"union"`: `"types"`, `"children"`, and `"offsets"`, which may be left out
//! - `"dictionary"`: `"keys"`, an array of integers, `"values"`, an array
//!
//! Decoding an array that can't be made gives none: the decoder has remembered the failure.
ghost use Rattle.std.specs.Prelude.{◌+◌, ◌≤◌, IfSome};

use crate::numbers::{Head, head_of, keys, numbers, pair, type_of, whole_numbers};
use cases_notation::bytes::{bits, bytes};
use cases_notation::decoder::{Decoder, named};
use lower::buffer::Buffer;
use lower::offset::{Offset, OffsetsBuffer};
use lower_arrays::array::{
    AnyArray, BinaryArray, BooleanArray, DictionaryArray, FixedSizeBinaryArray, FixedSizeListArray,
    ListArray, ListOffsets, MapArray, NullArray, StructArray, UnionArray, Utf8Array,
};
use serde_json::Value;
use std::sync::Arc;

/// An array of a case, with at most so many levels.
#[cycle(arrays)]
pub fn array(d: &mut Decoder, value: &Value, levels: usize) -> Option<AnyArray> {
    let whole = whole_array(d, value, levels)?;
    let part = sliced(d, whole, value, "slice");
    Some(sliced(d, part, value, "slice_again"))
}

// The slots that the part of this name selects, which may be left out.
fn sliced(d: &mut Decoder, array: AnyArray, value: &Value, name: &'static str) -> AnyArray {
    match cut_of(d, value, name, array.len()) {
        None => array,
        Some((offset, len)) => array.sliced(offset, len),
    }
}

/// The offset and the length that the part of this name selects out of so many slots. It may be
/// left out.
pub fn cut_of(
    d: &mut Decoder,
    value: &Value,
    name: &'static str,
    slots: usize,
) -> Option<(usize, usize)>
    ensures within { IfSome result (λ cut. cut.0 + cut.1 ≤ slots) }
{
    let part = value.get(name)?;
    let (offset, len) = two_counts(d, part, name);
    if offset > slots || len > slots - offset {
        d.miss(name);
        return None;
    }
    Some((offset, len))
}

fn two_counts(d: &mut Decoder, value: &Value, name: &'static str) -> (usize, usize) {
    let (first, second) = pair(d, value, name);
    let first = d.count(Some(first), name);
    (first, d.count(Some(second), name))
}

// The kinds of arrays that have children.
#[derive(Clone, Copy)]
enum Nested {
    OfChild(ListKind),
    Struct,
    Union,
    Dictionary,
}

#[derive(Clone, Copy)]
enum ListKind {
    List(Width),
    FixedSize,
    Map,
}

// Whether offsets have 32 or 64 bits.
#[derive(Clone, Copy)]
enum Width {
    Small,
    Large,
}

const NESTED_KINDS: [(&str, Nested); 7] = [
    ("list", Nested::OfChild(ListKind::List(Width::Small))),
    ("large_list", Nested::OfChild(ListKind::List(Width::Large))),
    ("fixed_size_list", Nested::OfChild(ListKind::FixedSize)),
    ("map", Nested::OfChild(ListKind::Map)),
    ("struct", Nested::Struct),
    ("union", Nested::Union),
    ("dictionary", Nested::Dictionary),
];

// The other kinds, except numbers.
#[derive(Clone, Copy)]
enum Flat {
    Null,
    Boolean,
    FixedSizeBinary,
    Binary,
    LargeBinary,
    Utf8,
    LargeUtf8,
}

const FLAT_KINDS: [(&str, Flat); 7] = [
    ("null", Flat::Null),
    ("boolean", Flat::Boolean),
    ("fixed_size_binary", Flat::FixedSizeBinary),
    ("binary", Flat::Binary),
    ("large_binary", Flat::LargeBinary),
    ("utf8", Flat::Utf8),
    ("large_utf8", Flat::LargeUtf8),
];

#[cycle(arrays)]
fn whole_array(d: &mut Decoder, value: &Value, levels: usize) -> Option<AnyArray> {
    if levels == 0 {
        d.miss("array");
        return None;
    }
    let kind = d.text(value.get("array"), "array");
    match named(&NESTED_KINDS, kind) {
        None => flat_array(d, value, kind),
        Some(Nested::OfChild(kind)) => {
            let child = child(d, value, "child", levels - 1);
            array_of_child(d, value, kind, child)
        }
        Some(Nested::Struct) => {
            let children = children(d, value, levels - 1);
            struct_array(d, value, children)
        }
        Some(Nested::Union) => {
            let children = children(d, value, levels - 1);
            union_array(d, value, children)
        }
        Some(Nested::Dictionary) => {
            let values = child(d, value, "values", levels - 1);
            dictionary(d, value, values)
        }
    }
}

// The array that is the part of this name.
#[cycle(arrays)]
fn child(d: &mut Decoder, value: &Value, name: &'static str, levels: usize) -> Option<AnyArray> {
    let child = d.member(value, name);
    array(d, child, levels)
}

#[cycle(arrays)]
fn children(d: &mut Decoder, value: &Value, levels: usize) -> Vec<AnyArray> {
    let children = d.member(value, "children");
    arrays(d, children, levels)
}

/// The arrays of a case, with at most so many levels. One that can't be made is left out: the
/// decoder has remembered the failure.
#[cycle(arrays)]
pub fn arrays(d: &mut Decoder, value: &Value, levels: usize) -> Vec<AnyArray> {
    let mut out = d.list();
    for item in d.items(Some(value), "arrays") {
        if let Some(array) = array(d, item, levels) {
            d.push(&mut out, array);
        }
    }
    out
}

// An array without children.
fn flat_array(d: &mut Decoder, value: &Value, kind: &str) -> Option<AnyArray> {
    match named(&FLAT_KINDS, kind) {
        None => numbers(d, value),
        Some(Flat::Null) => null(d, value),
        Some(Flat::Boolean) => boolean(d, value),
        Some(Flat::FixedSizeBinary) => fixed_size_binary(d, value),
        Some(Flat::Binary) => binary::<i32>(d, value),
        Some(Flat::LargeBinary) => binary::<i64>(d, value),
        Some(Flat::Utf8) => utf8::<i32>(d, value),
        Some(Flat::LargeUtf8) => utf8::<i64>(d, value),
    }
}

fn null(d: &mut Decoder, value: &Value) -> Option<AnyArray> {
    let len = d.count(value.get("len"), "len");
    let array = NullArray::try_new(type_of(d, value), len);
    Some(AnyArray::Null(d.take(array)?))
}

fn boolean(d: &mut Decoder, value: &Value) -> Option<AnyArray> {
    let values = d.member(value, "values");
    let values = bits(d, values)?;
    let Head {
        data_type,
        validity,
    } = head_of(d, value);
    let array = BooleanArray::try_new(data_type, values, validity);
    Some(AnyArray::Boolean(d.take(array)?))
}

fn byte_values(d: &mut Decoder, value: &Value) -> Option<Buffer<u8>> {
    let values = d.member(value, "values");
    let values = Buffer::new(bytes(d, values));
    d.take(values)
}

fn fixed_size_binary(d: &mut Decoder, value: &Value) -> Option<AnyArray> {
    let values = byte_values(d, value)?;
    let Head {
        data_type,
        validity,
    } = head_of(d, value);
    let array = FixedSizeBinaryArray::try_new(data_type, values, validity);
    Some(AnyArray::FixedSizeBinary(d.take(array)?))
}

/// The offsets of an array.
pub fn offsets<O: Offset + TryFrom<i128>>(
    d: &mut Decoder,
    value: &Value,
) -> Option<OffsetsBuffer<O>>
where
    O::Error: Drop,
{
    let numbers = d.member(value, "offsets");
    let numbers = whole_numbers(d, numbers, "offsets")?;
    let offsets = OffsetsBuffer::try_new(numbers);
    d.take(offsets)
}

fn binary<O: Offset + TryFrom<i128>>(d: &mut Decoder, value: &Value) -> Option<AnyArray>
where
    O::Error: Drop,
    AnyArray: From<BinaryArray<O>>,
{
    let offsets = offsets::<O>(d, value)?;
    let values = byte_values(d, value)?;
    let Head {
        data_type,
        validity,
    } = head_of(d, value);
    let array = BinaryArray::try_new(data_type, offsets, values, validity);
    Some(AnyArray::from(d.take(array)?))
}

fn utf8<O: Offset + TryFrom<i128>>(d: &mut Decoder, value: &Value) -> Option<AnyArray>
where
    O::Error: Drop,
    AnyArray: From<Utf8Array<O>>,
{
    let offsets = offsets::<O>(d, value)?;
    let values = byte_values(d, value)?;
    let Head {
        data_type,
        validity,
    } = head_of(d, value);
    let array = Utf8Array::try_new(data_type, offsets, values, validity);
    Some(AnyArray::from(d.take(array)?))
}

// An array of lists.
fn array_of_child(
    d: &mut Decoder,
    value: &Value,
    kind: ListKind,
    child: Option<AnyArray>,
) -> Option<AnyArray> {
    let child = d.boxed(child?)?;
    match kind {
        ListKind::List(width) => list(d, value, width, child),
        ListKind::Map => map(d, value, child),
        ListKind::FixedSize => fixed_size_list(d, value, child),
    }
}

fn list(d: &mut Decoder, value: &Value, width: Width, child: Box<AnyArray>) -> Option<AnyArray> {
    let offsets = list_offsets(d, value, width)?;
    let Head {
        data_type,
        validity,
    } = head_of(d, value);
    let array = ListArray::try_new(data_type, offsets, child, validity);
    Some(d.take(array)?.boxed())
}

fn list_offsets(d: &mut Decoder, value: &Value, width: Width) -> Option<ListOffsets> {
    match width {
        Width::Small => Some(ListOffsets::Small(offsets(d, value)?)),
        Width::Large => Some(ListOffsets::Large(offsets(d, value)?)),
    }
}

fn fixed_size_list(d: &mut Decoder, value: &Value, child: Box<AnyArray>) -> Option<AnyArray> {
    let Head {
        data_type,
        validity,
    } = head_of(d, value);
    let array = FixedSizeListArray::try_new(data_type, child, validity);
    Some(AnyArray::FixedSizeList(d.take(array)?))
}

fn map(d: &mut Decoder, value: &Value, entries: Box<AnyArray>) -> Option<AnyArray> {
    let offsets = offsets(d, value)?;
    let Head {
        data_type,
        validity,
    } = head_of(d, value);
    let array = MapArray::try_new(data_type, offsets, entries, validity);
    Some(AnyArray::Map(d.take(array)?))
}

fn struct_array(d: &mut Decoder, value: &Value, children: Vec<AnyArray>) -> Option<AnyArray> {
    let Head {
        data_type,
        validity,
    } = head_of(d, value);
    let array = StructArray::try_new(data_type, children, validity);
    Some(AnyArray::Struct(d.take(array)?))
}

fn union_array(d: &mut Decoder, value: &Value, children: Vec<AnyArray>) -> Option<AnyArray> {
    let types = d.member(value, "types");
    let types = whole_numbers(d, types, "types")?;
    let offsets = union_offsets(d, value);
    let data_type = type_of(d, value);
    let array = UnionArray::try_new(data_type, types, children, offsets);
    Some(AnyArray::Union(d.take(array)?))
}

fn union_offsets(d: &mut Decoder, value: &Value) -> Option<Buffer<i32>> {
    match value.get("offsets") {
        Some(offsets) => whole_numbers(d, offsets, "offsets"),
        None => None,
    }
}

fn dictionary(d: &mut Decoder, value: &Value, values: Option<AnyArray>) -> Option<AnyArray> {
    let values = shared(d, values?)?;
    let listed = d.member(value, "keys");
    let keys = keys(d, listed)?;
    let data_type = type_of(d, value);
    let array = DictionaryArray::try_new(data_type, keys, values);
    Some(AnyArray::Dictionary(d.take(array)?))
}

fn shared(d: &mut Decoder, array: AnyArray) -> Option<Arc<AnyArray>> {
    let array = Arc::new(d.alloc(), array);
    d.take(array)
}
