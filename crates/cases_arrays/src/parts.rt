//! The parts of arrays as they are stored, as text.
//!
//! `{"len": 2, "nulls": 1, "validity": "01", ..}`, and the parts of the kind. Values at null slots
//! and outside of a slice are included.
//!
//! - An array without children has `"type"`, the `Debug` text of its type, and `"values"`. These
//!   are bits, numbers, or bytes as hex digits, with `"offsets"` or the `"size"` of each.
//! - A list has `"offsets"` or a `"size"`, and `"child"`, the parts of its child.
//! - A struct has `"children"`.
//! - A union has `"types"`, `"offsets"`, `"children"`, and the `"places"` of its slots: each the
//!   index of a child and an index in it.
//! - A dictionary has `"ordered"`, `"keys"` and `"values"`.
ghost use Rattle.std.specs.Prelude.{◌<◌};

use crate::slots::put_slots;
use cases_notation::text::Text;
use lower::bitmap::Bitmap;
use lower::buffer::Buffer;
use lower::offset::{Offset, OffsetsBuffer};
use lower::types::NativeType;
use lower_arrays::array::{
    AnyArray, AnyPrimitive, DictionaryArray, DictionaryKeys, ListOffsets, PrimitiveArray,
    UnionArray,
};
use std::fmt::Display;

/// Appends the parts of an array, with at most so many levels.
#[cycle(parts)]
pub fn put_parts(out: &mut Text, array: &AnyArray, levels: usize) {
    if levels == 0 {
        out.miss("levels");
        return;
    }
    out.put("{");
    put_counts(out, array);
    match array {
        AnyArray::List(lists) | AnyArray::LargeList(lists) => {
            put_list_offsets(out, lists.offsets());
            put_child(out, ",\"child\":", lists.values(), levels - 1);
        }
        AnyArray::FixedSizeList(lists) => {
            put_size(out, lists.size());
            put_child(out, ",\"child\":", lists.values(), levels - 1);
        }
        AnyArray::Map(maps) => {
            put_offsets(out, maps.offsets());
            put_child(out, ",\"child\":", maps.field(), levels - 1);
        }
        AnyArray::Struct(records) => put_children(out, records.values(), levels - 1),
        AnyArray::Union(union) => {
            put_indices(out, union);
            put_children(out, union.fields(), levels - 1);
        }
        AnyArray::Dictionary(keys) => {
            put_keys(out, keys);
            put_child(out, ",\"values\":", keys.values(), levels - 1);
        }
        _ => put_flat(out, array),
    }
    out.put("}");
}

#[cycle(parts)]
fn put_child(out: &mut Text, name: &str, child: &AnyArray, levels: usize) {
    out.put(name);
    put_parts(out, child, levels);
}

#[cycle(parts)]
fn put_children(out: &mut Text, children: &[AnyArray], levels: usize) {
    out.put(",\"children\":[");
    for child in children {
        out.comma();
        put_parts(out, child, levels);
    }
    out.put("]");
}

// The length, the count of nulls, and the validity where there is one.
fn put_counts(out: &mut Text, array: &AnyArray) {
    out.put("\"len\":");
    out.show(&array.len());
    out.put(",\"nulls\":");
    out.show(&array.null_count());
    if let Some(bits) = array.validity() {
        out.put(",\"validity\":");
        put_bits(out, bits);
    }
}

// The type and the parts of an array without children.
fn put_flat(out: &mut Text, array: &AnyArray) {
    out.put(",\"type\":");
    out.shown(array.data_type());
    match array {
        AnyArray::Boolean(bits) => {
            out.put(",\"values\":");
            put_bits(out, bits.values());
        }
        AnyArray::Primitive(numbers) => put_numbers(out, numbers),
        AnyArray::FixedSizeBinary(bytes) => {
            put_size(out, bytes.size());
            put_bytes(out, bytes.values());
        }
        AnyArray::Binary(bytes) => put_spans(out, bytes.offsets(), bytes.values()),
        AnyArray::LargeBinary(bytes) => put_spans(out, bytes.offsets(), bytes.values()),
        AnyArray::Utf8(texts) => put_spans(out, texts.offsets(), texts.values()),
        AnyArray::LargeUtf8(texts) => put_spans(out, texts.offsets(), texts.values()),
        _ => {}
    }
}

fn put_size(out: &mut Text, size: usize) {
    out.put(",\"size\":");
    out.show(&size);
}

fn put_bytes(out: &mut Text, bytes: &Buffer<u8>) {
    out.put(",\"values\":");
    out.hex(bytes.as_slice());
}

fn put_spans<O: Offset>(out: &mut Text, offsets: &OffsetsBuffer<O>, values: &Buffer<u8>) {
    put_offsets(out, offsets);
    put_bytes(out, values);
}

fn put_list_offsets(out: &mut Text, offsets: &ListOffsets) {
    match offsets {
        ListOffsets::Small(offsets) => put_offsets(out, offsets),
        ListOffsets::Large(offsets) => put_offsets(out, offsets),
    }
}

fn put_offsets<O: Offset>(out: &mut Text, offsets: &OffsetsBuffer<O>) {
    out.put(",\"offsets\":[");
    put_each_offset(out, offsets);
    out.put("]");
}

/// Appends offsets, with commas between them.
pub fn put_each_offset<O: Offset>(out: &mut Text, offsets: &OffsetsBuffer<O>) {
    for index in 0..offsets.len() {
        out.comma();
        out.show(&offsets.get(index));
    }
}

/// Appends bits in quotes, the first slot's bit first.
pub fn put_bits(out: &mut Text, bits: &Bitmap) {
    out.put("\"");
    for index in 0..bits.len() {
        out.put(if bits.get_bit(index) { "1" } else { "0" });
    }
    out.put("\"");
}

// The type ids and the offsets of a union, and for each slot the index of its child and the index
// in that.
fn put_indices(out: &mut Text, union: &UnionArray) {
    out.put(",\"types\":[");
    put_each(out, union.types().as_slice());
    if let Some(offsets) = union.offsets() {
        out.put("],\"offsets\":[");
        put_each(out, offsets.as_slice());
    }
    out.put("],\"places\":[");
    for index in 0..union.len() {
        let (child, slot) = union.index(index);
        out.comma();
        out.pair(&child, &slot);
    }
    out.put("]");
}

fn put_each<T: Display>(out: &mut Text, numbers: &[T]) {
    for number in numbers {
        out.comma();
        out.show(number);
    }
}

// Whether a dictionary is ordered, and the parts of its keys.
fn put_keys(out: &mut Text, array: &DictionaryArray) {
    out.put(",\"ordered\":");
    out.show(&array.is_ordered());
    out.put(",\"keys\":{");
    match array.keys() {
        DictionaryKeys::Int8(keys) => put_as_array(out, keys),
        DictionaryKeys::Int16(keys) => put_as_array(out, keys),
        DictionaryKeys::Int32(keys) => put_as_array(out, keys),
        DictionaryKeys::Int64(keys) => put_as_array(out, keys),
        DictionaryKeys::UInt8(keys) => put_as_array(out, keys),
        DictionaryKeys::UInt16(keys) => put_as_array(out, keys),
        DictionaryKeys::UInt32(keys) => put_as_array(out, keys),
        DictionaryKeys::UInt64(keys) => put_as_array(out, keys),
    }
    out.put("}");
}

fn put_as_array<T: NativeType>(out: &mut Text, keys: &PrimitiveArray<T>)
where
    AnyArray: From<PrimitiveArray<T>>,
{
    match keys.clone() {
        Ok(keys) => {
            let keys = AnyArray::from(keys);
            put_counts(out, &keys);
            put_flat(out, &keys);
        }
        Err(_) => out.miss("keys"),
    }
}

// All numbers of an array, those at null slots too.
fn put_numbers(out: &mut Text, numbers: &AnyPrimitive) {
    out.put(",\"values\":");
    match numbers {
        AnyPrimitive::Int8(numbers) => put_all(out, numbers),
        AnyPrimitive::Int16(numbers) => put_all(out, numbers),
        AnyPrimitive::Int32(numbers) => put_all(out, numbers),
        AnyPrimitive::Int64(numbers) => put_all(out, numbers),
        AnyPrimitive::UInt8(numbers) => put_all(out, numbers),
        AnyPrimitive::UInt16(numbers) => put_all(out, numbers),
        AnyPrimitive::UInt32(numbers) => put_all(out, numbers),
        AnyPrimitive::UInt64(numbers) => put_all(out, numbers),
        AnyPrimitive::Int128(numbers) => put_all(out, numbers),
        AnyPrimitive::Int256(numbers) => put_all(out, numbers),
        AnyPrimitive::DaysMs(numbers) => put_all(out, numbers),
        AnyPrimitive::MonthDayNano(numbers) => put_all(out, numbers),
    }
}

fn put_all<T: NativeType>(out: &mut Text, numbers: &PrimitiveArray<T>)
where
    AnyArray: From<PrimitiveArray<T>>,
{
    match each_valid(numbers) {
        Some(numbers) => put_slots(out, &AnyArray::from(numbers), 1),
        None => out.miss("values"),
    }
}

// The same numbers without a validity.
fn each_valid<T: NativeType>(numbers: &PrimitiveArray<T>) -> Option<PrimitiveArray<T>> {
    let data_type = numbers.data_type().clone().ok()?;
    let values = numbers.values().clone().ok()?;
    PrimitiveArray::try_new(data_type, values, None).ok()
}
