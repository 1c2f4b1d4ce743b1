//! The calls of numbers and their bytes.
//!
//! Each has an array of numbers, and a byte order `"order": "big"` or `"little"`.
//!
//! - `"bytes_of_numbers"` gives the name of the type, how many bytes each number has, and the
//!   bytes.
//! - `"numbers_of_bytes"` has `"bytes"` in place of the values, and gives the numbers.
//! - `"numbers_back_of"` writes the numbers after the bytes `"front"`, and reads them back followed
//!   by the bytes `"behind"`. It gives how many bytes precede `"behind"`, and whether the numbers
//!   are the same.

use crate::numbers::{NumberKind, array_of_list, number_kind, numbers};
use crate::slots::put_slots;
use cases_notation::bytes::bytes;
use cases_notation::decoder::Decoder;
use cases_notation::text::Text;
use cases_notation::types::{LEVELS, is_little_endian};
use lower::types::{
    Endianness, NativeType, PrimitiveType, append_bytes, days_ms, i256, months_days_ns,
    numbers_from_bytes,
};
use lower_arrays::array::{AnyArray, AnyPrimitive, PrimitiveArray};
use lower_arrays::equal;
use serde_json::Value;

/// The name of the type of some numbers, how many bytes each has, and the bytes.
pub fn bytes_of_numbers(d: &mut Decoder, out: &mut Text, value: &Value) {
    if let Some(numbers) = numbers(d, value) {
        let mut bytes = d.list();
        let order = order_of(d, value);
        if let Some((name, width)) = put_bytes(d, &mut bytes, &numbers, order) {
            out.put("{\"type\":");
            out.name(&name);
            out.put(",\"width\":");
            out.show(&width);
            out.put(",\"bytes\":");
            out.hex(&bytes);
            out.put("}");
        }
    }
}

/// The numbers that some bytes are.
pub fn numbers_of_bytes(d: &mut Decoder, out: &mut Text, value: &Value) {
    let listed = d.member(value, "bytes");
    let bytes = bytes(d, listed);
    if let Some(numbers) = read(d, value, &bytes) {
        put_slots(out, &numbers, LEVELS);
    }
}

/// How many bytes numbers and those before them have, and whether the numbers are the same when
/// they are read back.
pub fn numbers_back_of(d: &mut Decoder, out: &mut Text, value: &Value) {
    if let Some(numbers) = numbers(d, value) {
        let mut all = bytes_in(d, value, "front");
        let front = all.len();
        let order = order_of(d, value);
        let _ = put_bytes(d, &mut all, &numbers, order);
        let count = all.len();
        let following = bytes_in(d, value, "behind");
        d.extend(&mut all, &following);
        if let Some(again) = read_from(d, value, &all, front) {
            put_both(out, count, equal(&numbers, &again));
        }
    }
}

// The bytes that are the member of this name.
fn bytes_in(d: &mut Decoder, value: &Value, name: &'static str) -> Vec<u8> {
    let bytes_of_case = d.member(value, name);
    bytes(d, bytes_of_case)
}

// The numbers that the bytes from an offset on are.
fn read_from(d: &mut Decoder, value: &Value, bytes: &[u8], offset: usize) -> Option<AnyArray> {
    let rest = bytes.get(offset..);
    let rest = d.need(rest, "front")?;
    read(d, value, rest)
}

fn put_both(out: &mut Text, count: usize, are_same: bool) {
    out.put("{\"bytes\":");
    out.show(&count);
    out.put(",\"are_same\":");
    out.show(&are_same);
    out.put("}");
}

fn order_of(d: &mut Decoder, value: &Value) -> Endianness {
    if is_little_endian(d, value) {
        return Endianness::Little;
    }
    Endianness::Big
}

// Appends the bytes of numbers, and returns the name of their type and how many bytes each has.
fn put_bytes(
    d: &mut Decoder,
    bytes: &mut Vec<u8>,
    array: &AnyArray,
    order: Endianness,
) -> Option<(PrimitiveType, usize)> {
    match array {
        AnyArray::Primitive(numbers) => Some(put_numbers(d, bytes, numbers, order)),
        _ => {
            d.miss("array");
            None
        }
    }
}

fn put_numbers(
    d: &mut Decoder,
    bytes: &mut Vec<u8>,
    numbers: &AnyPrimitive,
    order: Endianness,
) -> (PrimitiveType, usize) {
    match numbers {
        AnyPrimitive::Int8(numbers) => put_each(d, bytes, numbers, order),
        AnyPrimitive::Int16(numbers) => put_each(d, bytes, numbers, order),
        AnyPrimitive::Int32(numbers) => put_each(d, bytes, numbers, order),
        AnyPrimitive::Int64(numbers) => put_each(d, bytes, numbers, order),
        AnyPrimitive::UInt8(numbers) => put_each(d, bytes, numbers, order),
        AnyPrimitive::UInt16(numbers) => put_each(d, bytes, numbers, order),
        AnyPrimitive::UInt32(numbers) => put_each(d, bytes, numbers, order),
        AnyPrimitive::UInt64(numbers) => put_each(d, bytes, numbers, order),
        AnyPrimitive::Int128(numbers) => put_each(d, bytes, numbers, order),
        AnyPrimitive::Int256(numbers) => put_each(d, bytes, numbers, order),
        AnyPrimitive::DaysMs(numbers) => put_each(d, bytes, numbers, order),
        AnyPrimitive::MonthDayNano(numbers) => put_each(d, bytes, numbers, order),
    }
}

fn put_each<T: NativeType>(
    d: &mut Decoder,
    bytes: &mut Vec<u8>,
    numbers: &PrimitiveArray<T>,
    order: Endianness,
) -> (PrimitiveType, usize) {
    let appended = append_bytes(bytes, numbers.values().as_slice(), order);
    let _ = d.take(appended);
    (T::primitive_type(), T::width())
}

// The numbers of a case's type that these bytes are.
fn read(d: &mut Decoder, value: &Value, bytes: &[u8]) -> Option<AnyArray> {
    match number_kind(d, value) {
        NumberKind::Int8 => read_each::<i8>(d, value, bytes),
        NumberKind::Int16 => read_each::<i16>(d, value, bytes),
        NumberKind::Int32 => read_each::<i32>(d, value, bytes),
        NumberKind::Int64 => read_each::<i64>(d, value, bytes),
        NumberKind::UInt8 => read_each::<u8>(d, value, bytes),
        NumberKind::UInt16 => read_each::<u16>(d, value, bytes),
        NumberKind::UInt32 => read_each::<u32>(d, value, bytes),
        NumberKind::UInt64 => read_each::<u64>(d, value, bytes),
        NumberKind::Int128 => read_each::<i128>(d, value, bytes),
        NumberKind::Int256 => read_each::<i256>(d, value, bytes),
        NumberKind::DaysMs => read_each::<days_ms>(d, value, bytes),
        NumberKind::MonthDayNano => read_each::<months_days_ns>(d, value, bytes),
    }
}

fn read_each<T: NativeType>(d: &mut Decoder, value: &Value, bytes: &[u8]) -> Option<AnyArray>
where
    AnyArray: From<PrimitiveArray<T>>,
{
    let order = order_of(d, value);
    let numbers = numbers_from_bytes::<T>(d.alloc(), bytes, order);
    let numbers = d.take(numbers)?;
    array_of_list(d, value, numbers)
}
