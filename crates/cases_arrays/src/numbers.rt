//! Arrays of numbers. Whole numbers are a list, or `{"from": 0, "step": 3, "count": 1000}`.

use cases_notation::bytes::bits;
use cases_notation::decoder::Decoder;
use cases_notation::types::{LEVELS, data_type, plain_type};
use lower::bitmap::Bitmap;
use lower::buffer::Buffer;
use lower::datatypes::DataType;
use lower::types::{NativeType, days_ms, i256, months_days_ns};
use lower_arrays::array::{AnyArray, AnyPrimitive, DictionaryKeys, PrimitiveArray};
use serde_json::Value;

/// The whole numbers that are the part of this name.
pub fn whole_numbers<T: Copy + Drop + TryFrom<i128>>(
    d: &mut Decoder,
    value: &Value,
    name: &'static str,
) -> Option<Buffer<T>>
where
    T::Error: Drop,
{
    let mut out = d.list();
    if value.is_object() {
        put_steps(d, &mut out, value, name);
    } else {
        put_each(d, &mut out, value, name);
    }
    let numbers = Buffer::new(out);
    d.take(numbers)
}

fn put_each<T: Copy + Drop + TryFrom<i128>>(
    d: &mut Decoder,
    out: &mut Vec<T>,
    value: &Value,
    name: &'static str,
)
where
    T::Error: Drop,
{
    for item in d.items(Some(value), name) {
        let number = d.whole(Some(item), name);
        put_whole(d, out, number, name);
    }
}

// Numbers at equal distances.
fn put_steps<T: Copy + Drop + TryFrom<i128>>(
    d: &mut Decoder,
    out: &mut Vec<T>,
    value: &Value,
    name: &'static str,
)
where
    T::Error: Drop,
{
    let mut number = d.whole(value.get("from"), "from");
    let step = d.whole(value.get("step"), "step");
    for _ in 0..d.count(value.get("count"), "count") {
        put_whole(d, out, number, name);
        number = number.saturating_add(step);
    }
}

fn put_whole<T: Copy + Drop + TryFrom<i128>>(
    d: &mut Decoder,
    out: &mut Vec<T>,
    number: i128,
    name: &'static str,
)
where
    T::Error: Drop,
{
    let Ok(number) = T::try_from(number) else {
        return d.miss(name);
    };
    d.push(out, number);
}

/// The type of an array: its member `type`, or else the type that its kind names.
pub fn type_of(d: &mut Decoder, array: &Value) -> DataType {
    match array.get("type") {
        Some(value) => data_type(d, value, LEVELS),
        None => plain_type(d, array.get("array")),
    }
}

/// What most arrays have: a type and a validity.
#[derive(Drop)]
pub struct Head {
    pub data_type: DataType,
    pub validity: Option<Bitmap>,
}

/// The type and the validity of an array.
pub fn head_of(d: &mut Decoder, array: &Value) -> Head {
    let validity = validity_of(d, array);
    Head {
        data_type: type_of(d, array),
        validity,
    }
}

fn validity_of(d: &mut Decoder, array: &Value) -> Option<Bitmap> {
    match array.get("validity") {
        Some(value) => bits(d, value),
        None => None,
    }
}

/// The types of the numbers of an array.
#[derive(Clone, Copy)]
pub enum NumberKind {
    Int8,
    Int16,
    Int32,
    Int64,
    UInt8,
    UInt16,
    UInt32,
    UInt64,
    Int128,
    Int256,
    DaysMs,
    MonthDayNano,
}

const NUMBER_KINDS: [(&str, NumberKind); 12] = [
    ("int8", NumberKind::Int8),
    ("int16", NumberKind::Int16),
    ("int32", NumberKind::Int32),
    ("int64", NumberKind::Int64),
    ("uint8", NumberKind::UInt8),
    ("uint16", NumberKind::UInt16),
    ("uint32", NumberKind::UInt32),
    ("uint64", NumberKind::UInt64),
    ("int128", NumberKind::Int128),
    ("int256", NumberKind::Int256),
    ("days_ms", NumberKind::DaysMs),
    ("months_days_ns", NumberKind::MonthDayNano),
];

/// The type of the numbers of an array.
pub fn number_kind(d: &mut Decoder, array: &Value) -> NumberKind {
    d.choice(array.get("array"), &NUMBER_KINDS, "array", NumberKind::Int8)
}

/// An array of numbers.
pub fn numbers(d: &mut Decoder, array: &Value) -> Option<AnyArray> {
    match number_kind(d, array) {
        NumberKind::Int8 => integers::<i8>(d, array),
        NumberKind::Int16 => integers::<i16>(d, array),
        NumberKind::Int32 => integers::<i32>(d, array),
        NumberKind::Int64 => integers::<i64>(d, array),
        NumberKind::UInt8 => integers::<u8>(d, array),
        NumberKind::UInt16 => integers::<u16>(d, array),
        NumberKind::UInt32 => integers::<u32>(d, array),
        NumberKind::UInt64 => integers::<u64>(d, array),
        NumberKind::Int128 => integers::<i128>(d, array),
        NumberKind::Int256 => compound_array::<i256>(d, array),
        NumberKind::DaysMs => compound_array::<days_ms>(d, array),
        NumberKind::MonthDayNano => compound_array::<months_days_ns>(d, array),
    }
}

fn integers<T: NativeType + TryFrom<i128>>(d: &mut Decoder, array: &Value) -> Option<AnyArray>
where
    T::Error: Drop,
    AnyArray: From<PrimitiveArray<T>>,
{
    let values = d.member(array, "values");
    let values = whole_numbers::<T>(d, values, "values")?;
    array_of(d, array, values)
}

// An array of numbers that have several parts.
fn compound_array<T: Compound>(d: &mut Decoder, array: &Value) -> Option<AnyArray>
where
    AnyArray: From<PrimitiveArray<T>>,
{
    let values = compound_values::<T>(d, array);
    array_of_list(d, array, values)
}

fn compound_values<T: Compound>(d: &mut Decoder, array: &Value) -> Vec<T> {
    let mut out = d.list();
    let values = d.member(array, "values");
    for item in d.items(Some(values), "values") {
        let number = T::of_item(d, item);
        d.push(&mut out, number);
    }
    out
}

/// The array of these numbers, with the type and the validity of a case.
pub fn array_of_list<T: NativeType>(
    d: &mut Decoder,
    array: &Value,
    values: Vec<T>,
) -> Option<AnyArray>
where
    AnyArray: From<PrimitiveArray<T>>,
{
    let values = Buffer::new(values);
    let values = d.take(values)?;
    array_of(d, array, values)
}

fn array_of<T: NativeType>(d: &mut Decoder, array: &Value, values: Buffer<T>) -> Option<AnyArray>
where
    AnyArray: From<PrimitiveArray<T>>,
{
    let Head {
        data_type,
        validity,
    } = head_of(d, array);
    let numbers = PrimitiveArray::try_new(data_type, values, validity);
    Some(AnyArray::from(d.take(numbers)?))
}

/// The items of a list of two, which is the part of this name.
pub fn pair<'v>(d: &mut Decoder, value: &'v Value, name: &'static str) -> (&'v Value, &'v Value) {
    match d.items(Some(value), name) {
        [first, second] => (first, second),
        _ => {
            d.miss(name);
            (value, value)
        }
    }
}

// A number that has several parts.
trait Compound: NativeType {
    // The number that an item of a case's values is.
    fn of_item(d: &mut Decoder, item: &Value) -> Self;
}

// The high and the low half, as texts of digits.
impl Compound for i256 {
    fn of_item(d: &mut Decoder, item: &Value) -> i256 {
        let (high, low) = pair(d, item, "values");
        let high = d.whole(Some(high), "values");
        i256 {
            high,
            low: low_half(d, low),
        }
    }
}

fn low_half(d: &mut Decoder, value: &Value) -> u128 {
    match d.text(Some(value), "values").parse() {
        Ok(low) => low,
        Err(_) => {
            d.miss("values");
            0
        }
    }
}

// The days and the milliseconds.
impl Compound for days_ms {
    fn of_item(d: &mut Decoder, item: &Value) -> days_ms {
        let (days, milliseconds) = pair(d, item, "values");
        days_ms {
            days: d.number(Some(days), "values"),
            milliseconds: d.number(Some(milliseconds), "values"),
        }
    }
}

// The months, the days and the nanoseconds.
impl Compound for months_days_ns {
    fn of_item(d: &mut Decoder, item: &Value) -> months_days_ns {
        let (months, days, nanoseconds) = triple(d, item);
        months_days_ns {
            months: d.number(Some(months), "values"),
            days: d.number(Some(days), "values"),
            nanoseconds: d.number(Some(nanoseconds), "values"),
        }
    }
}

// The items of a list of three.
fn triple<'v>(d: &mut Decoder, value: &'v Value) -> (&'v Value, &'v Value, &'v Value) {
    match d.items(Some(value), "values") {
        [first, second, third] => (first, second, third),
        _ => {
            d.miss("values");
            (value, value, value)
        }
    }
}

/// The keys of a dictionary, which are an array of integers.
pub fn keys(d: &mut Decoder, array: &Value) -> Option<DictionaryKeys> {
    let keys = match numbers(d, array)? {
        AnyArray::Primitive(numbers) => as_keys(numbers),
        _ => None,
    };
    d.need(keys, "keys")
}

fn as_keys(numbers: AnyPrimitive) -> Option<DictionaryKeys> {
    match numbers {
        AnyPrimitive::Int8(keys) => Some(DictionaryKeys::Int8(keys)),
        AnyPrimitive::Int16(keys) => Some(DictionaryKeys::Int16(keys)),
        AnyPrimitive::Int32(keys) => Some(DictionaryKeys::Int32(keys)),
        AnyPrimitive::Int64(keys) => Some(DictionaryKeys::Int64(keys)),
        AnyPrimitive::UInt8(keys) => Some(DictionaryKeys::UInt8(keys)),
        AnyPrimitive::UInt16(keys) => Some(DictionaryKeys::UInt16(keys)),
        AnyPrimitive::UInt32(keys) => Some(DictionaryKeys::UInt32(keys)),
        AnyPrimitive::UInt64(keys) => Some(DictionaryKeys::UInt64(keys)),
        _ => None,
    }
}
