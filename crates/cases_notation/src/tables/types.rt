//! The types of tables, by the names of the Arrow format's `Schema.fbs`.
//!
//! - `"Null"`, `"Binary"`, `"Utf8"`, `"Bool"`, `"List"`, `"Struct"`
//! - `"LargeBinary"`, `"LargeUtf8"`, `"LargeList"`
//! - `["Int", 24, true]`: bits, and whether it is signed
//! - `["Decimal", 5, 2, 128]`: precision, scale, bits
//! - `["FixedSizeBinary", 16]`, `["FixedSizeList", 2]`, `["Map", true]`
//! - `["Union", "Dense", [5, 7]]`; the ids may be null
//! - `["FloatingPoint", "Half"]`, `["Date", "Day"]`, `["Time", "Second", 32]`
//! - `["Timestamp", "Second", "UTC"]`; the time zone may be null
//! - `["Interval", "DayTime"]`, `["Duration", "Second"]`

use crate::decoder::Decoder;
use crate::types::{optional_ids, optional_text};
use ipc_table_views::{DateUnit, IntervalUnit, Precision, TimeUnit, UnionMode};
use ipc_tables::types::{
    Date, Decimal, Duration, FieldType, FixedSizeBinary, FixedSizeList, FloatingPoint, Int,
    Interval, Map, Time, Timestamp, Union,
};
use serde_json::Value;

/// A type.
pub fn field_type(d: &mut Decoder, value: &Value) -> FieldType {
    match value {
        Value::Array(parts) => formed_type(d, parts),
        _ => plain_type(d, value),
    }
}

fn formed_type(d: &mut Decoder, parts: &[Value]) -> FieldType {
    match d.choice(parts.get(0), &FORMS, "type", Form::Union) {
        Form::Timestamp => timestamp(d, parts),
        Form::Union => union(d, parts),
        Form::OfUnit(form) => unit_type(d, form, parts),
        Form::Sized(form) => sized_type(d, form, parts),
    }
}

// The types that have no parameters.
#[derive(Clone, Copy)]
enum Plain {
    Null,
    Binary,
    Utf8,
    Bool,
    List,
    Struct,
    LargeBinary,
    LargeUtf8,
    LargeList,
}

const PLAIN_TYPES: [(&str, Plain); 9] = [
    ("Null", Plain::Null),
    ("Binary", Plain::Binary),
    ("Utf8", Plain::Utf8),
    ("Bool", Plain::Bool),
    ("List", Plain::List),
    ("Struct", Plain::Struct),
    ("LargeBinary", Plain::LargeBinary),
    ("LargeUtf8", Plain::LargeUtf8),
    ("LargeList", Plain::LargeList),
];

fn plain_type(d: &mut Decoder, value: &Value) -> FieldType {
    match d.choice(Some(value), &PLAIN_TYPES, "type", Plain::Null) {
        Plain::Null => FieldType::Null,
        Plain::Binary => FieldType::Binary,
        Plain::Utf8 => FieldType::Utf8,
        Plain::Bool => FieldType::Bool,
        Plain::List => FieldType::List,
        Plain::Struct => FieldType::Struct,
        Plain::LargeBinary => FieldType::LargeBinary,
        Plain::LargeUtf8 => FieldType::LargeUtf8,
        Plain::LargeList => FieldType::LargeList,
    }
}

// The types with parameters, by the kind of these.
#[derive(Clone, Copy)]
enum Form {
    Sized(SizedForm),
    OfUnit(UnitForm),
    Timestamp,
    Union,
}

#[derive(Clone, Copy)]
enum SizedForm {
    Int,
    Decimal,
    FixedSizeBinary,
    FixedSizeList,
    Map,
}

#[derive(Clone, Copy)]
enum UnitForm {
    FloatingPoint,
    Date,
    Time,
    Interval,
    Duration,
}

const FORMS: [(&str, Form); 12] = [
    ("Int", Form::Sized(SizedForm::Int)),
    ("Decimal", Form::Sized(SizedForm::Decimal)),
    ("FixedSizeBinary", Form::Sized(SizedForm::FixedSizeBinary)),
    ("FixedSizeList", Form::Sized(SizedForm::FixedSizeList)),
    ("Map", Form::Sized(SizedForm::Map)),
    ("FloatingPoint", Form::OfUnit(UnitForm::FloatingPoint)),
    ("Date", Form::OfUnit(UnitForm::Date)),
    ("Time", Form::OfUnit(UnitForm::Time)),
    ("Interval", Form::OfUnit(UnitForm::Interval)),
    ("Duration", Form::OfUnit(UnitForm::Duration)),
    ("Timestamp", Form::Timestamp),
    ("Union", Form::Union),
];

// A type whose parameters are numbers, or whether keys are sorted.
fn sized_type(d: &mut Decoder, form: SizedForm, parts: &[Value]) -> FieldType {
    match form {
        SizedForm::Int => FieldType::Int(int(d, parts)),
        SizedForm::Decimal => FieldType::Decimal(decimal(d, parts)),
        SizedForm::FixedSizeBinary => {
            let byte_width = parameter(d, parts, 1);
            FieldType::FixedSizeBinary(FixedSizeBinary { byte_width })
        }
        SizedForm::FixedSizeList => {
            let list_size = parameter(d, parts, 1);
            FieldType::FixedSizeList(FixedSizeList { list_size })
        }
        SizedForm::Map => {
            let keys_sorted = d.truth(parts.get(1), "sorted");
            FieldType::Map(Map { keys_sorted })
        }
    }
}

/// A type of integers: `["Int", BITS, SIGNED]`.
pub fn int(d: &mut Decoder, parts: &[Value]) -> Int {
    Int {
        bit_width: parameter(d, parts, 1),
        is_signed: d.truth(parts.get(2), "signed"),
    }
}

fn decimal(d: &mut Decoder, parts: &[Value]) -> Decimal {
    Decimal {
        precision: parameter(d, parts, 1),
        scale: parameter(d, parts, 2),
        bit_width: parameter(d, parts, 3),
    }
}

fn parameter(d: &mut Decoder, parts: &[Value], index: usize) -> i32 {
    d.number(parts.get(index), "type")
}

const PRECISIONS: [(&str, Precision); 3] = [
    ("Half", Precision::Half),
    ("Single", Precision::Single),
    ("Double", Precision::Double),
];

const DATE_UNITS: [(&str, DateUnit); 2] = [
    ("Day", DateUnit::Day),
    ("Millisecond", DateUnit::Millisecond),
];

const TIME_UNITS: [(&str, TimeUnit); 4] = [
    ("Second", TimeUnit::Second),
    ("Millisecond", TimeUnit::Millisecond),
    ("Microsecond", TimeUnit::Microsecond),
    ("Nanosecond", TimeUnit::Nanosecond),
];

const INTERVAL_UNITS: [(&str, IntervalUnit); 3] = [
    ("YearMonth", IntervalUnit::YearMonth),
    ("DayTime", IntervalUnit::DayTime),
    ("MonthDayNano", IntervalUnit::MonthDayNano),
];

const MODES: [(&str, UnionMode); 2] = [("Dense", UnionMode::Dense), ("Sparse", UnionMode::Sparse)];

// A type that has a unit.
fn unit_type(d: &mut Decoder, form: UnitForm, parts: &[Value]) -> FieldType {
    let unit = parts.get(1);
    match form {
        UnitForm::FloatingPoint => {
            let precision = d.choice(unit, &PRECISIONS, "unit", Precision::Half);
            FieldType::FloatingPoint(FloatingPoint { precision })
        }
        UnitForm::Date => {
            let unit = d.choice(unit, &DATE_UNITS, "unit", DateUnit::Day);
            FieldType::Date(Date { unit })
        }
        UnitForm::Time => {
            let unit = time_unit(d, unit);
            let bit_width = parameter(d, parts, 2);
            FieldType::Time(Time { unit, bit_width })
        }
        UnitForm::Interval => {
            let unit = d.choice(unit, &INTERVAL_UNITS, "unit", IntervalUnit::YearMonth);
            FieldType::Interval(Interval { unit })
        }
        UnitForm::Duration => {
            let unit = time_unit(d, unit);
            FieldType::Duration(Duration { unit })
        }
    }
}

fn time_unit(d: &mut Decoder, value: Option<&Value>) -> TimeUnit {
    d.choice(value, &TIME_UNITS, "unit", TimeUnit::Second)
}

fn timestamp(d: &mut Decoder, parts: &[Value]) -> FieldType {
    let unit = time_unit(d, parts.get(1));
    let timezone = last_parameter(d, parts);
    let timezone = optional_text(d, timezone);
    FieldType::Timestamp(Timestamp { unit, timezone })
}

fn union(d: &mut Decoder, parts: &[Value]) -> FieldType {
    let mode = d.choice(parts.get(1), &MODES, "mode", UnionMode::Dense);
    let type_ids = last_parameter(d, parts);
    let type_ids = optional_ids(d, type_ids);
    FieldType::Union(Union { mode, type_ids })
}

// The last of two parameters, unless it is null.
fn last_parameter<'v>(d: &mut Decoder, parts: &'v [Value]) -> Option<&'v Value> {
    match d.need(parts.get(2), "type") {
        Some(Value::Null) => None,
        parameter => parameter,
    }
}
