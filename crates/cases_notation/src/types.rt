//! Types and fields.
//!
//! A type without parameters is its name, such as `"int32"`. The others are lists:
//!
//! - `["list", FIELD]`, `["large_list", FIELD]`, `["fixed_size_list", FIELD, 2]`
//! - `["struct", [FIELD, ..]]`, `["map", FIELD, SORTED]`
//! - `["union", "dense", [FIELD, ..], [ID, ..]]`; the ids may be left out
//! - `["dictionary", "int32", TYPE, ORDERED]`
//! - `["fixed_size_binary", 16]`, `["decimal", 5, 2]`, `["decimal256", 5, 2]`
//! - `["timestamp", "s", ZONE]`; the zone may be left out
//! - `["time32", "ms"]`, `["time64", "ns"]`, `["duration", "us"]`
//! - `["interval", "months"]`, or `"days"` or `"nanoseconds"`
//! - `["extension", NAME, TYPE, TEXT]`; the text may be left out
//! - `["lists", TYPE, 3]`: lists of lists of lists of this type. Their fields are nullable and
//!   named item, unless there is a fourth parameter `{"name": "f", "nullable": false}`.
//! - `["twins", TYPE, 3]`: a struct of two structs of two structs of two fields of this type. All
//!   fields are unnamed and not nullable.
//!
//! A field is `{"name": "a", "type": TYPE, "nullable": false, "metadata": {"k": "v"}}`. A type
//! alone is a nullable field without a name.

use crate::decoder::{Decoder, named};
use lower::datatypes::{DataType, Field, IntegerType, IntervalUnit, Metadata, TimeUnit, UnionMode};
use serde_json::Value;

/// How many levels a type or an array of a case may have.
pub const LEVELS: usize = 70;

/// A type of at most so many levels.
#[cycle(types)]
pub fn data_type(d: &mut Decoder, value: &Value, levels: usize) -> DataType {
    match value {
        Value::Array(parts) if levels > 0 => formed_type(d, parts, levels - 1),
        _ => plain_type(d, Some(value)),
    }
}

/// The types of integers.
pub const INTEGERS: [(&str, IntegerType); 8] = [
    ("int8", IntegerType::Int8),
    ("int16", IntegerType::Int16),
    ("int32", IntegerType::Int32),
    ("int64", IntegerType::Int64),
    ("uint8", IntegerType::UInt8),
    ("uint16", IntegerType::UInt16),
    ("uint32", IntegerType::UInt32),
    ("uint64", IntegerType::UInt64),
];

// The other types that have no parameters.
#[derive(Clone, Copy)]
enum PlainType {
    Null,
    Boolean,
    Date32,
    Date64,
    Binary,
    LargeBinary,
    Utf8,
    LargeUtf8,
    Float16,
    Float32,
    Float64,
}

const PLAIN_TYPES: [(&str, PlainType); 11] = [
    ("null", PlainType::Null),
    ("boolean", PlainType::Boolean),
    ("date32", PlainType::Date32),
    ("date64", PlainType::Date64),
    ("binary", PlainType::Binary),
    ("large_binary", PlainType::LargeBinary),
    ("utf8", PlainType::Utf8),
    ("large_utf8", PlainType::LargeUtf8),
    ("float16", PlainType::Float16),
    ("float32", PlainType::Float32),
    ("float64", PlainType::Float64),
];

/// A type that has no parameters.
pub fn plain_type(d: &mut Decoder, value: Option<&Value>) -> DataType {
    let name = d.text(value, "type");
    if let Some(integer) = named(&INTEGERS, name) {
        return DataType::from(integer);
    }
    match d.choice(value, &PLAIN_TYPES, "type", PlainType::Null) {
        PlainType::Null => DataType::Null,
        PlainType::Boolean => DataType::Boolean,
        PlainType::Date32 => DataType::Date32,
        PlainType::Date64 => DataType::Date64,
        PlainType::Binary => DataType::Binary,
        PlainType::LargeBinary => DataType::LargeBinary,
        PlainType::Utf8 => DataType::Utf8,
        PlainType::LargeUtf8 => DataType::LargeUtf8,
        PlainType::Float16 => DataType::Float16,
        PlainType::Float32 => DataType::Float32,
        PlainType::Float64 => DataType::Float64,
    }
}

// The types with parameters, by the kind of their child.
#[derive(Clone, Copy)]
enum Form {
    Childless(ChildlessForm),
    OfField(ListForm),
    OfFields(GroupForm),
    OfType(WrappedForm),
}

#[derive(Clone, Copy)]
enum ChildlessForm {
    FixedSizeBinary,
    Decimal,
    Decimal256,
    Timestamp,
    Time32,
    Time64,
    Duration,
    Interval,
}

#[derive(Clone, Copy)]
enum ListForm {
    Small,
    Large,
    Fixed,
    Map,
}

#[derive(Clone, Copy)]
enum GroupForm {
    Struct,
    Union,
}

#[derive(Clone, Copy)]
enum WrappedForm {
    Lists,
    Twins,
    Dictionary,
    Extension,
}

// Each with the index of its child in the list; 0 is the name itself.
const FORMS: [(&str, (Form, usize)); 18] = [
    (
        "fixed_size_binary",
        (Form::Childless(ChildlessForm::FixedSizeBinary), 0),
    ),
    ("decimal", (Form::Childless(ChildlessForm::Decimal), 0)),
    (
        "decimal256",
        (Form::Childless(ChildlessForm::Decimal256), 0),
    ),
    ("timestamp", (Form::Childless(ChildlessForm::Timestamp), 0)),
    ("time32", (Form::Childless(ChildlessForm::Time32), 0)),
    ("time64", (Form::Childless(ChildlessForm::Time64), 0)),
    ("duration", (Form::Childless(ChildlessForm::Duration), 0)),
    ("interval", (Form::Childless(ChildlessForm::Interval), 0)),
    ("list", (Form::OfField(ListForm::Small), 1)),
    ("large_list", (Form::OfField(ListForm::Large), 1)),
    ("fixed_size_list", (Form::OfField(ListForm::Fixed), 1)),
    ("map", (Form::OfField(ListForm::Map), 1)),
    ("struct", (Form::OfFields(GroupForm::Struct), 1)),
    ("union", (Form::OfFields(GroupForm::Union), 2)),
    ("lists", (Form::OfType(WrappedForm::Lists), 1)),
    ("twins", (Form::OfType(WrappedForm::Twins), 1)),
    ("dictionary", (Form::OfType(WrappedForm::Dictionary), 2)),
    ("extension", (Form::OfType(WrappedForm::Extension), 2)),
];

const NO_FORM: (Form, usize) = (Form::Childless(ChildlessForm::FixedSizeBinary), 0);

// A type with parameters, of at most so many levels.
#[cycle(types)]
fn formed_type(d: &mut Decoder, parts: &[Value], levels: usize) -> DataType {
    let (form, index) = d.choice(parts.get(0), &FORMS, "type", NO_FORM);
    let Some(child) = d.need(parts.get(index), "type") else {
        return DataType::Null;
    };
    match form {
        Form::Childless(form) => childless_type(d, form, parts),
        Form::OfField(form) => {
            let item = field(d, child, levels);
            list_type(d, form, parts, item)
        }
        Form::OfFields(form) => {
            let children = fields(d, child, levels);
            group_type(d, form, parts, children)
        }
        Form::OfType(form) => {
            let inner = data_type(d, child, levels);
            wrapped_type(d, form, parts, inner)
        }
    }
}

fn childless_type(d: &mut Decoder, form: ChildlessForm, parts: &[Value]) -> DataType {
    match form {
        ChildlessForm::FixedSizeBinary => DataType::FixedSizeBinary(d.count(parts.get(1), "size")),
        ChildlessForm::Decimal => {
            let (digits, scale) = digits(d, parts);
            DataType::Decimal(digits, scale)
        }
        ChildlessForm::Decimal256 => {
            let (digits, scale) = digits(d, parts);
            DataType::Decimal256(digits, scale)
        }
        ChildlessForm::Timestamp => {
            let unit = unit(d, parts);
            DataType::Timestamp(unit, optional_text(d, parts.get(2)))
        }
        ChildlessForm::Time32 => DataType::Time32(unit(d, parts)),
        ChildlessForm::Time64 => DataType::Time64(unit(d, parts)),
        ChildlessForm::Duration => DataType::Duration(unit(d, parts)),
        ChildlessForm::Interval => DataType::Interval(interval(d, parts)),
    }
}

fn digits(d: &mut Decoder, parts: &[Value]) -> (usize, usize) {
    let digits = d.count(parts.get(1), "digits");
    (digits, d.count(parts.get(2), "scale"))
}

const UNITS: [(&str, TimeUnit); 4] = [
    ("s", TimeUnit::Second),
    ("ms", TimeUnit::Millisecond),
    ("us", TimeUnit::Microsecond),
    ("ns", TimeUnit::Nanosecond),
];

fn unit(d: &mut Decoder, parts: &[Value]) -> TimeUnit {
    d.choice(parts.get(1), &UNITS, "unit", TimeUnit::Second)
}

const INTERVALS: [(&str, IntervalUnit); 3] = [
    ("months", IntervalUnit::YearMonth),
    ("days", IntervalUnit::DayTime),
    ("nanoseconds", IntervalUnit::MonthDayNano),
];

fn interval(d: &mut Decoder, parts: &[Value]) -> IntervalUnit {
    d.choice(parts.get(1), &INTERVALS, "unit", IntervalUnit::YearMonth)
}

/// A text that may be left out.
pub fn optional_text(d: &mut Decoder, value: Option<&Value>) -> Option<String> {
    match value {
        None => None,
        Some(_) => Some(d.string(value, "text")),
    }
}

// A type of lists of this field.
fn list_type(d: &mut Decoder, form: ListForm, parts: &[Value], item: Field) -> DataType {
    let Some(item) = d.boxed(item) else {
        return DataType::Null;
    };
    match form {
        ListForm::Small => DataType::List(item),
        ListForm::Large => DataType::LargeList(item),
        ListForm::Fixed => DataType::FixedSizeList(item, d.count(parts.get(2), "size")),
        ListForm::Map => DataType::Map(item, d.truth(parts.get(2), "sorted")),
    }
}

// A struct or a union of these fields.
fn group_type(d: &mut Decoder, form: GroupForm, parts: &[Value], children: Vec<Field>) -> DataType {
    match form {
        GroupForm::Struct => DataType::Struct(children),
        GroupForm::Union => {
            let mode = d.choice(parts.get(1), &MODES, "mode", UnionMode::Dense);
            DataType::Union(children, optional_ids(d, parts.get(3)), mode)
        }
    }
}

const MODES: [(&str, UnionMode); 2] = [("dense", UnionMode::Dense), ("sparse", UnionMode::Sparse)];

/// The ids of a union, which may be left out.
pub fn optional_ids(d: &mut Decoder, ids: Option<&Value>) -> Option<Vec<i32>> {
    match ids {
        None => None,
        Some(ids) => Some(id_list(d, ids)),
    }
}

fn id_list(d: &mut Decoder, ids: &Value) -> Vec<i32> {
    let mut out = d.list();
    for id in d.items(Some(ids), "ids") {
        let id = d.number(Some(id), "ids");
        d.push(&mut out, id);
    }
    out
}

// Lists or twins of this type, a dictionary of values of this type, or an extension with this
// storage type.
fn wrapped_type(d: &mut Decoder, form: WrappedForm, parts: &[Value], inner: DataType) -> DataType {
    match form {
        WrappedForm::Lists => lists(d, parts, inner),
        WrappedForm::Twins => twins(d, parts, inner),
        WrappedForm::Dictionary => dictionary(d, parts, inner),
        WrappedForm::Extension => extension(d, parts, inner),
    }
}

fn dictionary(d: &mut Decoder, parts: &[Value], values: DataType) -> DataType {
    let key = d.choice(parts.get(1), &INTEGERS, "key", IntegerType::Int8);
    let is_ordered = d.truth(parts.get(3), "ordered");
    match d.boxed(values) {
        Some(values) => DataType::Dictionary(key, values, is_ordered),
        None => DataType::Null,
    }
}

fn extension(d: &mut Decoder, parts: &[Value], storage: DataType) -> DataType {
    let name = d.string(parts.get(1), "name");
    let text = optional_text(d, parts.get(3));
    match d.boxed(storage) {
        Some(storage) => DataType::Extension(name, storage, text),
        None => DataType::Null,
    }
}

// Nested structs, so many levels, each of two unnamed fields that are not nullable.
fn twins(d: &mut Decoder, parts: &[Value], inner: DataType) -> DataType {
    let mut data_type = inner;
    for _ in 0..d.count(parts.get(2), "twins") {
        data_type = twin(d, data_type);
    }
    data_type
}

fn twin(d: &mut Decoder, data_type: DataType) -> DataType {
    let copied = data_type.clone();
    let Some(copied) = d.take(copied) else {
        return DataType::Null;
    };
    let mut children = d.list();
    let first = unnamed(d, copied, false);
    d.push(&mut children, first);
    let second = unnamed(d, data_type, false);
    d.push(&mut children, second);
    DataType::Struct(children)
}

// A field without a name.
fn unnamed(d: &mut Decoder, data_type: DataType, is_nullable: bool) -> Field {
    Field {
        name: String::new(d.alloc()),
        data_type,
        is_nullable,
        metadata: Metadata::new(d.alloc()),
    }
}

// Nested lists, so many levels, of this type.
fn lists(d: &mut Decoder, parts: &[Value], inner: DataType) -> DataType {
    let (name, is_nullable) = like(d, parts.get(3));
    let mut data_type = inner;
    for _ in 0..d.count(parts.get(2), "lists") {
        data_type = list_of(d, name, data_type, is_nullable);
    }
    data_type
}

// The name of the fields of nested lists, and whether these are nullable.
fn like<'v>(d: &mut Decoder, value: Option<&'v Value>) -> (&'v str, bool) {
    match value {
        None => ("item", true),
        Some(value) => {
            let name = d.text(value.get("name"), "name");
            (name, nullable(d, value))
        }
    }
}

fn list_of(d: &mut Decoder, name: &str, data_type: DataType, is_nullable: bool) -> DataType {
    let mut item = unnamed(d, data_type, is_nullable);
    item.name = d.owned(name);
    match d.boxed(item) {
        Some(item) => DataType::List(item),
        None => DataType::Null,
    }
}

/// Fields, whose types have at most so many levels.
#[cycle(types)]
pub fn fields(d: &mut Decoder, value: &Value, levels: usize) -> Vec<Field> {
    let mut out = d.list();
    for value in d.items(Some(value), "fields") {
        let field = field(d, value, levels);
        d.push(&mut out, field);
    }
    out
}

/// A field, whose type has at most so many levels.
#[cycle(types)]
pub fn field(d: &mut Decoder, value: &Value, levels: usize) -> Field {
    if !value.is_object() {
        let data_type = data_type(d, value, levels);
        return unnamed(d, data_type, true);
    }
    let name = d.string(value.get("name"), "name");
    let type_ = d.member(value, "type");
    Field {
        name,
        data_type: data_type(d, type_, levels),
        is_nullable: nullable(d, value),
        metadata: metadata(d, value),
    }
}

/// Whether a field is nullable, from its member `nullable`; true if that is left out.
pub fn nullable(d: &mut Decoder, field: &Value) -> bool {
    match field.get("nullable") {
        None => true,
        nullable => d.truth(nullable, "nullable"),
    }
}

/// The metadata of a field or a schema: the texts in its member `metadata`.
pub fn metadata(d: &mut Decoder, value: &Value) -> Metadata {
    texts(d, value, "metadata")
}

/// Texts by their names, from the member of this name, which may be left out.
pub fn texts(d: &mut Decoder, value: &Value, name: &'static str) -> Metadata {
    let mut out = Metadata::new(d.alloc());
    match value.get(name) {
        None => {}
        Some(Value::Object(pairs)) => {
            for (key, value) in pairs {
                let text = d.text(Some(value), name);
                put_text(d, &mut out, key.as_str(), text);
            }
        }
        Some(_) => d.miss(name),
    }
    out
}

fn put_text(d: &mut Decoder, out: &mut Metadata, key: &str, text: &str) {
    let key = d.owned(key);
    let text = d.owned(text);
    let held = out.insert(key, text);
    let _ = d.take(held);
}

/// Whether the byte order in the member `order` is little-endian, as it is by default.
pub fn is_little_endian(d: &mut Decoder, value: &Value) -> bool {
    match value.get("order") {
        None => true,
        order => d.choice(order, &ORDERS, "order", true),
    }
}

const ORDERS: [(&str, bool); 2] = [("little", true), ("big", false)];
