//! The calls of types.
//!
//! - `"counts_of": [TYPE, EXTRA]` gives how many nodes and buffers a column has. A union has EXTRA
//!   (0 or 1) buffers before its own.
//! - `"physical_type_of": TYPE` gives its physical type.
//!
//! The others give `true` or `false`:
//!
//! - `"are_same_types": [TYPE, TYPE]`, `"are_same_fields": [FIELD, FIELD]`: on a clone of the first
//! - `"logical_type_is": [TYPE, TYPE]`: on the first without its extensions
//! - `"key_type_is": ["uint8", TYPE]`, `"is_dictionary_type": TYPE`
//! - `"is_within_levels": [[FIELD, ..], LEVELS]`

ghost use Rattle.std.specs.Prelude.{◌≤◌};

use crate::decoder::{Decoder, named};
use crate::text::Text;
use crate::types::{INTEGERS, LEVELS, data_type, field, fields};
use lower::datatypes::{
    DataType, IntegerType, count_buffers, count_nodes, is_dictionary_type, is_same_field,
    is_same_type, is_within_levels,
};
use serde_json::Value;

#[derive(Clone, Copy)]
enum Call {
    CountsOf,
    PhysicalTypeOf,
    AreSameTypes,
    AreSameFields,
    LogicalTypeIs,
    KeyTypeIs,
    IsDictionaryType,
    IsWithinLevels,
}

const CALLS: [(&str, Call); 8] = [
    ("counts_of", Call::CountsOf),
    ("physical_type_of", Call::PhysicalTypeOf),
    ("are_same_types", Call::AreSameTypes),
    ("are_same_fields", Call::AreSameFields),
    ("logical_type_is", Call::LogicalTypeIs),
    ("key_type_is", Call::KeyTypeIs),
    ("is_dictionary_type", Call::IsDictionaryType),
    ("is_within_levels", Call::IsWithinLevels),
];

/// Appends what the call of this name gives, and returns whether there is such a call here.
pub fn put_call(d: &mut Decoder, out: &mut Text, name: &str, parts: &Value) -> bool {
    let Some(call) = named(&CALLS, name) else {
        return false;
    };
    match call {
        Call::CountsOf => counts_of(d, out, parts),
        Call::PhysicalTypeOf => physical_type_of(d, out, parts),
        Call::AreSameTypes => are_same_types(d, out, parts),
        Call::AreSameFields => are_same_fields(d, out, parts),
        Call::LogicalTypeIs => logical_type_is(d, out, parts),
        Call::KeyTypeIs => key_type_is(d, out, parts),
        Call::IsDictionaryType => is_dictionary(d, out, parts),
        Call::IsWithinLevels => are_within_levels(d, out, parts),
    }
    true
}

fn counts_of(d: &mut Decoder, out: &mut Text, value: &Value) {
    let (first, extra) = d.both(value, "counts_of");
    let extra = extra_of(d, extra);
    let data_type = data_type(d, first, LEVELS);
    match (count_nodes(&data_type), count_buffers(&data_type, extra)) {
        (Some(nodes), Some(buffers)) => out.pair(&nodes, &buffers),
        _ => out.put("null"),
    }
}

// How many buffers a union has in front.
fn extra_of(d: &mut Decoder, value: &Value) -> u64
    ensures { result ≤ 1 }
{
    match d.whole(Some(value), "extra") {
        0 => 0,
        1 => 1,
        _ => {
            d.miss("extra");
            0
        }
    }
}

fn physical_type_of(d: &mut Decoder, out: &mut Text, value: &Value) {
    let data_type = data_type(d, value, LEVELS);
    out.name(&data_type.to_physical_type());
}

// The two types of a case.
fn both_types(d: &mut Decoder, value: &Value) -> (DataType, DataType) {
    let (first, second) = d.both(value, "types");
    let first = data_type(d, first, LEVELS);
    (first, data_type(d, second, LEVELS))
}

fn are_same_types(d: &mut Decoder, out: &mut Text, value: &Value) {
    let (first, second) = both_types(d, value);
    let copied = first.clone();
    if let Some(copied) = d.take(copied) {
        put_are_same(out, &copied, &second);
    }
}

fn put_are_same(out: &mut Text, first: &DataType, second: &DataType) {
    let is_same = is_same_type(first, second);
    if is_same == (*first == *second) {
        out.show(&is_same);
    } else {
        out.put("\"the same or equal, and not both\"");
    }
}

fn are_same_fields(d: &mut Decoder, out: &mut Text, value: &Value) {
    let (first, second) = d.both(value, "fields");
    let first = field(d, first, LEVELS).clone();
    let second = field(d, second, LEVELS);
    if let Some(first) = d.take(first) {
        out.show(&is_same_field(&first, &second));
    }
}

fn logical_type_is(d: &mut Decoder, out: &mut Text, value: &Value) {
    let (first, second) = both_types(d, value);
    out.show(&is_same_type(first.to_logical_type(), &second));
}

fn key_type_is(d: &mut Decoder, out: &mut Text, value: &Value) {
    let (key, second) = d.both(value, "key_type_is");
    let key = d.choice(Some(key), &INTEGERS, "key", IntegerType::Int8);
    let data_type = data_type(d, second, LEVELS);
    out.show(&(DataType::from(key) == data_type));
}

fn is_dictionary(d: &mut Decoder, out: &mut Text, value: &Value) {
    let data_type = data_type(d, value, LEVELS);
    out.show(&is_dictionary_type(&data_type));
}

fn are_within_levels(d: &mut Decoder, out: &mut Text, value: &Value) {
    let (listed, limit) = d.both(value, "is_within_levels");
    let limit = d.number(Some(limit), "levels");
    let fields = fields(d, listed, LEVELS);
    out.show(&is_within_levels(&fields, limit));
}
