//! Slots, as text.
//!
//! - `null`, `true`, or a number, in quotes if it has more than 64 bits
//! - bytes as hex digits in quotes, texts in quotes
//! - `[..]`: the slots of a list or of a struct, or the parts of a number that has several
//! - `{"5":..}`: the slot of a union, by its type id
//! - for a dictionary, the value that the key refers to
ghost use Rattle.std.specs.Prelude.{◌<◌};

use cases_notation::text::Text;
use lower_arrays::array::AnyArray;
use lower_arrays::value::{Nesting, Scalar, Value, value_at};

/// Appends all slots of an array, with at most so many levels.
pub fn put_slots(out: &mut Text, array: &AnyArray, levels: usize) {
    put_range(out, array, 0, array.len(), levels);
}

#[cycle(slots)]
fn put_range(out: &mut Text, array: &AnyArray, from: usize, len: usize, levels: usize) {
    out.put("[");
    for index in from..from.saturating_add(len) {
        out.comma();
        put_slot(out, array, index, levels);
    }
    out.put("]");
}

#[cycle(slots)]
fn put_slot(out: &mut Text, array: &AnyArray, index: usize, levels: usize) {
    if levels == 0 || index >= array.len() {
        out.miss("a slot that isn't there");
        return;
    }
    match value_at(array, index) {
        Value::Null => out.put("null"),
        Value::Truth(truth) => out.show(&truth),
        Value::Number(number) => put_number(out, number),
        Value::Bytes(bytes) => out.hex(bytes),
        Value::Text(text) => out.text(text.as_bytes()),
        Value::Nested(nesting, children, index) => {
            put_nested(out, nesting, children, index, levels - 1)
        }
    }
}

#[cycle(slots)]
fn put_nested(
    out: &mut Text,
    nesting: Nesting,
    children: &[AnyArray],
    index: usize,
    levels: usize,
) {
    match (nesting, children) {
        (Nesting::List(len), [child, ..]) => put_range(out, child, index, len, levels),
        (Nesting::Record, _) => put_record(out, children, index, levels),
        (Nesting::Variant(id), [child, ..]) => {
            out.put("{\"");
            out.show(&id);
            out.put("\":");
            put_slot(out, child, index, levels);
            out.put("}");
        }
        _ => out.miss("a child that isn't there"),
    }
}

#[cycle(slots)]
fn put_record(out: &mut Text, children: &[AnyArray], index: usize, levels: usize) {
    out.put("[");
    for child in children {
        out.comma();
        put_slot(out, child, index, levels);
    }
    out.put("]");
}

fn put_number(out: &mut Text, number: Scalar) {
    match number {
        Scalar::Whole(number) => put_whole(out, number),
        Scalar::Wide(number) => put_wide(out, number.high, number.low),
        Scalar::DayTime(time) => out.pair(&time.days, &time.milliseconds),
        Scalar::MonthDayNano(time) => {
            out.put("[");
            out.show(&time.months);
            out.put(",");
            out.show(&time.days);
            out.put(",");
            out.show(&time.nanoseconds);
            out.put("]");
        }
    }
}

fn put_wide(out: &mut Text, high: i128, low: u128) {
    out.put("[\"");
    out.show(&high);
    out.put("\",\"");
    out.show(&low);
    out.put("\"]");
}

/// Appends an integer, in quotes if it has more than 64 bits.
pub fn put_whole(out: &mut Text, number: i128) {
    if number < i128::from(i64::MIN) || number > i128::from(u64::MAX) {
        out.name(&number);
    } else {
        out.show(&number);
    }
}
