//! What the accessors of types return.

use super::parts::{present, put_name, put_optional_text, put_value};
use crate::text::Text;
use ipc_table_views::{
    DecimalRef, IntRef, TableFault, TimeRef, TimestampRef, TypeIds, TypeRef, UnionRef,
};
use std::fmt::{Debug, Display};

/// Appends a type: its name, or a list of its name and its parameters.
pub fn put_type(out: &mut Text, type_: Result<Option<TypeRef<'_>>, TableFault>) {
    let Some(type_) = present(out, type_) else {
        return;
    };
    match &type_ {
        TypeRef::Int(int) => put_int(out, int),
        TypeRef::Decimal(decimal) => put_decimal(out, decimal),
        TypeRef::Time(time) => put_time(out, time),
        TypeRef::Timestamp(stamp) => put_timestamp(out, stamp),
        TypeRef::Union(union) => put_union(out, union),
        TypeRef::FloatingPoint(float) => put_one_unit(
            out,
            "[\"FloatingPoint\",",
            float.precision(),
        ),
        TypeRef::Date(date) => put_one_unit(out, "[\"Date\",", date.unit()),
        TypeRef::Interval(interval) => put_one_unit(out, "[\"Interval\",", interval.unit()),
        TypeRef::Duration(duration) => put_one_unit(out, "[\"Duration\",", duration.unit()),
        TypeRef::FixedSizeBinary(bytes) => put_size(
            out,
            "[\"FixedSizeBinary\",",
            bytes.byte_width(),
        ),
        TypeRef::FixedSizeList(list) => put_size(out, "[\"FixedSizeList\",", list.list_size()),
        TypeRef::Map(map) => put_size(out, "[\"Map\",", map.keys_sorted()),
        TypeRef::Null(_) => out.put("\"Null\""),
        TypeRef::Binary(_) => out.put("\"Binary\""),
        TypeRef::Utf8(_) => out.put("\"Utf8\""),
        TypeRef::Bool(_) => out.put("\"Bool\""),
        TypeRef::List(_) => out.put("\"List\""),
        TypeRef::Struct(_) => out.put("\"Struct\""),
        TypeRef::LargeBinary(_) => out.put("\"LargeBinary\""),
        TypeRef::LargeUtf8(_) => out.put("\"LargeUtf8\""),
        TypeRef::LargeList(_) => out.put("\"LargeList\""),
    }
}

/// Appends a type of integers.
pub fn put_int(out: &mut Text, int: &IntRef<'_>) {
    put_first(out, "[\"Int\",", int.bit_width());
    put_last(out, int.is_signed());
}

fn put_decimal(out: &mut Text, decimal: &DecimalRef<'_>) {
    put_first(out, "[\"Decimal\",", decimal.precision());
    put_first(out, ",", decimal.scale());
    put_last(out, decimal.bit_width());
}

fn put_time(out: &mut Text, time: &TimeRef<'_>) {
    put_unit(out, "[\"Time\",", time.unit());
    put_last(out, time.bit_width());
}

fn put_timestamp(out: &mut Text, stamp: &TimestampRef<'_>) {
    put_unit(out, "[\"Timestamp\",", stamp.unit());
    out.put(",");
    put_optional_text(out, stamp.timezone());
    out.put("]");
}

fn put_union(out: &mut Text, union: &UnionRef<'_>) {
    put_unit(out, "[\"Union\",", union.mode());
    out.put(",");
    put_ids(out, union.type_ids());
    out.put("]");
}

// A parameter after this text.
fn put_first<T: Display + Drop>(out: &mut Text, before: &str, parameter: Result<T, TableFault>) {
    out.put(before);
    put_value(out, parameter);
}

// The last parameter of several.
fn put_last<T: Display + Drop>(out: &mut Text, parameter: Result<T, TableFault>) {
    out.put(",");
    put_value(out, parameter);
    out.put("]");
}

// A unit or a mode after this text.
fn put_unit<T: Debug + Drop>(out: &mut Text, before: &str, parameter: Result<T, TableFault>) {
    out.put(before);
    put_name(out, parameter);
}

// A type whose only parameter is a unit.
fn put_one_unit<T: Debug + Drop>(out: &mut Text, before: &str, parameter: Result<T, TableFault>) {
    put_unit(out, before, parameter);
    out.put("]");
}

// A type whose only parameter is a size, or whether its keys are sorted.
fn put_size<T: Display + Drop>(out: &mut Text, before: &str, parameter: Result<T, TableFault>) {
    put_first(out, before, parameter);
    out.put("]");
}

fn put_ids(out: &mut Text, ids: Result<Option<TypeIds<'_>>, TableFault>) {
    let Some(ids) = present(out, ids) else {
        return;
    };
    out.put("[");
    for index in 0..ids.len() {
        out.comma();
        out.show(&ids.get(index));
    }
    out.put("]");
}
