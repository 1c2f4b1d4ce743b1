//! Reads types without children.
//!
//! Arrow columnar format, "Data Types"; the tables are those of `Schema.fbs`.
ghost use Rattle.std.specs.Prelude.{◌≡◌, IfOk, option_map};
ghost use Rattle.lower.specs.TypeTrees.{plain};
ghost use Rattle.lower.specs.TypeViews.{type_view, ids_of, text_of};
ghost use Rattle.ipc_table_views.specs.TypeSlots.{timestamp_timezone, union_type_ids};
ghost use Rattle.ipc_table_views.specs.Unions.{type_parts};
ghost use Rattle.ipc_model.specs.Schemas.{made, size_of, unit_of, interval_of, mode_of, integer_of, integer_at, integers, float_of, date_of, time_of, decimal_of, decimal_at, plain_at};
ghost use Rattle.ipc_schema.specs.Reading.{AnswersMeaning, in_schema};

use ipc_base::fault::{Fault, SchemaFault, TableFault};
use ipc_table_views::{
    DateUnit, DecimalRef, IntRef, IntervalUnit as IntervalUnitTag, Precision, TimeRef,
    TimeUnit as TimeUnitTag, TimestampRef, TypeIds, TypeRef, UnionMode as UnionModeTag, UnionRef,
};
use lower::datatypes::{DataType, IntegerType, IntervalUnit, TimeUnit, UnionMode};
use std::alloc::{AllocError, Global};

// A slot of a table of a schema. A malformed one is a fault of the schema.
pub(crate) fn in_schema<T>(slot: Result<T, TableFault>) -> Result<T, Fault>
    ensures { result ≡ in_schema slot }
{
    match slot {
        Ok(value) => Ok(value),
        Err(fault) => Err(Fault::Schema(SchemaFault::Table(fault))),
    }
}

fn integer_type(width: i32, is_signed: bool) -> Result<IntegerType, Fault>
    ensures { AnswersMeaning (λ i. i) result (integer_of width is_signed) }
{
    match width {
        8 => Ok(if is_signed {
            IntegerType::Int8
        } else {
            IntegerType::UInt8
        }),
        16 => Ok(if is_signed {
            IntegerType::Int16
        } else {
            IntegerType::UInt16
        }),
        32 => Ok(if is_signed {
            IntegerType::Int32
        } else {
            IntegerType::UInt32
        }),
        64 => Ok(if is_signed {
            IntegerType::Int64
        } else {
            IntegerType::UInt64
        }),
        _ => Err(Fault::Schema(SchemaFault::BadInteger)),
    }
}

#[tactic(auto, unfolding(ipc_model::specs::Schemas::integer_at))]
pub(crate) fn deserialize_integer(int: &IntRef<'_>) -> Result<IntegerType, Fault>
    ensures { AnswersMeaning (λ i. i) result (integer_at int.now) }
{
    let width = in_schema(int.bit_width())?;
    let is_signed = in_schema(int.is_signed())?;
    integer_type(width, is_signed)
}

fn integers(integer: IntegerType) -> DataType
    ensures { type_view result ≡ plain (integers integer) }
{
    match integer {
        IntegerType::Int8 => DataType::Int8,
        IntegerType::Int16 => DataType::Int16,
        IntegerType::Int32 => DataType::Int32,
        IntegerType::Int64 => DataType::Int64,
        IntegerType::UInt8 => DataType::UInt8,
        IntegerType::UInt16 => DataType::UInt16,
        IntegerType::UInt32 => DataType::UInt32,
        IntegerType::UInt64 => DataType::UInt64,
    }
}

fn floats(precision: Precision) -> DataType
    ensures { type_view result ≡ plain (float_of precision) }
{
    match precision {
        Precision::Half => DataType::Float16,
        Precision::Single => DataType::Float32,
        Precision::Double => DataType::Float64,
    }
}

fn dates(unit: DateUnit) -> DataType
    ensures { type_view result ≡ plain (date_of unit) }
{
    match unit {
        DateUnit::Day => DataType::Date32,
        DateUnit::Millisecond => DataType::Date64,
    }
}

fn time_unit(unit: TimeUnitTag) -> TimeUnit
    ensures { result ≡ unit_of unit }
{
    match unit {
        TimeUnitTag::Second => TimeUnit::Second,
        TimeUnitTag::Millisecond => TimeUnit::Millisecond,
        TimeUnitTag::Microsecond => TimeUnit::Microsecond,
        TimeUnitTag::Nanosecond => TimeUnit::Nanosecond,
    }
}

fn interval_unit(unit: IntervalUnitTag) -> IntervalUnit
    ensures { result ≡ interval_of unit }
{
    match unit {
        IntervalUnitTag::YearMonth => IntervalUnit::YearMonth,
        IntervalUnitTag::DayTime => IntervalUnit::DayTime,
        IntervalUnitTag::MonthDayNano => IntervalUnit::MonthDayNano,
    }
}

pub(crate) fn union_mode(mode: UnionModeTag) -> UnionMode
    ensures { result ≡ mode_of mode }
{
    match mode {
        UnionModeTag::Sparse => UnionMode::Sparse,
        UnionModeTag::Dense => UnionMode::Dense,
    }
}

pub(crate) fn deserialize_size(size: i32) -> Result<usize, Fault>
    ensures { AnswersMeaning (λ n. n) result (size_of size) }
{
    if size < 0 {
        return Err(Fault::Schema(SchemaFault::BadSize));
    }
    Ok(size as usize)
}

// The precision or the scale of a decimal.
fn deserialize_digits(digits: i32) -> Result<usize, Fault>
    ensures { AnswersMeaning (λ n. n) result (size_of digits) }
{
    if digits < 0 {
        return Err(Fault::Schema(SchemaFault::BadDecimal));
    }
    Ok(digits as usize)
}

fn decimals(precision: usize, scale: usize, bit_width: i32) -> Result<DataType, Fault>
    ensures { AnswersMeaning type_view result (option_map plain (decimal_of precision scale bit_width)) }
{
    match bit_width {
        128 => Ok(DataType::Decimal(precision, scale)),
        256 => Ok(DataType::Decimal256(precision, scale)),
        _ => Err(Fault::Schema(SchemaFault::BadDecimal)),
    }
}

#[tactic(auto, unfolding(ipc_model::specs::Schemas::decimal_at))]
fn deserialize_decimal(decimal: &DecimalRef<'_>) -> Result<DataType, Fault>
    ensures { AnswersMeaning type_view result (option_map plain (decimal_at decimal.now)) }
{
    let precision = in_schema(decimal.precision())?;
    let precision = deserialize_digits(precision)?;
    let scale = in_schema(decimal.scale())?;
    let scale = deserialize_digits(scale)?;
    let bit_width = in_schema(decimal.bit_width())?;
    decimals(precision, scale, bit_width)
}

// Seconds and milliseconds have 32 bits, microseconds and nanoseconds 64 bits.
fn times(unit: TimeUnitTag, bit_width: i32) -> Result<DataType, Fault>
    ensures { AnswersMeaning type_view result (option_map plain (time_of unit bit_width)) }
{
    match (bit_width, unit) {
        (32, TimeUnitTag::Second) => Ok(DataType::Time32(TimeUnit::Second)),
        (32, TimeUnitTag::Millisecond) => Ok(DataType::Time32(TimeUnit::Millisecond)),
        (64, TimeUnitTag::Microsecond) => Ok(DataType::Time64(TimeUnit::Microsecond)),
        (64, TimeUnitTag::Nanosecond) => Ok(DataType::Time64(TimeUnit::Nanosecond)),
        _ => Err(Fault::Schema(SchemaFault::BadTime)),
    }
}

#[tactic(auto, unfolding(ipc_model::specs::Schemas::plain_at))]
fn deserialize_time(time: &TimeRef<'_>) -> Result<DataType, Fault>
    ensures { AnswersMeaning type_view result (option_map plain (plain_at 9 time.now)) }
{
    let unit = in_schema(time.unit())?;
    let bit_width = in_schema(time.bit_width())?;
    times(unit, bit_width)
}

// The name of the timezone, if there is one.
fn deserialize_timezone(
    alloc: Global,
    timestamp: &TimestampRef<'_>,
) -> Result<Option<String>, Fault>
    ensures { AnswersMeaning text_of result (made (timestamp_timezone timestamp.now)) }
{
    match in_schema(timestamp.timezone())? {
        Some(timezone) => Ok(Some(String::from_str(alloc, timezone)?)),
        None => Ok(None),
    }
}

#[tactic(auto, unfolding(ipc_model::specs::Schemas::plain_at))]
fn deserialize_timestamp(alloc: Global, timestamp: &TimestampRef<'_>) -> Result<DataType, Fault>
    ensures { AnswersMeaning type_view result (option_map plain (plain_at 10 timestamp.now)) }
{
    let unit = in_schema(timestamp.unit())?;
    let timezone = deserialize_timezone(alloc, timestamp)?;
    Ok(DataType::Timestamp(time_unit(unit), timezone))
}

// The type ids of a union's children, if there are any.
pub(crate) fn deserialize_ids(
    alloc: Global,
    union: &UnionRef<'_>,
) -> Result<Option<Vec<i32>>, Fault>
    ensures { AnswersMeaning ids_of result (made (union_type_ids union.now)) }
{
    match in_schema(union.type_ids())? {
        Some(ids) => Ok(Some(copied_ids(alloc, &ids)?)),
        None => Ok(None),
    }
}

fn copied_ids(alloc: Global, ids: &TypeIds<'_>) -> Result<Vec<i32>, AllocError>
    ensures { IfOk result (λ copy. copy.items ≡ ids.now) }
{
    let mut copy = Vec::new(alloc);
    for i in 0..ids.len() {
        copy.push(ids.get(i))?;
    }
    Ok(copy)
}

/// Returns the type of a table that has no children.
///
/// It refuses a type with children, which are in the table of its field.
#[tactic(auto, unfolding(ipc_model::specs::Schemas::plain_at))]
pub(crate) fn deserialize_plain(alloc: Global, type_: &TypeRef<'_>) -> Result<DataType, Fault>
    ensures { AnswersMeaning type_view result
        (option_map plain (plain_at (type_parts type_.now).0 (type_parts type_.now).1)) }
{
    match type_ {
        TypeRef::Null(_) => Ok(DataType::Null),
        TypeRef::Int(int) => Ok(integers(deserialize_integer(int)?)),
        TypeRef::FloatingPoint(float) => Ok(floats(in_schema(float.precision())?)),
        TypeRef::Binary(_) => Ok(DataType::Binary),
        TypeRef::Utf8(_) => Ok(DataType::Utf8),
        TypeRef::Bool(_) => Ok(DataType::Boolean),
        TypeRef::Decimal(decimal) => deserialize_decimal(decimal),
        TypeRef::Date(date) => Ok(dates(in_schema(date.unit())?)),
        TypeRef::Time(time) => deserialize_time(time),
        TypeRef::Timestamp(timestamp) => deserialize_timestamp(alloc, timestamp),
        TypeRef::Interval(interval) => {
            let unit = in_schema(interval.unit())?;
            Ok(DataType::Interval(interval_unit(unit)))
        }
        TypeRef::FixedSizeBinary(binary) => {
            let size = in_schema(binary.byte_width())?;
            Ok(DataType::FixedSizeBinary(deserialize_size(size)?))
        }
        TypeRef::Duration(duration) => {
            let unit = in_schema(duration.unit())?;
            Ok(DataType::Duration(time_unit(unit)))
        }
        TypeRef::LargeBinary(_) => Ok(DataType::LargeBinary),
        TypeRef::LargeUtf8(_) => Ok(DataType::LargeUtf8),
        _ => Err(Fault::Schema(SchemaFault::NoChild)),
    }
}
