//! Encodes the types of columns as tables of a schema.
//!
//! Arrow columnar format, "Schema message"; the union `Type` of `Schema.fbs`.
ghost use Rattle.std.specs.Prelude.{◌≡◌, IfOk, pos};
ghost use Rattle.lower.specs.TypeTrees.{plain, time32, time64, timestamp, interval, duration, fixed_binary, decimal, decimal256, fixed_list, entries, choice};
ghost use Rattle.lower.specs.TypeViews.{ids_of, text_of, type_view};
ghost use Rattle.ipc_model.specs.Schemas.{date_of, integers, interval_of, mode_of, unit_of};
ghost use Rattle.ipc_model.specs.Writable.{IsShort, IsWritableType};
ghost use Rattle.ipc_schema_write.specs.Meanings.{AreShortIds, IsEncodingTable, IsGroupTable, IsKeysTable, IsSingleTable, IsTypeTable, encoding_of};

use ipc_table_views::{
    DateUnit, IntervalUnit as IntervalTag, TimeUnit as UnitTag, UnionMode as ModeTag,
};
use ipc_tables::schema::{DictionaryEncoding, DictionaryKind};
use ipc_tables::types::{
    Date, Decimal, Duration, FieldType, FixedSizeBinary, FixedSizeList, Int, Interval, Map, Time,
    Timestamp, Union,
};
use lower::datatypes::{DataType, IntegerType, IntervalUnit, TimeUnit, UnionMode};
use std::alloc::AllocError;

// A size as a signed 32-bit number.
fn short(size: usize) -> i32
    requires { IsShort size }
    ensures { result ≡ pos size }
{
    size as i32
}

fn unit_tag(unit: TimeUnit) -> UnitTag
    ensures { unit_of result ≡ unit }
{
    match unit {
        TimeUnit::Second => UnitTag::Second,
        TimeUnit::Millisecond => UnitTag::Millisecond,
        TimeUnit::Microsecond => UnitTag::Microsecond,
        TimeUnit::Nanosecond => UnitTag::Nanosecond,
    }
}

fn interval_tag(unit: IntervalUnit) -> IntervalTag
    ensures { interval_of result ≡ unit }
{
    match unit {
        IntervalUnit::YearMonth => IntervalTag::YearMonth,
        IntervalUnit::DayTime => IntervalTag::DayTime,
        IntervalUnit::MonthDayNano => IntervalTag::MonthDayNano,
    }
}

fn mode_tag(mode: UnionMode) -> ModeTag
    ensures { mode_of result ≡ mode }
{
    match mode {
        UnionMode::Sparse => ModeTag::Sparse,
        UnionMode::Dense => ModeTag::Dense,
    }
}

// The table of an integer type.
fn serialize_integer(integer: IntegerType) -> Int
    ensures { IsKeysTable result integer }
{
    let (bit_width, is_signed) = match integer {
        IntegerType::Int8 => (8, true),
        IntegerType::Int16 => (16, true),
        IntegerType::Int32 => (32, true),
        IntegerType::Int64 => (64, true),
        IntegerType::UInt8 => (8, false),
        IntegerType::UInt16 => (16, false),
        IntegerType::UInt32 => (32, false),
        IntegerType::UInt64 => (64, false),
    };
    Int {
        bit_width,
        is_signed,
    }
}

/// Returns the table of a dictionary's encoding, for a dictionary with an id.
pub(crate) fn serialize_encoding(
    data_type: &DataType,
    id: Option<i64>,
) -> Option<DictionaryEncoding>
    ensures { IsEncodingTable result (encoding_of (type_view data_type.now) id) }
{
    match (data_type, id) {
        (DataType::Dictionary(keys, _, is_ordered), Some(id)) => Some(DictionaryEncoding {
            id,
            index_type: serialize_integer(*keys),
            is_ordered: *is_ordered,
            dictionary_kind: DictionaryKind::DenseArray,
        }),
        _ => None,
    }
}

fn int(integer: IntegerType) -> FieldType
    ensures { IsTypeTable result (plain (integers integer)) }
{
    FieldType::Int(serialize_integer(integer))
}

fn date(unit: DateUnit) -> FieldType
    ensures { IsTypeTable result (plain (date_of unit)) }
{
    FieldType::Date(Date { unit })
}

fn time32(unit: TimeUnit) -> FieldType
    requires { IsWritableType (plain (time32 unit)) }
    ensures { IsTypeTable result (plain (time32 unit)) }
{
    FieldType::Time(Time {
        unit: unit_tag(unit),
        bit_width: 32,
    })
}

fn time64(unit: TimeUnit) -> FieldType
    requires { IsWritableType (plain (time64 unit)) }
    ensures { IsTypeTable result (plain (time64 unit)) }
{
    FieldType::Time(Time {
        unit: unit_tag(unit),
        bit_width: 64,
    })
}

fn timestamp(unit: TimeUnit, zone: &Option<String>) -> Result<FieldType, AllocError>
    ensures { IfOk result (λ table. IsTypeTable table (plain (timestamp unit (text_of zone.now)))) }
{
    let timezone = zone.clone()?;
    Ok(FieldType::Timestamp(Timestamp {
        unit: unit_tag(unit),
        timezone,
    }))
}

fn interval(unit: IntervalUnit) -> FieldType
    ensures { IsTypeTable result (plain (interval unit)) }
{
    FieldType::Interval(Interval {
        unit: interval_tag(unit),
    })
}

fn duration(unit: TimeUnit) -> FieldType
    ensures { IsTypeTable result (plain (duration unit)) }
{
    FieldType::Duration(Duration {
        unit: unit_tag(unit),
    })
}

fn fixed_binary(size: usize) -> FieldType
    requires { IsShort size }
    ensures { IsTypeTable result (plain (fixed_binary size)) }
{
    FieldType::FixedSizeBinary(FixedSizeBinary {
        byte_width: short(size),
    })
}

fn decimal(precision: usize, scale: usize) -> FieldType
    requires precision { IsShort precision }
    requires scale { IsShort scale }
    ensures { IsTypeTable result (plain (decimal precision scale)) }
{
    FieldType::Decimal(Decimal {
        precision: short(precision),
        scale: short(scale),
        bit_width: 128,
    })
}

fn decimal256(precision: usize, scale: usize) -> FieldType
    requires precision { IsShort precision }
    requires scale { IsShort scale }
    ensures { IsTypeTable result (plain (decimal256 precision scale)) }
{
    FieldType::Decimal(Decimal {
        precision: short(precision),
        scale: short(scale),
        bit_width: 256,
    })
}

fn fixed_list(size: usize) -> FieldType
    requires { IsShort size }
    ensures { IsSingleTable result (fixed_list size) }
{
    FieldType::FixedSizeList(FixedSizeList {
        list_size: short(size),
    })
}

fn map(keys_sorted: bool) -> FieldType
    ensures { IsSingleTable result (entries keys_sorted) }
{
    FieldType::Map(Map { keys_sorted })
}

fn clone_ids(type_ids: &Option<Vec<i32>>) -> Result<Option<Vec<i32>>, AllocError>
    ensures { IfOk result (λ copy. ids_of copy ≡ ids_of type_ids.now) }
{
    match type_ids {
        None => Ok(None),
        Some(type_ids) => Ok(Some(type_ids.clone()?)),
    }
}

fn union(type_ids: &Option<Vec<i32>>, mode: UnionMode) -> Result<FieldType, AllocError>
    requires { AreShortIds (ids_of type_ids.now) }
    ensures { IfOk result (λ table. IsGroupTable table (choice (ids_of type_ids.now) mode)) }
{
    let type_ids = clone_ids(type_ids)?;
    Ok(FieldType::Union(Union {
        mode: mode_tag(mode),
        type_ids,
    }))
}

/// Returns the table of a type, without its children.
///
/// A dictionary has the table of its values, and an extension that of its storage type.
pub(crate) fn serialize_type(data_type: &DataType) -> Result<FieldType, AllocError>
    requires { IsWritableType (type_view data_type.now) }
    ensures { IfOk result (λ table. IsTypeTable table (type_view data_type.now)) }
{
    match data_type {
        DataType::Null => Ok(FieldType::Null),
        DataType::Boolean => Ok(FieldType::Bool),
        DataType::Int8 => Ok(int(IntegerType::Int8)),
        DataType::Int16 => Ok(int(IntegerType::Int16)),
        DataType::Int32 => Ok(int(IntegerType::Int32)),
        DataType::Int64 => Ok(int(IntegerType::Int64)),
        DataType::UInt8 => Ok(int(IntegerType::UInt8)),
        DataType::UInt16 => Ok(int(IntegerType::UInt16)),
        DataType::UInt32 => Ok(int(IntegerType::UInt32)),
        DataType::UInt64 => Ok(int(IntegerType::UInt64)),
        DataType::Float16 | DataType::Float32 | DataType::Float64 => unreachable!(),
        DataType::Timestamp(unit, zone) => timestamp(*unit, zone),
        DataType::Date32 => Ok(date(DateUnit::Day)),
        DataType::Date64 => Ok(date(DateUnit::Millisecond)),
        DataType::Time32(unit) => Ok(time32(*unit)),
        DataType::Time64(unit) => Ok(time64(*unit)),
        DataType::Duration(unit) => Ok(duration(*unit)),
        DataType::Interval(unit) => Ok(interval(*unit)),
        DataType::Binary => Ok(FieldType::Binary),
        DataType::FixedSizeBinary(size) => Ok(fixed_binary(*size)),
        DataType::LargeBinary => Ok(FieldType::LargeBinary),
        DataType::Utf8 => Ok(FieldType::Utf8),
        DataType::LargeUtf8 => Ok(FieldType::LargeUtf8),
        DataType::List(_) => Ok(FieldType::List),
        DataType::FixedSizeList(_, size) => Ok(fixed_list(*size)),
        DataType::LargeList(_) => Ok(FieldType::LargeList),
        DataType::Struct(_) => Ok(FieldType::Struct),
        DataType::Union(_, type_ids, mode) => union(type_ids, *mode),
        DataType::Map(_, keys_sorted) => Ok(map(*keys_sorted)),
        DataType::Dictionary(_, inner, _) | DataType::Extension(_, inner, _) => {
            serialize_type(inner)
        }
        DataType::Decimal(precision, scale) => Ok(decimal(*precision, *scale)),
        DataType::Decimal256(precision, scale) => Ok(decimal256(*precision, *scale)),
    }
}
