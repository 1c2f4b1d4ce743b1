//! The tables of Arrow's `Schema.fbs` that describe a type, as values that are encoded.
ghost use Rattle.std.specs.Prelude.{◌≡◌, ◌<◌, ◌^◌, IfOk, option_map, string_bytes};
ghost use Rattle.ipc_table_bytes.specs.Parts.{IsPart};
ghost use Rattle.ipc_table_bytes.specs.Tree.{no_slots, table, text};
ghost use Rattle.ipc_tables.specs.Slots.{IsOptional, bits32, number_slots};
ghost use Rattle.ipc_tables.specs.Types.{date_unit_number, decimal_slots, int_slots, interval_unit_number, map_slots, precision_number, time_slots, time_unit_number, timestamp_slots, type_slots, type_tag, union_mode_number, union_slots};

use crate::elements::{Element, elements_slot};
use crate::slots::{flag, word};
use ipc_table_bytes::{Built, Pool, Slot, put_u32, table, text};
use ipc_table_views::{DateUnit, IntervalUnit, Precision, TimeUnit, UnionMode};
use std::alloc::AllocError;

/// A table `Int`, as a value.
#[derive(Clone, Copy, Debug, PartialEq, Eq)]
pub struct Int {
    /// 8, 16, 32 or 64.
    pub bit_width: i32,
    pub is_signed: bool,
}

/// A table `FloatingPoint`, as a value.
#[derive(Clone, Copy, Debug, PartialEq, Eq)]
pub struct FloatingPoint {
    pub precision: Precision,
}

/// A table `Decimal`, as a value.
#[derive(Clone, Copy, Debug, PartialEq, Eq)]
pub struct Decimal {
    /// The number of decimal digits.
    pub precision: i32,
    /// The number of digits after the point.
    pub scale: i32,
    /// 128 or 256.
    pub bit_width: i32,
}

/// A table `Date`, as a value.
#[derive(Clone, Copy, Debug, PartialEq, Eq)]
pub struct Date {
    pub unit: DateUnit,
}

/// A table `Time`, as a value.
#[derive(Clone, Copy, Debug, PartialEq, Eq)]
pub struct Time {
    pub unit: TimeUnit,
    /// 32 or 64.
    pub bit_width: i32,
}

/// A table `Timestamp`, as a value.
#[derive(Drop)]
pub struct Timestamp {
    pub unit: TimeUnit,
    pub timezone: Option<String>,
}

/// A table `Interval`, as a value.
#[derive(Clone, Copy, Debug, PartialEq, Eq)]
pub struct Interval {
    pub unit: IntervalUnit,
}

/// A table `Union`, as a value.
#[derive(Drop)]
pub struct Union {
    pub mode: UnionMode,
    /// The type ids of the children, `None` for 0, 1, 2 and so on.
    pub type_ids: Option<Vec<i32>>,
}

/// A table `FixedSizeBinary`, as a value.
#[derive(Clone, Copy, Debug, PartialEq, Eq)]
pub struct FixedSizeBinary {
    pub byte_width: i32,
}

/// A table `FixedSizeList`, as a value.
#[derive(Clone, Copy, Debug, PartialEq, Eq)]
pub struct FixedSizeList {
    pub list_size: i32,
}

/// A table `Map`, as a value.
#[derive(Clone, Copy, Debug, PartialEq, Eq)]
pub struct Map {
    pub keys_sorted: bool,
}

/// A table `Duration`, as a value.
#[derive(Clone, Copy, Debug, PartialEq, Eq)]
pub struct Duration {
    pub unit: TimeUnit,
}

/// The type of a field: the union `Type`.
#[derive(Drop)]
pub enum FieldType {
    Null,
    Int(Int),
    FloatingPoint(FloatingPoint),
    Binary,
    Utf8,
    Bool,
    Decimal(Decimal),
    Date(Date),
    Time(Time),
    Timestamp(Timestamp),
    Interval(Interval),
    List,
    Struct,
    Union(Union),
    FixedSizeBinary(FixedSizeBinary),
    FixedSizeList(FixedSizeList),
    Map(Map),
    Duration(Duration),
    LargeBinary,
    LargeUtf8,
    LargeList,
}

fn precision_number(precision: Precision) -> u64
    ensures value { result ≡ precision_number precision }
    ensures small { result < 2 ^ 16 }
{
    match precision {
        Precision::Half => 0,
        Precision::Single => 1,
        Precision::Double => 2,
    }
}

fn date_unit_number(unit: DateUnit) -> u64
    ensures value { result ≡ date_unit_number unit }
    ensures small { result < 2 ^ 16 }
{
    match unit {
        DateUnit::Day => 0,
        DateUnit::Millisecond => 1,
    }
}

fn time_unit_number(unit: TimeUnit) -> u64
    ensures value { result ≡ time_unit_number unit }
    ensures small { result < 2 ^ 16 }
{
    match unit {
        TimeUnit::Second => 0,
        TimeUnit::Millisecond => 1,
        TimeUnit::Microsecond => 2,
        TimeUnit::Nanosecond => 3,
    }
}

fn interval_unit_number(unit: IntervalUnit) -> u64
    ensures value { result ≡ interval_unit_number unit }
    ensures small { result < 2 ^ 16 }
{
    match unit {
        IntervalUnit::YearMonth => 0,
        IntervalUnit::DayTime => 1,
        IntervalUnit::MonthDayNano => 2,
    }
}

fn union_mode_number(mode: UnionMode) -> u64
    ensures value { result ≡ union_mode_number mode }
    ensures small { result < 2 ^ 16 }
{
    match mode {
        UnionMode::Sparse => 0,
        UnionMode::Dense => 1,
    }
}

// The tag of a type in the union `Type`.
pub(crate) fn type_tag(type_: &FieldType) -> u64
    ensures value { result ≡ type_tag type_.now }
    ensures small { result < 256 }
{
    match type_ {
        FieldType::Null => 1,
        FieldType::Int(_) => 2,
        FieldType::FloatingPoint(_) => 3,
        FieldType::Binary => 4,
        FieldType::Utf8 => 5,
        FieldType::Bool => 6,
        FieldType::Decimal(_) => 7,
        FieldType::Date(_) => 8,
        FieldType::Time(_) => 9,
        FieldType::Timestamp(_) => 10,
        FieldType::Interval(_) => 11,
        FieldType::List => 12,
        FieldType::Struct => 13,
        FieldType::Union(_) => 14,
        FieldType::FixedSizeBinary(_) => 15,
        FieldType::FixedSizeList(_) => 16,
        FieldType::Map(_) => 17,
        FieldType::Duration(_) => 18,
        FieldType::LargeBinary => 19,
        FieldType::LargeUtf8 => 20,
        FieldType::LargeList => 21,
    }
}

fn empty_part(pool: &mut Pool) -> Result<Built, AllocError>
    ensures { IfOk result (λ built. IsPart built (table no_slots)) }
{
    table(pool, &[])
}

// A table of one enumeration.
fn unit_part(pool: &mut Pool, number: u64) -> Result<Built, AllocError>
    requires { number < 2 ^ 16 }
    ensures { IfOk result (λ built. IsPart built (table (number_slots 2 number))) }
{
    table(pool, &[Slot::Number(number)])
}

// A table of one signed 32-bit number.
fn width_part(pool: &mut Pool, width: i32) -> Result<Built, AllocError>
    ensures { IfOk result (λ built. IsPart built (table (number_slots 4 (bits32 width)))) }
{
    table(pool, &[Slot::Number(word(width))])
}

pub(crate) fn int_part(pool: &mut Pool, int: Int) -> Result<Built, AllocError>
    ensures { IfOk result (λ built. IsPart built (table (int_slots int))) }
{
    table(
        pool,
        &[
            Slot::Number(word(int.bit_width)),
            Slot::Number(flag(int.is_signed)),
        ],
    )
}

fn decimal_part(pool: &mut Pool, decimal: Decimal) -> Result<Built, AllocError>
    ensures { IfOk result (λ built. IsPart built (table (decimal_slots decimal))) }
{
    table(
        pool,
        &[
            Slot::Number(word(decimal.precision)),
            Slot::Number(word(decimal.scale)),
            Slot::Number(word(decimal.bit_width)),
        ],
    )
}

fn time_part(pool: &mut Pool, time: Time) -> Result<Built, AllocError>
    ensures { IfOk result (λ built. IsPart built (table (time_slots time))) }
{
    table(
        pool,
        &[
            Slot::Number(time_unit_number(time.unit)),
            Slot::Number(word(time.bit_width)),
        ],
    )
}

fn timezone_slot(pool: &mut Pool, timezone: &Option<String>) -> Result<Slot, AllocError>
    ensures { IfOk result (λ slot. IsOptional slot (option_map (λ s. text (string_bytes s)) timezone.now)) }
{
    match timezone {
        None => Ok(Slot::Absent),
        Some(timezone) => Ok(Slot::Offset(text(pool, timezone.as_str())?)),
    }
}

fn timestamp_part(pool: &mut Pool, timestamp: &Timestamp) -> Result<Built, AllocError>
    ensures { IfOk result (λ built. IsPart built (table (timestamp_slots timestamp.now))) }
{
    let timezone = timezone_slot(pool, &timestamp.timezone)?;
    table(
        pool,
        &[Slot::Number(time_unit_number(timestamp.unit)), timezone],
    )
}

impl Element for i32 {
    ghost use Rattle.std.proofs.Common.{refl};
    ghost use Rattle.ipc_tables.specs.Types.{id_bytes};
    ghost use Rattle.ipc_tables.specs.ElementLaws.{length-id, some-4};

    ghost size = { 4 };

    ghost align = { 4 };

    ghost spelt = { id_bytes };

    ghost sized = { length-id };

    ghost some = { some-4 };

    ghost aligned = { refl };

    fn len() -> usize {
        4
    }

    fn put(self, bytes: &mut Vec<u8>) -> Result<(), AllocError> {
        put_u32(bytes, self.cast_unsigned())
    }
}

fn union_part(pool: &mut Pool, union: &Union) -> Result<Built, AllocError>
    ensures { IfOk result (λ built. IsPart built (table (union_slots union.now))) }
{
    let ids = elements_slot(pool, &union.type_ids)?;
    table(pool, &[Slot::Number(union_mode_number(union.mode)), ids])
}

fn map_part(pool: &mut Pool, map: Map) -> Result<Built, AllocError>
    ensures { IfOk result (λ built. IsPart built (table (map_slots map))) }
{
    table(pool, &[Slot::Number(flag(map.keys_sorted))])
}

// The table of a type.
pub(crate) fn type_part(pool: &mut Pool, type_: &FieldType) -> Result<Built, AllocError>
    ensures { IfOk result (λ built. IsPart built (table (type_slots type_.now))) }
{
    match type_ {
        FieldType::Null => empty_part(pool),
        FieldType::Int(int) => int_part(pool, *int),
        FieldType::FloatingPoint(float) => unit_part(pool, precision_number(float.precision)),
        FieldType::Binary => empty_part(pool),
        FieldType::Utf8 => empty_part(pool),
        FieldType::Bool => empty_part(pool),
        FieldType::Decimal(decimal) => decimal_part(pool, *decimal),
        FieldType::Date(date) => unit_part(pool, date_unit_number(date.unit)),
        FieldType::Time(time) => time_part(pool, *time),
        FieldType::Timestamp(timestamp) => timestamp_part(pool, timestamp),
        FieldType::Interval(interval) => unit_part(pool, interval_unit_number(interval.unit)),
        FieldType::List => empty_part(pool),
        FieldType::Struct => empty_part(pool),
        FieldType::Union(union) => union_part(pool, union),
        FieldType::FixedSizeBinary(binary) => width_part(pool, binary.byte_width),
        FieldType::FixedSizeList(list) => width_part(pool, list.list_size),
        FieldType::Map(map) => map_part(pool, *map),
        FieldType::Duration(duration) => unit_part(pool, time_unit_number(duration.unit)),
        FieldType::LargeBinary => empty_part(pool),
        FieldType::LargeUtf8 => empty_part(pool),
        FieldType::LargeList => empty_part(pool),
    }
}
