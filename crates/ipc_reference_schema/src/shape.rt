//! Reads the table of a type, without the children.
//!
//! Arrow columnar format, "Data Types"; the tables are those of `Schema.fbs`.
ghost use Rattle.std.specs.Prelude.{◌≡◌, option_map};
ghost use Rattle.ipc_table_views.specs.Unions.{type_parts};
ghost use Rattle.ipc_model.specs.Schemas;
ghost use Rattle.ipc_reference_schema.specs.Shapes.{form_at, group_of, leaf_of, shape_of, single_of};

use crate::seen::made;
use ipc_table_views::{DecimalRef, IntRef, TimeRef, TimeUnit, TimestampRef, TypeRef};
use lower::datatypes::IntegerType;

/// A type without children.
#[derive(Clone, Copy)]
pub(crate) enum Leaf {
    Int(IntegerType),
    Utf8,
    OtherLeaf,
}

/// A type with one child.
#[derive(Clone, Copy)]
pub(crate) enum Single {
    List,
    OtherSingle,
}

/// A type with several children.
#[derive(Clone, Copy)]
pub(crate) enum Group {
    Struct,
    OtherGroup,
}

/// A type without its children.
#[derive(Clone, Copy)]
pub(crate) enum Shape {
    Leaf(Leaf),
    Single(Single),
    Group(Group),
}

fn integer_of(width: i32, is_signed: bool) -> Option<IntegerType>
    ensures { result ≡ Schemas.integer_of width is_signed }
{
    match (width, is_signed) {
        (8, true) => Some(IntegerType::Int8),
        (16, true) => Some(IntegerType::Int16),
        (32, true) => Some(IntegerType::Int32),
        (64, true) => Some(IntegerType::Int64),
        (8, false) => Some(IntegerType::UInt8),
        (16, false) => Some(IntegerType::UInt16),
        (32, false) => Some(IntegerType::UInt32),
        (64, false) => Some(IntegerType::UInt64),
        _ => None,
    }
}

/// The integer type in a table. None if there is none of its width.
#[tactic(auto, unfolding(ipc_model::specs::Schemas::integer_at))]
pub(crate) fn integer_at(int: &IntRef<'_>) -> Option<IntegerType>
    ensures { result ≡ Schemas.integer_at int.now }
{
    let width = made(int.bit_width())?;
    let is_signed = made(int.is_signed())?;
    integer_of(width, is_signed)
}

// Decimals of 128 or 256 bits.
#[tactic(auto, unfolding(ipc_model::specs::Schemas::decimal_at))]
fn decimal_at(decimal: &DecimalRef<'_>) -> Option<Leaf>
    ensures { result ≡ option_map leaf_of (Schemas.decimal_at decimal.now) }
{
    let precision = made(decimal.precision())?;
    if precision < 0 {
        return None;
    }
    let scale = made(decimal.scale())?;
    if scale < 0 {
        return None;
    }
    match made(decimal.bit_width())? {
        128 | 256 => Some(Leaf::OtherLeaf),
        _ => None,
    }
}

// Times of the day, whose width must fit their unit.
#[tactic(auto, unfolding(ipc_model::specs::Schemas::plain_at))]
fn time_at(time: &TimeRef<'_>) -> Option<Leaf>
    ensures { result ≡ option_map leaf_of (Schemas.plain_at 9 time.now) }
{
    let unit = made(time.unit())?;
    let width = made(time.bit_width())?;
    match (unit, width) {
        (TimeUnit::Second, 32) => Some(Leaf::OtherLeaf),
        (TimeUnit::Millisecond, 32) => Some(Leaf::OtherLeaf),
        (TimeUnit::Microsecond, 64) => Some(Leaf::OtherLeaf),
        (TimeUnit::Nanosecond, 64) => Some(Leaf::OtherLeaf),
        _ => None,
    }
}

// Timestamps, with or without a time zone.
#[tactic(auto, unfolding(ipc_model::specs::Schemas::plain_at))]
fn timestamp_at(timestamp: &TimestampRef<'_>) -> Option<Leaf>
    ensures { result ≡ option_map leaf_of (Schemas.plain_at 10 timestamp.now) }
{
    made(timestamp.unit())?;
    made(timestamp.timezone())?;
    Some(Leaf::OtherLeaf)
}

// A size that isn't negative.
fn size_of(size: i32) -> Option<usize>
    ensures { result ≡ Schemas.size_of size }
{
    if size < 0 {
        return None;
    }
    Some(size as usize)
}

// The type without children in a table. None if it has none.
#[tactic(auto, using(crate::proofs::Leaves::leaves), unfolding(ipc_model::specs::Schemas::plain_at))]
fn leaf_at(type_: &TypeRef<'_>) -> Option<Leaf>
    ensures { result ≡ option_map leaf_of (Schemas.plain_at (type_parts type_.now).0 (type_parts type_.now).1) }
{
    match type_ {
        TypeRef::Int(int) => return Some(Leaf::Int(integer_at(int)?)),
        TypeRef::Utf8(_) => return Some(Leaf::Utf8),
        TypeRef::Decimal(decimal) => return decimal_at(decimal),
        TypeRef::Time(time) => return time_at(time),
        TypeRef::Timestamp(timestamp) => return timestamp_at(timestamp),
        TypeRef::FloatingPoint(float) => drop(made(float.precision())?),
        TypeRef::Date(date) => drop(made(date.unit())?),
        TypeRef::Interval(interval) => drop(made(interval.unit())?),
        TypeRef::Duration(duration) => drop(made(duration.unit())?),
        TypeRef::FixedSizeBinary(binary) => drop(size_of(made(binary.byte_width())?)?),
        TypeRef::Null(_) | TypeRef::Bool(_) | TypeRef::Binary(_) => {}
        TypeRef::LargeBinary(_) | TypeRef::LargeUtf8(_) => {}
        _ => return None,
    }
    Some(Leaf::OtherLeaf)
}

// The type with one child in a table. None if it has none.
#[tactic(auto, unfolding(ipc_model::specs::Schemas::single_at))]
fn single_at(type_: &TypeRef<'_>) -> Option<Single>
    ensures { result ≡ option_map single_of (Schemas.single_at (type_parts type_.now).0 (type_parts type_.now).1) }
{
    match type_ {
        TypeRef::List(_) => Some(Single::List),
        TypeRef::LargeList(_) => Some(Single::OtherSingle),
        TypeRef::FixedSizeList(list) => {
            size_of(made(list.list_size())?)?;
            Some(Single::OtherSingle)
        }
        TypeRef::Map(map) => {
            made(map.keys_sorted())?;
            Some(Single::OtherSingle)
        }
        _ => None,
    }
}

// The type with several children in a table. None if it has none.
#[tactic(auto, unfolding(ipc_model::specs::Schemas::group_at))]
fn group_at(type_: &TypeRef<'_>) -> Option<Group>
    ensures { result ≡ option_map group_of (Schemas.group_at (type_parts type_.now).0 (type_parts type_.now).1) }
{
    match type_ {
        TypeRef::Struct(_) => Some(Group::Struct),
        TypeRef::Union(union) => {
            made(union.mode())?;
            made(union.type_ids())?;
            Some(Group::OtherGroup)
        }
        _ => None,
    }
}

/// The type in a table. None if it is malformed.
pub(crate) fn shape_at(type_: &TypeRef<'_>) -> Option<Shape>
    ensures { result ≡ option_map shape_of (form_at (type_parts type_.now)) }
{
    match type_ {
        TypeRef::List(_) | TypeRef::LargeList(_) | TypeRef::FixedSizeList(_) | TypeRef::Map(_) =>
            Some(Shape::Single(single_at(type_)?)),
        TypeRef::Struct(_) | TypeRef::Union(_) => Some(Shape::Group(group_at(type_)?)),
        _ => Some(Shape::Leaf(leaf_at(type_)?)),
    }
}
