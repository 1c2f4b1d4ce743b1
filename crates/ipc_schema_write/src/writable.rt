//! Which types can be written.
//!
//! Arrow columnar format, "Data Types".
ghost use Rattle.std.specs.Prelude.{◌≡◌, ◌↔◌, ◌<◌, IsTrue, Some, not};
ghost use Rattle.std.specs.List.{list_all};
ghost use Rattle.std.specs.Ordering.{int_eq};
ghost use Rattle.lower.specs.TypeTrees.{time32, time64};
ghost use Rattle.lower.specs.TypeViews.{fields_view, ids_of, type_view};
ghost use Rattle.ipc_model.specs.Columns.{IsUnionKind};
ghost use Rattle.ipc_model.specs.Tests.{are_distinct, are_ids, is_index};
ghost use Rattle.ipc_model.specs.Writable.{AreWritable, IsPairType, IsPlainStorage, IsPlainValue, IsShort, IsWritablePlain, IsWritableType};

use lower::datatypes::{DataType, Field, TimeUnit};

// Whether a size fits a signed 32-bit number.
fn is_short(size: usize) -> bool
    ensures { IsTrue result ↔ IsShort size }
{
    size <= i32::MAX as usize
}

// Whether a size fits a signed 32-bit number, and isn't 0.
fn is_size(size: usize) -> bool
    ensures { IsTrue result ↔ ((0 < size) × IsShort size) }
{
    size > 0 && is_short(size)
}

// Whether 32 bits are used for this unit of a time of day.
fn is_short_time(unit: TimeUnit) -> bool
    ensures { IsTrue result ↔ IsWritablePlain (time32 unit) }
{
    match unit {
        TimeUnit::Second | TimeUnit::Millisecond => true,
        TimeUnit::Microsecond | TimeUnit::Nanosecond => false,
    }
}

// Whether 64 bits are used for this unit of a time of day.
fn is_long_time(unit: TimeUnit) -> bool
    ensures { IsTrue result ↔ IsWritablePlain (time64 unit) }
{
    match unit {
        TimeUnit::Second | TimeUnit::Millisecond => false,
        TimeUnit::Microsecond | TimeUnit::Nanosecond => true,
    }
}

// Whether the id isn't among the others.
fn is_apart(id: i32, others: &[i32]) -> bool
    ensures { result ≡ list_all (λ y. not (int_eq id y)) others.now }
{
    for other in others {
        if id == *other {
            return false;
        }
    }
    true
}

// Whether no id occurs twice.
fn are_distinct(ids: &[i32]) -> bool
    ensures { result ≡ are_distinct ids.now }
{
    for index in 0..ids.len() {
        if !is_apart(ids[index], &ids[index + 1..]) {
            return false;
        }
    }
    true
}

fn is_id(id: i32) -> bool
    ensures { result ≡ is_index id 127 }
{
    id >= 0 && id < 127
}

// Whether each id is from 0 to 126.
fn are_indices(ids: &[i32]) -> bool
    ensures { result ≡ list_all (λ x. is_index x 127) ids.now }
{
    for id in ids {
        if !is_id(*id) {
            return false;
        }
    }
    true
}

// Whether the type is a struct of two fields.
fn is_pair_type(data_type: &DataType) -> bool
    ensures { IsTrue result ↔ IsPairType (type_view data_type.now) }
{
    match data_type {
        DataType::Struct(fields) => fields.len() == 2,
        _ => false,
    }
}

// Whether the type isn't a dictionary.
fn is_plain_value(data_type: &DataType) -> bool
    ensures { IsTrue result ↔ IsPlainValue (type_view data_type.now) }
{
    !matches!(data_type, DataType::Dictionary(..))
}

// Whether the type is neither a dictionary nor an extension.
fn is_plain_storage(data_type: &DataType) -> bool
    ensures { IsTrue result ↔ IsPlainStorage (type_view data_type.now) }
{
    !matches!(
        data_type,
        DataType::Dictionary(..) | DataType::Extension(..)
    )
}

// Whether there are as many ids as children, distinct and from 0 to 126.
fn are_ids(ids: &[i32], count: usize) -> bool
    ensures { result ≡ are_ids (Some ids.now) count }
{
    ids.len() == count && are_distinct(ids) && are_indices(ids)
}

fn has_ids(type_ids: &Option<Vec<i32>>, count: usize) -> bool
    ensures { result ≡ are_ids (ids_of type_ids.now) count }
{
    match type_ids {
        None => true,
        Some(type_ids) => are_ids(type_ids, count),
    }
}

// Whether a union can have this number of children with these ids.
fn is_union(type_ids: &Option<Vec<i32>>, count: usize) -> bool
    ensures { IsTrue result ↔ IsUnionKind (ids_of type_ids.now) count }
{
    if count == 0 {
        return false;
    }
    if count > 127 {
        return false;
    }
    has_ids(type_ids, count)
}

#[cycle(writable)]
fn is_writable_type(data_type: &DataType) -> bool
    ensures { IsTrue result ↔ IsWritableType (type_view data_type.now) }
{
    match data_type {
        DataType::Float16 | DataType::Float32 | DataType::Float64 => false,
        DataType::Time32(unit) => is_short_time(*unit),
        DataType::Time64(unit) => is_long_time(*unit),
        DataType::FixedSizeBinary(size) => is_size(*size),
        DataType::Decimal(precision, scale) | DataType::Decimal256(precision, scale) => {
            is_short(*precision) && is_short(*scale)
        }
        DataType::List(child) | DataType::LargeList(child) => is_writable_type(&child.data_type),
        DataType::FixedSizeList(child, size) => {
            is_size(*size) && is_writable_type(&child.data_type)
        }
        DataType::Map(child, _) => {
            is_pair_type(&child.data_type) && is_writable_type(&child.data_type)
        }
        DataType::Struct(fields) => fields.len() >= 1 && are_writable(fields),
        DataType::Union(fields, type_ids, _) => {
            is_union(type_ids, fields.len()) && are_writable(fields)
        }
        DataType::Dictionary(_, values, _) => is_plain_value(values) && is_writable_type(values),
        DataType::Extension(_, inner, _) => is_plain_storage(inner) && is_writable_type(inner),
        _ => true,
    }
}

/// Returns whether the types of the fields can be written, at every level.
#[cycle(writable)]
pub(crate) fn are_writable(fields: &[Field]) -> bool
    ensures { IsTrue result ↔ AreWritable (fields_view fields.now) }
{
    for field in fields {
        if !is_writable_type(&field.data_type) {
            return false;
        }
    }
    true
}
