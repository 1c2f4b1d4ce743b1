//! How many nodes and buffers columns have in a record batch.
//!
//! Arrow columnar format, "RecordBatch message": nodes and buffers are in pre-order, those of a
//! column before those of its children.
ghost use Rattle.std.specs.Prelude.{◌≡◌, ◌≤◌, ◌^◌, ◌↔◌, IsTrue, MatchOption};
ghost use Rattle.lower.specs.TypeViews.{type_view, fields_view};
ghost use Rattle.lower.specs.Counts.{nodes, fields_nodes, buffers, fields_buffers, levels, fields_levels, is_dictionary};

use super::{DataType, Field, UnionMode};

/// Returns the number of field nodes of a column of this type and its children.
///
/// It is `None` exactly if the number is `2^64` or more.
#[cycle(nodes)]
pub fn count_nodes(data_type: &DataType) -> Option<u64>
    ensures { MatchOption result
        (2 ^ 64 ≤ nodes (type_view data_type.now))
        (λ count. count ≡ nodes (type_view data_type.now)) }
{
    match data_type {
        DataType::List(field)
        | DataType::LargeList(field)
        | DataType::FixedSizeList(field, _)
        | DataType::Map(field, _) => 1u64.checked_add(count_nodes(&field.data_type)?),
        DataType::Struct(fields) | DataType::Union(fields, _, _) => {
            1u64.checked_add(count_all_nodes(fields)?)
        }
        DataType::Extension(_, inner, _) => count_nodes(inner),
        _ => Some(1),
    }
}

/// Returns the number of field nodes of all columns of these fields.
///
/// It is `None` exactly if the number is `2^64` or more.
#[cycle(nodes)]
pub fn count_all_nodes(fields: &[Field]) -> Option<u64>
    ensures { MatchOption result
        (2 ^ 64 ≤ fields_nodes (fields_view fields.now))
        (λ count. count ≡ fields_nodes (fields_view fields.now)) }
{
    let mut sum = 0u64;
    for field in fields {
        sum = sum.checked_add(count_nodes(&field.data_type)?)?;
    }
    Some(sum)
}

/// Returns the number of buffers of a column of this type and its children.
///
/// `extra` is the number of buffers that each union has in front of its own: 1 for metadata before
/// version 5 (a validity bitmap), else 0. The result is `None` exactly if the number is `2^64` or
/// more.
#[cycle(buffers)]
pub fn count_buffers(data_type: &DataType, extra: u64) -> Option<u64>
    requires { extra ≤ 1 }
    ensures { MatchOption result
        (2 ^ 64 ≤ buffers extra (type_view data_type.now))
        (λ count. count ≡ buffers extra (type_view data_type.now)) }
{
    match data_type {
        DataType::Null => Some(0),
        DataType::Binary | DataType::LargeBinary | DataType::Utf8 | DataType::LargeUtf8 => Some(3),
        DataType::List(field) | DataType::LargeList(field) | DataType::Map(field, _) => {
            2u64.checked_add(count_buffers(&field.data_type, extra)?)
        }
        DataType::FixedSizeList(field, _) => {
            1u64.checked_add(count_buffers(&field.data_type, extra)?)
        }
        DataType::Struct(fields) => 1u64.checked_add(count_all_buffers(fields, extra)?),
        DataType::Union(fields, _, mode) => {
            let own = match mode {
                UnionMode::Sparse => 1,
                UnionMode::Dense => 2,
            };
            (own + extra).checked_add(count_all_buffers(fields, extra)?)
        }
        DataType::Extension(_, inner, _) => count_buffers(inner, extra),
        _ => Some(2),
    }
}

/// Returns the number of buffers of all columns of these fields.
///
/// `extra` is that of [`count_buffers`]. The result is `None` exactly if the number is `2^64` or
/// more.
#[cycle(buffers)]
pub fn count_all_buffers(fields: &[Field], extra: u64) -> Option<u64>
    requires { extra ≤ 1 }
    ensures { MatchOption result
        (2 ^ 64 ≤ fields_buffers extra (fields_view fields.now))
        (λ count. count ≡ fields_buffers extra (fields_view fields.now)) }
{
    let mut sum = 0u64;
    for field in fields {
        sum = sum.checked_add(count_buffers(&field.data_type, extra)?)?;
    }
    Some(sum)
}

/// Returns whether the fields are nested at most `limit` levels deep.
///
/// The fields themselves are the first level. Dictionaries and extensions add no level.
#[cycle(levels)]
pub fn is_within_levels(fields: &[Field], limit: u64) -> bool
    ensures { IsTrue result ↔ fields_levels (fields_view fields.now) ≤ limit }
{
    for field in fields {
        if limit == 0 || !is_type_within_levels(&field.data_type, limit - 1) {
            return false;
        }
    }
    true
}

#[cycle(levels)]
fn is_type_within_levels(data_type: &DataType, limit: u64) -> bool
    ensures { IsTrue result ↔ levels (type_view data_type.now) ≤ limit }
{
    match data_type {
        DataType::List(field)
        | DataType::LargeList(field)
        | DataType::FixedSizeList(field, _)
        | DataType::Map(field, _) => {
            limit > 0 && is_type_within_levels(&field.data_type, limit - 1)
        }
        DataType::Struct(fields) | DataType::Union(fields, _, _) => is_within_levels(fields, limit),
        DataType::Dictionary(_, inner, _) | DataType::Extension(_, inner, _) => {
            is_type_within_levels(inner, limit)
        }
        _ => true,
    }
}

/// Returns whether the type, without its extensions, is a dictionary.
pub fn is_dictionary_type(data_type: &DataType) -> bool
    ensures { result ≡ is_dictionary (type_view data_type.now) }
{
    match data_type {
        DataType::Extension(_, inner, _) => is_dictionary_type(inner),
        DataType::Dictionary(..) => true,
        _ => false,
    }
}
