//! Whether two types have the same normal form, without building it.
ghost use Rattle.std.specs.Prelude.{◌≡◌, ◌↔◌, ◌∷◌, [], ◌||◌, true, IsTrue, MatchOption, string_bytes};
ghost use Rattle.lower.specs.TypeViews.{type_view, field_view, fields_view, pairs_of, ids_of};
ghost use Rattle.lower.specs.Normal.{norm, norm_field, norm_fields, norm_pairs, kept_pairs, is_extension_key};
ghost use Rattle.lower.specs.Same.{same_option, same_type, same_field, same_fields, same_pairs};

use super::normal::{DATA_KEY, NAME_KEY};
use super::{DataType, Field, Metadata, is_same_type};
use std::collections::btree_map;

/// Returns whether two types have the same normal form.
///
/// They may differ in what the metadata of their fields say of extensions. It allocates nothing.
pub fn is_same_normal_type(data_type: &DataType, other: &DataType) -> bool
    ensures { IsTrue result ↔ norm (type_view data_type.now) ≡ norm (type_view other.now) }
{
    has_same_normal(data_type, other)
}

// Compares level by level.
#[cycle(same_normal)]
fn has_same_normal(data_type: &DataType, other: &DataType) -> bool
    ensures { result ≡ same_type (norm (type_view data_type.now)) (norm (type_view other.now)) }
{
    match data_type {
        DataType::List(field) => match other {
            DataType::List(child) => has_same_field(field, child),
            _ => false,
        },
        DataType::LargeList(field) => match other {
            DataType::LargeList(child) => has_same_field(field, child),
            _ => false,
        },
        DataType::FixedSizeList(field, size) => match other {
            DataType::FixedSizeList(child, count) => *size == *count
                && has_same_field(field, child),
            _ => false,
        },
        DataType::Map(field, sorted) => match other {
            DataType::Map(child, ordered) => *sorted == *ordered && has_same_field(field, child),
            _ => false,
        },
        DataType::Struct(fields) => match other {
            DataType::Struct(children) => has_same_fields(fields, children),
            _ => false,
        },
        DataType::Union(fields, ids, mode) => match other {
            DataType::Union(children, types, kind) => {
                *ids == *types && *mode == *kind && has_same_fields(fields, children)
            }
            _ => false,
        },
        DataType::Dictionary(keys, values, ordered) => match other {
            DataType::Dictionary(key, inner, sorted) => {
                *keys == *key && has_same_normal(values, inner) && *ordered == *sorted
            }
            _ => false,
        },
        DataType::Extension(name, inner, text) => match other {
            DataType::Extension(title, values, note) => {
                *name == *title && has_same_normal(inner, values) && *text == *note
            }
            _ => false,
        },
        _ => is_same_type(data_type, other),
    }
}

#[cycle(same_normal)]
fn has_same_field(field: &Field, other: &Field) -> bool
    ensures { result ≡ same_field (norm_field (field_view field.now)) (norm_field (field_view other.now)) }
{
    field.name == other.name
        && has_same_normal(&field.data_type, &other.data_type)
        && field.is_nullable == other.is_nullable
        && has_same_metadata(field, other)
}

#[cycle(same_normal)]
#[tactic(auto, using(crate::proofs::SameNormal::fields))]
fn has_same_fields(fields: &Vec<Field>, others: &Vec<Field>) -> bool
    ensures { result ≡ same_fields (norm_fields (fields_view fields.now.items)) (norm_fields (fields_view others.now.items)) }
{
    if fields.len() != others.len() {
        return false;
    }
    for i in 0..fields.len() {
        if !has_same_field(&fields[i], &others[i]) {
            return false;
        }
    }
    true
}

// Whether the metadata have the same normal form, for types that have: these add the same pairs.
fn has_same_metadata(field: &Field, other: &Field) -> bool
    requires { same_type (norm (type_view field.now.data_type)) (norm (type_view other.now.data_type)) ≡ true }
    ensures { result ≡ same_pairs
        (norm_pairs (type_view field.now.data_type) (pairs_of field.now.metadata.entries))
        (norm_pairs (type_view other.now.data_type) (pairs_of other.now.metadata.entries)) }
{
    has_same_pairs(&field.metadata, &other.metadata)
}

// Whether the pairs are the same, apart from those of extensions.
fn has_same_pairs(metadata: &Metadata, other: &Metadata) -> bool
    ensures { result ≡ same_pairs (kept_pairs (pairs_of metadata.now.entries)) (kept_pairs (pairs_of other.now.entries)) }
{
    let mut pairs = metadata.iter();
    let mut others = other.iter();
    while let Some((key, value)) = next_kept(&mut pairs) {
        match next_kept(&mut others) {
            Some((name, text)) => {
                if *key != *name || *value != *text {
                    return false;
                }
            }
            None => return false,
        }
    }
    next_kept(&mut others).is_none()
}

// The next pair that isn't one of an extension.
fn next_kept<'a>(
    pairs: &mut btree_map::Iter<'a, String, String>,
) -> Option<(&'a String, &'a String)>
    ensures { MatchOption result (kept_pairs (pairs_of pairs.old) ≡ [])
        (λ e. kept_pairs (pairs_of pairs.old) ≡ (string_bytes e.0.now, string_bytes e.1.now) ∷ kept_pairs (pairs_of pairs.new)) }
{
    while let Some((key, value)) = pairs.next() {
        if !is_extension_key(key) {
            return Some((key, value));
        }
    }
    None
}

// Whether the key is one of the two extension keys.
fn is_extension_key(key: &String) -> bool
    ensures { result ≡ is_extension_key (string_bytes key.now) }
{
    NAME_KEY.cmp(key.as_str()).is_eq() || DATA_KEY.cmp(key.as_str()).is_eq()
}
