//! Reads the pairs of texts of schemas and fields.
//!
//! Arrow columnar format, "Custom Application Metadata"; `custom_metadata` of `Schema.fbs`.
ghost use Rattle.std.specs.Prelude.{◌≡◌, [], IfOk, option_map};
ghost use Rattle.lower.specs.Normal.{with_pair};
ghost use Rattle.lower.specs.TypeViews.{pairs_of};
ghost use Rattle.ipc_table_views.specs.SchemaSlots.{field_custom_metadata, schema_custom_metadata};
ghost use Rattle.ipc_model.specs.Schemas.{given, made, pairs_at, pairs_from, with_key_value};

use ipc_table_views::{FieldRef, KeyValueRef, KeyValueTable, SchemaRef, Tables};
use lower::datatypes::Metadata;
use std::alloc::{AllocError, Global};
use std::collections::BTreeMap;

// Adds a pair, and replaces one with its key.
fn put(alloc: Global, pairs: &mut Metadata, key: &str, value: &str) -> Result<(), AllocError>
    ensures { IfOk result (λ _. pairs_of pairs.new.entries
        ≡ with_pair key.now value.now (pairs_of pairs.old.entries)) }
{
    let key = String::from_str(alloc, key)?;
    let value = String::from_str(alloc, value)?;
    drop(pairs.insert(key, value)?);
    Ok(())
}

// Adds the pair of a table. None if it is malformed. A pair without a key or a value is skipped.
fn with_key_value(
    alloc: Global,
    pair: &KeyValueRef<'_>,
    pairs: Metadata,
) -> Result<Option<Metadata>, AllocError>
    ensures { IfOk result (λ r. option_map (λ m. pairs_of m.entries) r
        ≡ with_key_value pair.now (pairs_of pairs.entries)) }
{
    let mut pairs = pairs;
    let Ok(key) = pair.key() else {
        return Ok(None);
    };
    let Ok(value) = pair.value() else {
        return Ok(None);
    };
    if let Some(key) = key {
        if let Some(value) = value {
            put(alloc, &mut pairs, key, value)?;
        }
    }
    Ok(Some(pairs))
}

// The pairs of all tables. None if one is malformed.
fn pairs_from(
    alloc: Global,
    tables: &Tables<'_, KeyValueTable>,
) -> Result<Option<Metadata>, AllocError>
    ensures { IfOk result (λ r. option_map (λ m. pairs_of m.entries) r
        ≡ pairs_from tables.now 0 tables.now.count []) }
{
    let mut pairs = BTreeMap::new(alloc);
    for i in 0..tables.len() {
        let Ok(pair) = tables.get(i) else {
            return Ok(None);
        };
        let Some(after) = with_key_value(alloc, &pair, pairs)? else {
            return Ok(None);
        };
        pairs = after;
    }
    Ok(Some(pairs))
}

/// The pairs of a field. None if they are malformed.
#[tactic(auto, unfolding(ipc_model::specs::Schemas::pairs_at))]
pub(crate) fn pairs_of_field(
    alloc: Global,
    field: &FieldRef<'_>,
) -> Result<Option<Metadata>, AllocError>
    ensures { IfOk result (λ r. option_map (λ m. pairs_of m.entries) r
        ≡ given (made (field_custom_metadata field.now)) pairs_at) }
{
    match field.custom_metadata() {
        Ok(Some(tables)) => pairs_from(alloc, &tables),
        Ok(None) => Ok(Some(BTreeMap::new(alloc))),
        Err(_) => Ok(None),
    }
}

/// The pairs of a schema. None if they are malformed.
#[tactic(auto, unfolding(ipc_model::specs::Schemas::pairs_at))]
pub(crate) fn pairs_of_schema(
    alloc: Global,
    schema: &SchemaRef<'_>,
) -> Result<Option<Metadata>, AllocError>
    ensures { IfOk result (λ r. option_map (λ m. pairs_of m.entries) r
        ≡ given (made (schema_custom_metadata schema.now)) pairs_at) }
{
    match schema.custom_metadata() {
        Ok(Some(tables)) => pairs_from(alloc, &tables),
        Ok(None) => Ok(Some(BTreeMap::new(alloc))),
        Err(_) => Ok(None),
    }
}
