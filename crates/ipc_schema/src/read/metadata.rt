//! Key-value metadata of schemas and fields, and extensions that those of a field name.
//!
//! Arrow columnar format, "Extension Types"; `custom_metadata` of `Schema.fbs`.
ghost use Rattle.std.specs.Prelude.{◌≡◌, [], IfOk, option_map, string_bytes};
ghost use Rattle.lower.specs.TypeViews.{type_view, pairs_of};
ghost use Rattle.ipc_model.specs.Schemas.{made, given, pairs_from, pairs_at, value_under, with_extension};
ghost use Rattle.ipc_table_views.specs.SchemaSlots.{field_custom_metadata, schema_custom_metadata};
ghost use Rattle.ipc_schema.specs.Reading.{AnswersMeaning};

use crate::read::pairs::{PairsFault, read_pairs};
use crate::read::types::in_schema;
use ipc_base::fault::{Fault, SchemaFault};
use ipc_table_views::{FieldRef, KeyValueTable, SchemaRef, Tables};
use lower::datatypes::{DataType, Metadata};
use std::alloc::{AllocError, Global};
use std::collections::BTreeMap;

/// The key of the name of a field's extension type.
const NAME_KEY: &str = "ARROW:extension:name";

/// The key of the metadata of a field's extension type.
const DATA_KEY: &str = "ARROW:extension:metadata";

// The pairs of a vector of tables. A malformed one is a fault of the schema.
fn pairs_in_schema(alloc: Global, tables: &Tables<'_, KeyValueTable>) -> Result<Metadata, Fault>
    ensures { AnswersMeaning (λ pairs. pairs_of pairs.entries) result
        (pairs_from tables.now 0 tables.now.count []) }
{
    match read_pairs(alloc, tables) {
        Ok(pairs) => Ok(pairs),
        Err(PairsFault::Table(fault)) => Err(Fault::Schema(SchemaFault::Table(fault))),
        Err(PairsFault::Memory) => Err(Fault::Memory),
    }
}

/// Returns the pairs of a field, none without a vector of them.
#[tactic(auto, unfolding(ipc_model::specs::Schemas::pairs_at))]
pub(crate) fn read_metadata(alloc: Global, field: &FieldRef<'_>) -> Result<Metadata, Fault>
    ensures { AnswersMeaning (λ pairs. pairs_of pairs.entries) result
        (given (made (field_custom_metadata field.now)) pairs_at) }
{
    match in_schema(field.custom_metadata())? {
        Some(tables) => pairs_in_schema(alloc, &tables),
        None => Ok(BTreeMap::new(alloc)),
    }
}

/// Returns the pairs of a schema, none without a vector of them.
#[tactic(auto, unfolding(ipc_model::specs::Schemas::pairs_at))]
pub(crate) fn read_schema_metadata(alloc: Global, schema: &SchemaRef<'_>) -> Result<Metadata, Fault>
    ensures { AnswersMeaning (λ pairs. pairs_of pairs.entries) result
        (given (made (schema_custom_metadata schema.now)) pairs_at) }
{
    match in_schema(schema.custom_metadata())? {
        Some(tables) => pairs_in_schema(alloc, &tables),
        None => Ok(BTreeMap::new(alloc)),
    }
}

fn value_under<'a>(pairs: &'a Metadata, key: &str) -> Option<&'a String>
    ensures { option_map (λ s. string_bytes s.now) result
        ≡ value_under key.now (pairs_of pairs.now.entries) }
{
    pairs.get(key)
}

/// Returns the type, as an extension if the pairs of its field name one.
pub(crate) fn with_extension(
    alloc: Global,
    pairs: &Metadata,
    data_type: DataType,
) -> Result<DataType, AllocError>
    ensures { IfOk result (λ extended. type_view extended
        ≡ with_extension (pairs_of pairs.now.entries) (type_view data_type)) }
{
    let Some(name) = value_under(pairs, NAME_KEY) else {
        return Ok(data_type);
    };
    let text = match value_under(pairs, DATA_KEY) {
        Some(text) => Some(text.clone()?),
        None => None,
    };
    let storage = Box::new(alloc, data_type)?;
    Ok(DataType::Extension(name.clone()?, storage, text))
}
