//! The weight of a schema, which bounds the length of its message.
ghost use Rattle.std.specs.Prelude.{◌≡◌, ◌^◌, ◌≤◌, ◌↔◌, IsTrue, MatchOption, map};
ghost use Rattle.ipc_tables.specs.Weights.{features_weight, field_weight, ids_weight, pairs_weight, schema_weight, total, type_weight, zone_weight};
ghost use Rattle.ipc_schema_write.specs.WriterAnswers.{max_weight};

use ipc_tables::schema::{Feature, Field, KeyValue, Schema};
use ipc_tables::types::FieldType;

/// The greatest weight of a schema that is written: `2^30`.
pub const MAX_WEIGHT: u64 = 1 << 30;

// The weight of some pairs, or None if it is 2^64 or more.
fn weigh_pairs(pairs: &[KeyValue]) -> Option<u64>
    ensures { MatchOption result (2 ^ 64 ≤ pairs_weight pairs.now) (λ weight. weight ≡ pairs_weight pairs.now) }
{
    let mut sum = 0u64;
    for pair in pairs {
        let texts = (pair.key.len() as u64).checked_add(pair.value.len() as u64)?;
        sum = sum.checked_add(texts.checked_add(64)?)?;
    }
    Some(sum)
}

fn weigh_zone(zone: &Option<String>) -> u64
    ensures { result ≡ zone_weight zone.now }
{
    match zone {
        None => 0,
        Some(zone) => zone.len() as u64,
    }
}

fn weigh_ids(ids: &Option<Vec<i32>>) -> Option<u64>
    ensures { MatchOption result (2 ^ 64 ≤ ids_weight ids.now) (λ weight. weight ≡ ids_weight ids.now) }
{
    match ids {
        None => Some(0),
        Some(ids) => (ids.len() as u64).checked_mul(8),
    }
}

fn weigh_type(type_: &FieldType) -> Option<u64>
    ensures { MatchOption result (2 ^ 64 ≤ type_weight type_.now) (λ weight. weight ≡ type_weight type_.now) }
{
    match type_ {
        FieldType::Timestamp(timestamp) => Some(weigh_zone(&timestamp.timezone)),
        FieldType::Union(union) => weigh_ids(&union.type_ids),
        _ => Some(0),
    }
}

#[cycle(weights)]
#[tactic(auto, using(crate::proofs::FieldTables::weight_out))]
fn weigh_field(field: &Field) -> Option<u64>
    ensures { MatchOption result (2 ^ 64 ≤ field_weight field.now) (λ weight. weight ≡ field_weight field.now) }
{
    let name = (field.name.len() as u64).checked_add(512)?;
    let own = name.checked_add(weigh_type(&field.type_)?)?;
    let with_pairs = own.checked_add(weigh_pairs(&field.custom_metadata)?)?;
    with_pairs.checked_add(weigh_fields(&field.children)?)
}

#[cycle(weights)]
fn weigh_fields(fields: &[Field]) -> Option<u64>
    ensures { MatchOption result (2 ^ 64 ≤ total (map field_weight fields.now)) (λ weight. weight ≡ total (map field_weight fields.now)) }
{
    let mut sum = 0u64;
    for field in fields {
        sum = sum.checked_add(weigh_field(field)?)?;
    }
    Some(sum)
}

fn weigh_features(features: &Option<Vec<Feature>>) -> Option<u64>
    ensures { MatchOption result (2 ^ 64 ≤ features_weight features.now) (λ weight. weight ≡ features_weight features.now) }
{
    match features {
        None => Some(0),
        Some(features) => (features.len() as u64).checked_mul(8),
    }
}

/// Returns the weight of a schema, or `None` if it is `2^64` or more.
///
/// The message of the schema is at most this long, in bytes. The weight is the sum of these:
///
/// - 1,024.
/// - For each field at any level: 512, the length of its name and of its timezone in bytes, and 8
///   for each type id of a union.
/// - For each pair of metadata of the schema and of the fields: 64, and the length of its key and
///   its value in bytes.
/// - 8 for each feature.
pub fn weigh_schema(schema: &Schema) -> Option<u64>
    ensures { MatchOption result (2 ^ 64 ≤ schema_weight schema.now)
        (λ weight. weight ≡ schema_weight schema.now) }
{
    let own = weigh_pairs(&schema.custom_metadata)?.checked_add(1024)?;
    let with_fields = own.checked_add(weigh_fields(&schema.fields)?)?;
    with_fields.checked_add(weigh_features(&schema.features)?)
}

/// Returns whether the weight of a schema is at most [`MAX_WEIGHT`].
pub(crate) fn is_light(schema: &Schema) -> bool
    ensures { IsTrue result ↔ (schema_weight schema.now ≤ max_weight) }
{
    match weigh_schema(schema) {
        Some(weight) => weight <= MAX_WEIGHT,
        None => false,
    }
}
