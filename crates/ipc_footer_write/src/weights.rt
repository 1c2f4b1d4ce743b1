//! The weight of a footer, from its schema and its metadata. Nothing here allocates.
ghost use Rattle.std.specs.Prelude.{◌≡◌, ◌+◌, ◌^◌, ◌≤◌, ◌↔◌, IsTrue, MatchOption, Some, length, string_bytes};
ghost use Rattle.lower.specs.Normal.{kept_pairs, norm, norm_field, norm_fields, norm_pairs};
ghost use Rattle.lower.specs.TypeTrees.{choice};
ghost use Rattle.lower.specs.TypeViews.{field_view, fields_view, ids_of, pairs_of, text_of, type_view};
ghost use Rattle.ipc_model.specs.Writable.{field_weight, fields_weight, file_weight, group_weight, pairs_weight, text_weight, type_weight, weight};
ghost use Rattle.ipc_schema_write.specs.Meanings.{extension_pairs};
ghost use Rattle.ipc_schema_write.specs.WriterAnswers.{max_weight};

use ipc_schema_write::metadata::{DATA_KEY, NAME_KEY, extension_of, is_extension_key};
use ipc_schema_write::weights::MAX_WEIGHT;
use lower::datatypes::{DataType, Field, Metadata, Schema, UnionMode};

// Each of these functions returns None if the weight is 2^64 or more.
fn weigh_pair(key: &str, value: &str) -> Option<u64>
    ensures { MatchOption result
        (2 ^ 64 ≤ 64 + length key.now + length value.now)
        (λ n. n ≡ 64 + length key.now + length value.now) }
{
    let texts = (key.len() as u64).checked_add(value.len() as u64)?;
    texts.checked_add(64)
}

fn weigh_pairs(pairs: &Metadata) -> Option<u64>
    ensures { MatchOption result
        (2 ^ 64 ≤ pairs_weight (pairs_of pairs.now.entries))
        (λ n. n ≡ pairs_weight (pairs_of pairs.now.entries)) }
{
    let mut sum = 0u64;
    for (key, value) in pairs {
        sum = sum.checked_add(weigh_pair(key.as_str(), value.as_str())?)?;
    }
    Some(sum)
}

// The pairs that aren't an extension's.
fn weigh_kept(pairs: &Metadata) -> Option<u64>
    ensures { MatchOption result
        (2 ^ 64 ≤ pairs_weight (kept_pairs (pairs_of pairs.now.entries)))
        (λ n. n ≡ pairs_weight (kept_pairs (pairs_of pairs.now.entries))) }
{
    let mut sum = 0u64;
    for (key, value) in pairs {
        if !is_extension_key(key.as_str()) {
            sum = sum.checked_add(weigh_pair(key.as_str(), value.as_str())?)?;
        }
    }
    Some(sum)
}

// The pairs of an extension with this name and metadata.
fn weigh_extension(name: &String, text: &Option<String>) -> Option<u64>
    ensures { MatchOption result
        (2 ^ 64 ≤ pairs_weight (extension_pairs (Some (string_bytes name.now, text_of text.now))))
        (λ n. n ≡ pairs_weight (extension_pairs (Some (string_bytes name.now, text_of text.now)))) }
{
    let named = weigh_pair(NAME_KEY, name.as_str())?;
    match text {
        Some(text) => named.checked_add(weigh_pair(DATA_KEY, text.as_str())?),
        None => Some(named),
    }
}

// The metadata of a field of this type, in normal form.
#[tactic(auto, using(crate::proofs::NormalWeights::normal))]
fn weigh_normal(data_type: &DataType, metadata: &Metadata) -> Option<u64>
    ensures { MatchOption result
        (2 ^ 64 ≤ pairs_weight (norm_pairs (type_view data_type.now) (pairs_of metadata.now.entries)))
        (λ n. n ≡ pairs_weight (norm_pairs (type_view data_type.now) (pairs_of metadata.now.entries))) }
{
    let kept = weigh_kept(metadata)?;
    match extension_of(data_type) {
        Some((name, text)) => kept.checked_add(weigh_extension(name, text)?),
        None => Some(kept),
    }
}

fn weigh_zone(zone: &Option<String>) -> u64
    ensures { result ≡ text_weight (text_of zone.now) }
{
    match zone {
        None => 0,
        Some(zone) => zone.len() as u64,
    }
}

// The type ids of a union.
fn weigh_ids(ids: &Option<Vec<i32>>, mode: UnionMode) -> Option<u64>
    ensures { MatchOption result
        (2 ^ 64 ≤ group_weight (choice (ids_of ids.now) mode))
        (λ n. n ≡ group_weight (choice (ids_of ids.now) mode)) }
{
    match ids {
        None => Some(0),
        Some(ids) => (ids.len() as u64).checked_mul(8),
    }
}

// A type in normal form: its timezone or type ids, and its children.
#[cycle(weights)]
fn weigh_type(data_type: &DataType) -> Option<u64>
    ensures { MatchOption result
        (2 ^ 64 ≤ type_weight (norm (type_view data_type.now)))
        (λ n. n ≡ type_weight (norm (type_view data_type.now))) }
{
    match data_type {
        DataType::Timestamp(_, zone) => Some(weigh_zone(zone)),
        DataType::List(field)
        | DataType::LargeList(field)
        | DataType::FixedSizeList(field, _)
        | DataType::Map(field, _) => weigh_field(field),
        DataType::Struct(fields) => weigh_fields(fields),
        DataType::Union(fields, ids, mode) => {
            weigh_ids(ids, *mode)?.checked_add(weigh_fields(fields)?)
        }
        DataType::Dictionary(_, inner, _) | DataType::Extension(_, inner, _) => weigh_type(inner),
        _ => Some(0),
    }
}

#[cycle(weights)]
fn weigh_field(field: &Field) -> Option<u64>
    ensures { MatchOption result
        (2 ^ 64 ≤ field_weight (norm_field (field_view field.now)))
        (λ n. n ≡ field_weight (norm_field (field_view field.now))) }
{
    let name = (field.name.len() as u64).checked_add(512)?;
    let typed = name.checked_add(weigh_type(&field.data_type)?)?;
    typed.checked_add(weigh_normal(&field.data_type, &field.metadata)?)
}

#[cycle(weights)]
fn weigh_fields(fields: &[Field]) -> Option<u64>
    ensures { MatchOption result
        (2 ^ 64 ≤ fields_weight (norm_fields (fields_view fields.now)))
        (λ n. n ≡ fields_weight (norm_fields (fields_view fields.now))) }
{
    let mut sum = 0u64;
    for field in fields {
        sum = sum.checked_add(weigh_field(field)?)?;
    }
    Some(sum)
}

/// Returns the weight of a schema in normal form.
///
/// It is `None` if that is `2^64` or more. It is that of the tables which
/// [`serialize_schema`](ipc_schema_write::schema::serialize_schema) makes of the schema, if the
/// schema can be written: the sum of these.
///
/// - 1,024.
/// - For each field at any level: 512, the length of its name and of its timezone in bytes, and 8
///   for each type id of a union.
/// - For each pair of metadata of the schema and of the fields: 64, and the length of its key and
///   its value in bytes.
pub fn weigh_schema(schema: &Schema) -> Option<u64>
    ensures { MatchOption result
        (2 ^ 64 ≤ weight (fields_view schema.now.fields.items)
        (pairs_of schema.now.metadata.entries))
        (λ n. n ≡ weight (fields_view schema.now.fields.items)
        (pairs_of schema.now.metadata.entries)) }
{
    let own = weigh_pairs(&schema.metadata)?.checked_add(1024)?;
    own.checked_add(weigh_fields(&schema.fields)?)
}

/// Returns the weight of a file's schema and metadata.
///
/// It is `None` if that is `2^64` or more. It is the weight of the schema, and for each pair 64 and
/// the length of its key and its value in bytes.
pub fn weigh_file(schema: &Schema, pairs: &Metadata) -> Option<u64>
    ensures { MatchOption result
        (2 ^ 64 ≤ file_weight (fields_view schema.now.fields.items)
        (pairs_of schema.now.metadata.entries) (pairs_of pairs.now.entries))
        (λ n. n ≡ file_weight (fields_view schema.now.fields.items)
        (pairs_of schema.now.metadata.entries) (pairs_of pairs.now.entries)) }
{
    weigh_schema(schema)?.checked_add(weigh_pairs(pairs)?)
}

/// Returns whether the weight of a file's schema and metadata is at most `2^30`.
pub fn is_light(schema: &Schema, pairs: &Metadata) -> bool
    ensures { IsTrue result ↔ (file_weight (fields_view schema.now.fields.items)
        (pairs_of schema.now.metadata.entries) (pairs_of pairs.now.entries) ≤ max_weight) }
{
    match weigh_file(schema, pairs) {
        Some(weight) => weight <= MAX_WEIGHT,
        None => false,
    }
}
