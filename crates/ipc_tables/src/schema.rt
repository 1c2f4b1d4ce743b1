//! The tables of Arrow's `Schema.fbs` for schemas and fields, as values that are encoded.
ghost use Rattle.std.specs.Prelude.{◌≡◌, ◌<◌, ◌^◌, List, map, IfOk, option_map};
ghost use Rattle.ipc_table_bytes.specs.Parts.{IsPart};
ghost use Rattle.ipc_table_bytes.specs.Tree.{Part, table};
ghost use Rattle.ipc_tables.specs.Schemas.{dictionary_slots, endianness_number, feature_number, field_part, field_slots, kind_number, pair_part, pairs_part, pairs_vector, schema_slots, version_number};
ghost use Rattle.ipc_tables.specs.Slots.{AreBuilt, IsOptional};

use crate::elements::{Element, elements_slot};
use crate::slots::{flag, long, push};
use crate::types::{FieldType, Int, int_part, type_part, type_tag};
use ipc_table_bytes::{Built, Pool, Slot, put_u64, table, tables, text};
use ipc_table_views::{Endianness, MetadataVersion};
use std::alloc::AllocError;

/// A table `KeyValue`, as a value.
#[derive(Drop)]
pub struct KeyValue {
    pub key: String,
    pub value: String,
}

/// The layout of a dictionary: the enumeration `DictionaryKind`.
#[derive(Clone, Copy, Debug, PartialEq, Eq)]
pub enum DictionaryKind {
    DenseArray,
}

/// A feature that a reader must support: the enumeration `Feature`.
#[derive(Clone, Copy, Debug, PartialEq, Eq)]
pub enum Feature {
    Unused,
    /// A dictionary of a stream may replace an earlier one.
    DictionaryReplacement,
    /// Buffers may be compressed.
    CompressedBody,
}

/// A table `DictionaryEncoding`, as a value.
#[derive(Clone, Copy, Debug, PartialEq, Eq)]
pub struct DictionaryEncoding {
    pub id: i64,
    /// The type of the keys.
    pub index_type: Int,
    pub is_ordered: bool,
    pub dictionary_kind: DictionaryKind,
}

/// A table `Field`, as a value.
#[derive(Drop)]
pub struct Field {
    pub name: String,
    pub nullable: bool,
    /// The type; if there is a dictionary, that of its values.
    pub type_: FieldType,
    pub dictionary: Option<DictionaryEncoding>,
    pub children: Vec<Field>,
    /// Key-value metadata, which is written unless it is empty.
    pub custom_metadata: Vec<KeyValue>,
}

/// A table `Schema`, as a value (Arrow columnar format, "Schema message").
#[derive(Drop)]
pub struct Schema {
    pub endianness: Endianness,
    pub fields: Vec<Field>,
    /// Key-value metadata, which is written unless it is empty.
    pub custom_metadata: Vec<KeyValue>,
    pub features: Option<Vec<Feature>>,
}

pub(crate) fn version_number(version: MetadataVersion) -> u64
    ensures value { result ≡ version_number version }
    ensures small { result < 2 ^ 16 }
{
    match version {
        MetadataVersion::V1 => 0,
        MetadataVersion::V2 => 1,
        MetadataVersion::V3 => 2,
        MetadataVersion::V4 => 3,
        MetadataVersion::V5 => 4,
    }
}

fn endianness_number(endianness: Endianness) -> u64
    ensures value { result ≡ endianness_number endianness }
    ensures small { result < 2 ^ 16 }
{
    match endianness {
        Endianness::Little => 0,
        Endianness::Big => 1,
    }
}

fn kind_number(kind: DictionaryKind) -> u64
    ensures value { result ≡ kind_number kind }
    ensures small { result < 2 ^ 16 }
{
    match kind {
        DictionaryKind::DenseArray => 0,
    }
}

fn feature_number(feature: Feature) -> u64
    ensures { result ≡ feature_number feature }
{
    match feature {
        Feature::Unused => 0,
        Feature::DictionaryReplacement => 1,
        Feature::CompressedBody => 2,
    }
}

impl Element for Feature {
    ghost use Rattle.std.proofs.Common.{refl};
    ghost use Rattle.ipc_tables.specs.Schemas.{feature_bytes};
    ghost use Rattle.ipc_tables.specs.ElementLaws.{length-feature, some-8};

    ghost size = { 8 };

    ghost align = { 8 };

    ghost spelt = { feature_bytes };

    ghost sized = { length-feature };

    ghost some = { some-8 };

    ghost aligned = { refl };

    fn len() -> usize {
        8
    }

    fn put(self, bytes: &mut Vec<u8>) -> Result<(), AllocError> {
        put_u64(bytes, feature_number(self))
    }
}

fn pair_part(pool: &mut Pool, pair: &KeyValue) -> Result<Built, AllocError>
    ensures { IfOk result (λ built. IsPart built (pair_part pair.now)) }
{
    let key = text(pool, pair.key.as_str())?;
    let value = text(pool, pair.value.as_str())?;
    let mut slots = [Slot::Offset(key), Slot::Offset(value)];
    let part = table(pool, &slots)?;
    pool.give_slots(&mut slots)?;
    Ok(part)
}

fn pair_parts(pool: &mut Pool, pairs: &[KeyValue]) -> Result<Vec<Built>, AllocError>
    ensures { IfOk result (λ parts. AreBuilt parts.items (map pair_part pairs.now)) }
{
    let mut parts = Vec::new(pool.alloc());
    for pair in pairs {
        push(&mut parts, pair_part(pool, pair)?)?;
    }
    Ok(parts)
}

// The vector of some pairs.
fn pairs_vector(pool: &mut Pool, pairs: &[KeyValue]) -> Result<Built, AllocError>
    ensures { IfOk result (λ built. IsPart built (pairs_vector pairs.now)) }
{
    let parts = pair_parts(pool, pairs)?;
    tables(pool, &parts)
}

// The slot for some pairs, absent if there are none.
fn pairs_slot(pool: &mut Pool, pairs: &[KeyValue]) -> Result<Slot, AllocError>
    ensures { IfOk result (λ slot. IsOptional slot (pairs_part pairs.now)) }
{
    if pairs.is_empty() {
        return Ok(Slot::Absent);
    }
    Ok(Slot::Offset(pairs_vector(pool, pairs)?))
}

// The slot for a vector of some pairs, absent if it is.
pub(crate) fn optional_pairs(
    pool: &mut Pool,
    pairs: &Option<Vec<KeyValue>>,
) -> Result<Slot, AllocError>
    ensures { IfOk result (λ slot. IsOptional slot (option_map (λ v. pairs_vector v.items) pairs.now)) }
{
    match pairs {
        None => Ok(Slot::Absent),
        Some(pairs) => Ok(Slot::Offset(pairs_vector(pool, pairs.as_slice())?)),
    }
}

fn dictionary_part(pool: &mut Pool, dictionary: DictionaryEncoding) -> Result<Built, AllocError>
    ensures { IfOk result (λ built. IsPart built (table (dictionary_slots dictionary))) }
{
    let index_type = int_part(pool, dictionary.index_type)?;
    table(
        pool,
        &[
            Slot::Number(long(dictionary.id)),
            Slot::Offset(index_type),
            Slot::Number(flag(dictionary.is_ordered)),
            Slot::Number(kind_number(dictionary.dictionary_kind)),
        ],
    )
}

fn dictionary_slot(
    pool: &mut Pool,
    dictionary: Option<DictionaryEncoding>,
) -> Result<Slot, AllocError>
    ensures { IfOk result (λ slot. IsOptional slot (option_map (λ d. table (dictionary_slots d)) dictionary)) }
{
    match dictionary {
        None => Ok(Slot::Absent),
        Some(dictionary) => Ok(Slot::Offset(dictionary_part(pool, dictionary)?)),
    }
}

// The table of a field, from its encoded children.
fn field_table(pool: &mut Pool, field: &Field, children: &[Built]) -> Result<Built, AllocError>
    ensures { (parts : List Part) → AreBuilt children.now parts → IfOk result (λ built. IsPart built (table (field_slots field.now parts))) }
{
    let name = text(pool, field.name.as_str())?;
    let type_ = type_part(pool, &field.type_)?;
    let dictionary = dictionary_slot(pool, field.dictionary)?;
    let children = tables(pool, children)?;
    let pairs = pairs_slot(pool, field.custom_metadata.as_slice())?;
    let mut slots = [
        Slot::Offset(name),
        Slot::Number(flag(field.nullable)),
        Slot::Number(type_tag(&field.type_)),
        Slot::Offset(type_),
        dictionary,
        Slot::Offset(children),
        pairs,
    ];
    let part = table(pool, &slots)?;
    pool.give_slots(&mut slots)?;
    Ok(part)
}

#[cycle(fields)]
fn field_part(pool: &mut Pool, field: &Field) -> Result<Built, AllocError>
    ensures { IfOk result (λ built. IsPart built (field_part field.now)) }
{
    let children = field_parts(pool, &field.children)?;
    let part = field_table(pool, field, &children)?;
    pool.give_parts(children)?;
    Ok(part)
}

#[cycle(fields)]
fn field_parts(pool: &mut Pool, fields: &[Field]) -> Result<Vec<Built>, AllocError>
    ensures { IfOk result (λ parts. AreBuilt parts.items (map field_part fields.now)) }
{
    let mut parts = Vec::new(pool.alloc());
    for field in fields {
        push(&mut parts, field_part(pool, field)?)?;
    }
    Ok(parts)
}

// The table of a schema.
pub(crate) fn schema_part(pool: &mut Pool, schema: &Schema) -> Result<Built, AllocError>
    ensures { IfOk result (λ built. IsPart built (table (schema_slots schema.now))) }
{
    let fields = field_parts(pool, &schema.fields)?;
    let fields = tables(pool, &fields)?;
    let pairs = pairs_slot(pool, schema.custom_metadata.as_slice())?;
    let features = elements_slot(pool, &schema.features)?;
    table(
        pool,
        &[
            Slot::Number(endianness_number(schema.endianness)),
            Slot::Offset(fields),
            pairs,
            features,
        ],
    )
}
