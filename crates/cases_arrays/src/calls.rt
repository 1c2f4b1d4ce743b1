//! The calls of arrays, schemas and chunks, by their names.

mod arrays;
mod buffers;
mod chunks;
mod numbers;
pub mod plain_schemas;
mod schemas;

use cases_notation::decoder::{Decoder, named};
use cases_notation::text::Text;
use serde_json::Value;

/// Appends what the call of this name gives, and returns whether there is such a call here.
pub fn put_call(d: &mut Decoder, out: &mut Text, name: &str, parts: &Value) -> bool {
    put_array_call(d, out, name, parts) || put_schema_call(d, out, name, parts)
}

// ---- arrays, bitmaps, offsets and numbers

#[derive(Clone, Copy)]
enum ArrayCall {
    SlotsOf,
    PartsOf,
    AreSame,
    IsSameAsClone,
    IsDictionary,
    BitsOf,
    OffsetsOf,
    OffsetOfLength,
    BytesOfNumbers,
    NumbersOfBytes,
    NumbersBackOf,
}

const ARRAY_CALLS: [(&str, ArrayCall); 11] = [
    ("slots_of", ArrayCall::SlotsOf),
    ("parts_of", ArrayCall::PartsOf),
    ("are_same", ArrayCall::AreSame),
    ("is_same_as_clone", ArrayCall::IsSameAsClone),
    ("is_dictionary", ArrayCall::IsDictionary),
    ("bits_of", ArrayCall::BitsOf),
    ("offsets_of", ArrayCall::OffsetsOf),
    ("offset_of_length", ArrayCall::OffsetOfLength),
    ("bytes_of_numbers", ArrayCall::BytesOfNumbers),
    ("numbers_of_bytes", ArrayCall::NumbersOfBytes),
    ("numbers_back_of", ArrayCall::NumbersBackOf),
];

fn put_array_call(d: &mut Decoder, out: &mut Text, name: &str, parts: &Value) -> bool {
    let Some(call) = named(&ARRAY_CALLS, name) else {
        return false;
    };
    match call {
        ArrayCall::SlotsOf => arrays::slots_of(d, out, parts),
        ArrayCall::PartsOf => arrays::parts_of(d, out, parts),
        ArrayCall::AreSame => arrays::are_same(d, out, parts),
        ArrayCall::IsSameAsClone => arrays::is_same_as_clone(d, out, parts),
        ArrayCall::IsDictionary => arrays::is_dictionary_array(d, out, parts),
        ArrayCall::BitsOf => buffers::bits_of(d, out, parts),
        ArrayCall::OffsetsOf => buffers::offsets_of(d, out, parts),
        ArrayCall::OffsetOfLength => buffers::offset_of_length(d, out, parts),
        ArrayCall::BytesOfNumbers => numbers::bytes_of_numbers(d, out, parts),
        ArrayCall::NumbersOfBytes => numbers::numbers_of_bytes(d, out, parts),
        ArrayCall::NumbersBackOf => numbers::numbers_back_of(d, out, parts),
    }
    true
}

// ---- schemas and chunks

#[derive(Clone, Copy)]
enum SchemaCall {
    SchemaOf,
    VisitsOf,
    SchemaBytesOf,
    SchemaBackOf,
    WeightOf,
    NormalOf,
    IsNormal,
    AreSameSchemas,
    PlainSchemaOf,
    SchemaByBoth,
    DamagedSchemasOf,
    ChunkOf,
    AreEqualRows,
    Fits,
    ClonedIdsOf,
}

const SCHEMA_CALLS: [(&str, SchemaCall); 15] = [
    ("schema_of", SchemaCall::SchemaOf),
    ("visits_of", SchemaCall::VisitsOf),
    ("schema_bytes_of", SchemaCall::SchemaBytesOf),
    ("schema_back_of", SchemaCall::SchemaBackOf),
    ("weight_of", SchemaCall::WeightOf),
    ("normal_of", SchemaCall::NormalOf),
    ("is_normal", SchemaCall::IsNormal),
    ("are_same_schemas", SchemaCall::AreSameSchemas),
    ("plain_schema_of", SchemaCall::PlainSchemaOf),
    ("schema_by_both", SchemaCall::SchemaByBoth),
    ("damaged_schemas_of", SchemaCall::DamagedSchemasOf),
    ("chunk_of", SchemaCall::ChunkOf),
    ("are_equal_rows", SchemaCall::AreEqualRows),
    ("fits", SchemaCall::Fits),
    ("cloned_ids_of", SchemaCall::ClonedIdsOf),
];

fn put_schema_call(d: &mut Decoder, out: &mut Text, name: &str, parts: &Value) -> bool {
    let Some(call) = named(&SCHEMA_CALLS, name) else {
        return false;
    };
    match call {
        SchemaCall::SchemaOf => schemas::schema_of(d, out, parts),
        SchemaCall::VisitsOf => schemas::visits_of(d, out, parts),
        SchemaCall::SchemaBytesOf => schemas::schema_bytes_of(d, out, parts),
        SchemaCall::SchemaBackOf => schemas::schema_back_of(d, out, parts),
        SchemaCall::WeightOf => schemas::weight_of(d, out, parts),
        SchemaCall::NormalOf => schemas::normal_of(d, out, parts),
        SchemaCall::IsNormal => schemas::is_normal(d, out, parts),
        SchemaCall::AreSameSchemas => schemas::are_same_schemas(d, out, parts),
        SchemaCall::PlainSchemaOf => plain_schemas::plain_schema_of(d, out, parts),
        SchemaCall::SchemaByBoth => plain_schemas::schema_by_both(d, out, parts),
        SchemaCall::DamagedSchemasOf => plain_schemas::damaged_schemas_of(d, out, parts),
        SchemaCall::ChunkOf => chunks::chunk_of(d, out, parts),
        SchemaCall::AreEqualRows => chunks::are_equal_rows(d, out, parts),
        SchemaCall::Fits => chunks::fits_of(d, out, parts),
        SchemaCall::ClonedIdsOf => chunks::cloned_ids_of(d, out, parts),
    }
    true
}
