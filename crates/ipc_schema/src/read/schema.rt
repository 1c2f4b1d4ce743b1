//! Reads schemas.
//!
//! Arrow columnar format, "Schema message": the header of the first message of a stream is a table
//! `Schema`, whose fields are tables `Field`.
ghost use Rattle.std.specs.Prelude.{◌≡◌, ◌+◌, ◌<◌, ◌≤◌, ◌^◌, IfErr, IfOk, length, option_map, string_bytes};
ghost use Rattle.lower.specs.TypeViews.{fields_view, pairs_of, type_view};
ghost use Rattle.ipc_base.specs.Fitting.{AllFit};
ghost use Rattle.ipc_base.specs.IdTrees.{all_ids_view};
ghost use Rattle.ipc_table_views.specs.SchemaSlots.{field_children, field_dictionary, field_name};
ghost use Rattle.ipc_table_views.specs.Tables.{table_in};
ghost use Rattle.ipc_table_views.specs.Unions.{type_parts};
ghost use Rattle.ipc_model.specs.Schemas.{order_of, made, present, given, encoding_at, optional_encoding, encoded, id_of, field_with, field_at, fields_count, fields_from, first_field, some_fields, type_of_field};
ghost use Rattle.ipc_schema.specs.Api.{CountsVisits};
ghost use Rattle.ipc_schema.specs.Reading.{AnswersMeaning, CountsRefused, GivesMessage, GivesTable, GivesWithin, IsWithin, fields_vector, message_vector};
ghost use Rattle.ipc_schema.specs.Views.{below_number, byte_order, child_number, child_seen, encoding_seen, field_seen, fields_number, fields_seen, inner_number, schema_seen, type_seen, with_one_id};

use crate::read::metadata::{read_metadata, read_schema_metadata, with_extension};
use crate::read::types::{
    deserialize_ids, deserialize_integer, deserialize_plain, deserialize_size, in_schema,
    union_mode,
};
use ipc_base::fault::{Fault, OutOfSpecKind, SchemaFault};
use ipc_base::ipc::{IpcField, IpcSchema};
use ipc_table_views::{
    DictionaryEncodingRef, Endianness, FieldRef, FieldTable, MessageHeaderRef, MessageRef,
    SchemaRef, Tables, TypeRef,
};
use lower::datatypes::{DataType, Field, IntegerType, Metadata, Schema};
use std::alloc::{AllocError, Global};

/// The greatest depth of fields.
const MAX_LEVELS: u64 = 64;

// How the keys of a dictionary encode its values.
#[derive(Clone, Copy)]
struct Encoding {
    keys: IntegerType,
    id: i64,
    is_ordered: bool,
}

#[tactic(auto, unfolding(ipc_model::specs::Schemas::encoding_at))]
fn deserialize_encoding(table: &DictionaryEncodingRef<'_>) -> Result<Encoding, Fault>
    ensures { AnswersMeaning encoding_seen result (encoding_at table.now) }
{
    let id = in_schema(table.id())?;
    let Some(index_type) = in_schema(table.index_type())? else {
        return Err(Fault::Schema(SchemaFault::NoIndexType));
    };
    let keys = deserialize_integer(&index_type)?;
    let is_ordered = in_schema(table.is_ordered())?;
    Ok(Encoding {
        keys,
        id,
        is_ordered,
    })
}

// The encoding of a field, None if it has no dictionary.
fn read_encoding(field: &FieldRef<'_>) -> Result<Option<Encoding>, Fault>
    ensures { AnswersMeaning (λ e. option_map encoding_seen e) result
        (given (made (field_dictionary field.now)) optional_encoding) }
{
    match in_schema(field.dictionary())? {
        Some(table) => Ok(Some(deserialize_encoding(&table)?)),
        None => Ok(None),
    }
}

// The type, or the dictionary of its values.
fn encoded(
    alloc: Global,
    encoding: Option<Encoding>,
    values: DataType,
) -> Result<DataType, AllocError>
    ensures { IfOk result (λ r. type_view r
        ≡ encoded (option_map encoding_seen encoding) (type_view values)) }
{
    match encoding {
        Some(e) => {
            let values = Box::new(alloc, values)?;
            Ok(DataType::Dictionary(e.keys, values, e.is_ordered))
        }
        None => Ok(values),
    }
}

fn id_of(encoding: Option<Encoding>) -> Option<i64>
    ensures { result ≡ id_of (option_map encoding_seen encoding) }
{
    match encoding {
        Some(e) => Some(e.id),
        None => None,
    }
}

// A field of these parts, and its ids.
fn field_with(
    alloc: Global,
    name: String,
    is_nullable: bool,
    metadata: Metadata,
    encoding: Option<Encoding>,
    type_: (DataType, Vec<IpcField>),
) -> Result<(Field, IpcField), AllocError>
    ensures { IfOk result (λ r. field_seen r ≡ field_with (string_bytes name) is_nullable
        (pairs_of metadata.entries) (option_map encoding_seen encoding)
        (type_seen type_)) }
{
    let (data_type, fields) = type_;
    let data_type = with_extension(alloc, &metadata, data_type)?;
    let data_type = encoded(alloc, encoding, data_type)?;
    let field = Field {
        name,
        data_type,
        is_nullable,
        metadata,
    };
    let ids = IpcField {
        fields,
        dictionary_id: id_of(encoding),
    };
    Ok((field, ids))
}

fn read_name(alloc: Global, field: &FieldRef<'_>) -> Result<String, Fault>
    ensures { AnswersMeaning string_bytes result (present (field_name field.now)) }
{
    match in_schema(field.name())? {
        Some(name) => Ok(String::from_str(alloc, name)?),
        None => Err(Fault::Schema(SchemaFault::NoName)),
    }
}

// Opens the field at an index of a vector, and counts a visit, even if the table is malformed. No
// other function opens one. At most `most` visits are allowed.
fn open_field<'a>(
    tables: &Tables<'a, FieldTable>,
    index: usize,
    visits: &mut u64,
    most: u64,
) -> Result<FieldRef<'a>, Fault>
    requires inside { index < tables.now.count }
    requires few { visits.now ≤ most }
    ensures meaning { GivesWithin (λ t. t) (λ _. 1) most visits.old visits.new result
        (made (table_in tables.now index)) }
    ensures within { IsWithin visits.old visits.new most }
    ensures counted { visits.old < most → visits.new ≡ visits.old + 1 }
{
    if *visits == most {
        return Err(Fault::Schema(SchemaFault::TooManyFields));
    }
    *visits += 1;
    in_schema(tables.get(index))
}

// Reads a field whose table is open, of at most so many levels.
#[cycle(fields)]
#[tactic(auto, unfolding(ipc_model::specs::Schemas::field_at, ipc_model::specs::Schemas::field_from))]
fn deserialize_field(
    alloc: Global,
    field: &FieldRef<'_>,
    levels: u64,
    visits: &mut u64,
    most: u64,
) -> Result<(Field, IpcField), Fault>
    requires few { visits.now ≤ most }
    ensures meaning { GivesWithin field_seen below_number most visits.old visits.new result
        (field_at levels field.now) }
    ensures within { IsWithin visits.old visits.new most }
{
    if levels == 0 {
        return Err(Fault::Schema(SchemaFault::TooDeep));
    }
    let name = read_name(alloc, field)?;
    let is_nullable = in_schema(field.nullable())?;
    let metadata = read_metadata(alloc, field)?;
    let encoding = read_encoding(field)?;
    let Some(type_) = in_schema(field.type_())? else {
        return Err(Fault::Schema(SchemaFault::NoType));
    };
    let seen = deserialize_type(alloc, field, &type_, levels - 1, visits, most)?;
    let read = field_with(alloc, name, is_nullable, metadata, encoding, seen)?;
    Ok(read)
}

// The type of a table, with the children of its field.
#[cycle(fields)]
#[tactic(auto, unfolding(ipc_model::specs::Schemas::single_at, ipc_model::specs::Schemas::group_at))]
fn deserialize_type(
    alloc: Global,
    field: &FieldRef<'_>,
    type_: &TypeRef<'_>,
    levels: u64,
    visits: &mut u64,
    most: u64,
) -> Result<(DataType, Vec<IpcField>), Fault>
    requires few { visits.now ≤ most }
    ensures meaning { GivesWithin type_seen inner_number most visits.old visits.new result
        (type_of_field (λ s. field_at levels s) field.now (type_parts type_.now)) }
    ensures within { IsWithin visits.old visits.new most }
{
    match type_ {
        TypeRef::List(_) => {
            let (child, ids) = deserialize_child(alloc, field, levels, visits, most)?;
            Ok((DataType::List(child), ids))
        }
        TypeRef::LargeList(_) => {
            let (child, ids) = deserialize_child(alloc, field, levels, visits, most)?;
            Ok((DataType::LargeList(child), ids))
        }
        TypeRef::FixedSizeList(list) => {
            let size = deserialize_size(in_schema(list.list_size())?)?;
            let (child, ids) = deserialize_child(alloc, field, levels, visits, most)?;
            Ok((DataType::FixedSizeList(child, size), ids))
        }
        TypeRef::Map(map) => {
            let is_sorted = in_schema(map.keys_sorted())?;
            let (child, ids) = deserialize_child(alloc, field, levels, visits, most)?;
            Ok((DataType::Map(child, is_sorted), ids))
        }
        TypeRef::Struct(_) => {
            let (fields, ids) = deserialize_children(alloc, field, levels, visits, most)?;
            Ok((DataType::Struct(fields), ids))
        }
        TypeRef::Union(union) => {
            let mode = union_mode(in_schema(union.mode())?);
            let type_ids = deserialize_ids(alloc, union)?;
            let (fields, ids) = deserialize_children(alloc, field, levels, visits, most)?;
            Ok((DataType::Union(fields, type_ids, mode), ids))
        }
        _ => Ok((deserialize_plain(alloc, type_)?, Vec::new(alloc))),
    }
}

// The first child of a field, and the only id: further children are ignored.
#[cycle(fields)]
fn deserialize_child(
    alloc: Global,
    field: &FieldRef<'_>,
    levels: u64,
    visits: &mut u64,
    most: u64,
) -> Result<(Box<Field>, Vec<IpcField>), Fault>
    requires few { visits.now ≤ most }
    ensures meaning { GivesWithin child_seen child_number most visits.old visits.new result
        (option_map with_one_id (given (present (field_children field.now)) (first_field (λ s. field_at levels s)))) }
    ensures within { IsWithin visits.old visits.new most }
{
    let Some(tables) = in_schema(field.children())? else {
        return Err(Fault::Schema(SchemaFault::NoChild));
    };
    if tables.is_empty() {
        return Err(Fault::Schema(SchemaFault::NoChild));
    }
    let table = open_field(&tables, 0, visits, most)?;
    let (child, id) = deserialize_field(alloc, &table, levels, visits, most)?;
    let child = Box::new(alloc, child)?;
    let mut ids = Vec::new(alloc);
    ids.push(id)?;
    Ok((child, ids))
}

// The children of a field, at least one.
#[cycle(fields)]
fn deserialize_children(
    alloc: Global,
    field: &FieldRef<'_>,
    levels: u64,
    visits: &mut u64,
    most: u64,
) -> Result<(Vec<Field>, Vec<IpcField>), Fault>
    requires few { visits.now ≤ most }
    ensures meaning { GivesWithin fields_seen fields_number most visits.old visits.new result
        (given (present (field_children field.now)) (some_fields (λ s. field_at levels s))) }
    ensures within { IsWithin visits.old visits.new most }
{
    let Some(tables) = in_schema(field.children())? else {
        return Err(Fault::Schema(SchemaFault::NoChild));
    };
    if tables.is_empty() {
        return Err(Fault::Schema(SchemaFault::NoChild));
    }
    deserialize_fields(alloc, &tables, levels, visits, most)
}

#[cycle(fields)]
fn deserialize_fields(
    alloc: Global,
    tables: &Tables<'_, FieldTable>,
    levels: u64,
    visits: &mut u64,
    most: u64,
) -> Result<(Vec<Field>, Vec<IpcField>), Fault>
    requires few { visits.now ≤ most }
    ensures meaning { GivesWithin fields_seen fields_number most visits.old visits.new result
        (fields_from (λ s. field_at levels s) tables.now 0 tables.now.count) }
    ensures within { IsWithin visits.old visits.new most }
    ensures counted { IfErr result (λ _. visits.old < most → visits.old < visits.new) }
{
    let mut fields = Vec::new(alloc);
    let mut ipc_fields = Vec::new(alloc);
    for i in 0..tables.len() {
        let table = open_field(tables, i, visits, most)?;
        let (field, ipc_field) = deserialize_field(alloc, &table, levels, visits, most)?;
        fields.push(field)?;
        ipc_fields.push(ipc_field)?;
    }
    Ok((fields, ipc_fields))
}

fn is_little_endian(order: Endianness) -> bool
    ensures { byte_order result ≡ order_of order }
{
    match order {
        Endianness::Little => true,
        Endianness::Big => false,
    }
}

/// Returns the schema of a table, and what IPC adds to it.
///
/// `visits` counts how many times the table of a field is opened. `visits` and the length of the
/// message must be less than `2^64` together. Errors are those of [`deserialize_schema`] except
/// `Fault::Schema(SchemaFault::NotASchema)`. Whether it fails or not, `visits` grows by at most the
/// number of bytes of the message, and:
///
/// - On success it grows by the number of fields at all levels.
/// - If the error is due to one of the fields, it grows by at least one.
#[tactic(auto, unfolding(ipc_model::specs::Schemas::schema_at, crate::specs::Reading::fields_vector))]
pub fn fb_to_schema(
    alloc: Global,
    schema: &SchemaRef<'_>,
    visits: &mut u64,
) -> Result<(Schema, IpcSchema), Fault>
    requires { visits.now + length schema.now.message < 2 ^ 64 }
    ensures meaning { GivesTable schema_seen result schema.now }
    ensures counted { IfOk result (λ r.
        visits.new ≡ visits.old + fields_count (fields_view r.0.fields.items)) }
    ensures within { IsWithin visits.old visits.new (visits.old + length schema.now.message) }
    ensures refused { IfErr result (λ e.
        CountsRefused e (fields_vector schema.now) visits.old visits.new) }
{
    let is_little_endian = is_little_endian(in_schema(schema.endianness())?);
    let metadata = read_schema_metadata(alloc, schema)?;
    let Some(tables) = in_schema(schema.fields())? else {
        return Err(Fault::OutOfSpec(OutOfSpecKind::MissingFields));
    };
    let most = *visits + schema.message().len() as u64;
    let (fields, ipc_fields) = deserialize_fields(alloc, &tables, MAX_LEVELS, visits, most)?;
    Ok((
        Schema { fields, metadata },
        IpcSchema {
            fields: ipc_fields,
            is_little_endian,
        },
    ))
}

#[tactic(auto, unfolding(ipc_model::specs::Schemas::schema_of, crate::specs::Reading::message_vector))]
fn read_message(
    alloc: Global,
    message: &[u8],
    visits: &mut u64,
) -> Result<(Schema, IpcSchema), Fault>
    requires { visits.now + length message.now < 2 ^ 64 }
    ensures meaning { GivesMessage schema_seen result message.now }
    ensures counted { IfOk result (λ r. visits.new ≡ visits.old + fields_count (fields_view r.0.fields.items)) }
    ensures within { IsWithin visits.old visits.new (visits.old + length message.now) }
    ensures refused { IfErr result (λ e.
        CountsRefused e (message_vector message.now) visits.old visits.new) }
{
    let root = in_schema(MessageRef::read_as_root(message))?;
    match in_schema(root.header())? {
        Some(MessageHeaderRef::Schema(schema)) => { fb_to_schema(alloc, &schema, visits) }
        _ => Err(Fault::Schema(SchemaFault::NotASchema)),
    }
}

/// Reads a schema as [`deserialize_schema`] does, and counts visits.
///
/// `visits` grows by one each time the table of a field is opened, even if the table is malformed.
/// Whether the call fails or not, it grows by at most the number of bytes of the message. So a
/// field table that is shared many times is opened no more often than that. Also:
///
/// - On success it grows by the number of fields at all levels.
/// - If the error is due to one of the fields, it grows by at least one.
///
/// It doesn't count bytes: each field has a copy of its name, its metadata and its ids, even if
/// tables share them. `visits` and the length of the message must be less than `2^64` together.
pub fn deserialize_schema_counted(
    alloc: Global,
    message: &[u8],
    visits: &mut u64,
) -> Result<(Schema, IpcSchema), Fault>
    requires { visits.now + length message.now < 2 ^ 64 }
    ensures meaning { GivesMessage schema_seen result message.now }
    // the returned ids have the shape of the fields
    ensures fits { IfOk result (λ r. AllFit (fields_view r.0.fields.items)
        (all_ids_view r.1.fields.items)) }
    ensures counts { CountsVisits message.now visits.old result visits.new }
{
    let read = read_message(alloc, message, visits)?;
    Ok(read)
}

/// Returns the schema of a message, and what IPC adds to it.
///
/// IPC adds the ids of dictionaries, and the byte order of the numbers in bodies. It succeeds on
/// exactly the messages that mean a schema (Arrow columnar format, "Schema message"), unless an
/// allocation fails. Errors:
///
/// - `Fault::Schema(SchemaFault::Table(..))`: a table is malformed.
/// - `Fault::Schema(SchemaFault::NotASchema)`: the message has no header, or another one.
/// - `Fault::OutOfSpec(OutOfSpecKind::MissingFields)`: the schema has no vector of fields.
/// - `Fault::Schema(SchemaFault::NoName)`, `NoType`: a field has no name, or no type.
/// - `Fault::Schema(SchemaFault::NoChild)`: a list, a map, a struct or a union has no child.
/// - `Fault::Schema(SchemaFault::NoIndexType)`: a dictionary has no type of its keys.
/// - `Fault::Schema(SchemaFault::BadInteger)`: the width of an integer isn't 8, 16, 32 or 64 bits.
/// - `Fault::Schema(SchemaFault::BadTime)`: the width of a time doesn't fit its unit.
/// - `Fault::Schema(SchemaFault::BadSize)`: a fixed size is negative.
/// - `Fault::Schema(SchemaFault::BadDecimal)`: the width of a decimal isn't 128 or 256 bits, or its
///   precision or scale is negative.
/// - `Fault::Schema(SchemaFault::TooDeep)`: fields are nested more than 64 levels deep.
/// - `Fault::Schema(SchemaFault::TooManyFields)`: more field tables are visited than the message
///   has bytes.
/// - `Fault::Memory`: an allocation failed.
pub fn deserialize_schema(alloc: Global, message: &[u8]) -> Result<(Schema, IpcSchema), Fault>
    ensures meaning { GivesMessage schema_seen result message.now }
    // the returned ids have the shape of the fields
    ensures fits { IfOk result (λ r. AllFit (fields_view r.0.fields.items)
        (all_ids_view r.1.fields.items)) }
{
    let mut visits = 0;
    deserialize_schema_counted(alloc, message, &mut visits)
}
