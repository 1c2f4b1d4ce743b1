//! Encodes schemas.
//!
//! Arrow columnar format, "Schema message": the header of the first message of a stream is a table
//! `Schema`, whose fields are tables `Field`.
ghost use Rattle.std.specs.Prelude.{◌≡◌, IfErr, OnOk};
ghost use Rattle.lower.specs.TypeViews.{fields_view, pairs_of};
ghost use Rattle.ipc_base.specs.IdTrees.{all_ids_view};
ghost use Rattle.lower_types.specs.declared.Endianness.TheVariants.{Little};
ghost use Rattle.ipc_model.specs.Schemas.{order_of};
ghost use Rattle.ipc_schema_write.specs.WriterAnswers.{AreWritableWith, RefusesFields, WritesSchema, WritesTable, byte_order};

use crate::dictionaries::{add_places, agree};
use crate::fields::serialize_fields;
use crate::metadata::serialize_pairs;
use crate::weights::is_light;
use crate::writable::are_writable;
use ipc_base::fault::{ArgFault, Fault};
use ipc_base::ipc::{IpcField, fits};
use ipc_table_views::{Endianness, MetadataVersion};
use ipc_tables::message::{Message, MessageHeader};
use ipc_tables::schema as tables;
use lower::datatypes::counts::is_within_levels;
use lower::datatypes::{Field, Schema};
use std::alloc::Global;

/// The greatest depth of fields.
const MAX_LEVELS: u64 = 64;

/// The greatest number of dictionaries.
pub(crate) const MAX_PLACES: usize = 65536;

// The byte order as its tag.
fn endianness(is_little_endian: bool) -> Endianness
    ensures { order_of result ≡ byte_order is_little_endian }
{
    if is_little_endian {
        Endianness::Little
    } else {
        Endianness::Big
    }
}

// Refuses fields that can't be written with these ids, whatever their weight.
fn check_writable(alloc: Global, fields: &[Field], ipc_fields: &[IpcField]) -> Result<(), Fault>
    ensures ok { OnOk result (AreWritableWith (fields_view fields.now) (all_ids_view ipc_fields.now)) }
    ensures only { IfErr result (RefusesFields (fields_view fields.now) (all_ids_view ipc_fields.now)) }
{
    if !fits(fields, ipc_fields) {
        return Err(Fault::Argument(ArgFault::FieldsShape));
    }
    if !is_within_levels(fields, MAX_LEVELS) {
        return Err(Fault::Argument(ArgFault::NotWritable));
    }
    if !are_writable(fields) {
        return Err(Fault::Argument(ArgFault::NotWritable));
    }
    let mut places = Vec::new(alloc);
    add_places(fields, ipc_fields, &mut places)?;
    if places.len() > MAX_PLACES {
        return Err(Fault::Argument(ArgFault::NotWritable));
    }
    if !agree(alloc, &places)? {
        return Err(Fault::Argument(ArgFault::NotWritable));
    }
    Ok(())
}

/// Returns the table of a schema, for a message or a footer.
///
/// It has these ids, and the fields are in normal form. `is_little_endian` is the byte order of the
/// numbers in bodies. Errors are those of [`schema_to_bytes`].
pub fn serialize_schema(
    alloc: Global,
    schema: &Schema,
    ipc_fields: &[IpcField],
    is_little_endian: bool,
) -> Result<tables::Schema, Fault>
    ensures { WritesTable (byte_order is_little_endian) result (fields_view schema.now.fields.items)
        (pairs_of schema.now.metadata.entries) (all_ids_view ipc_fields.now) }
{
    check_writable(alloc, &schema.fields, ipc_fields)?;
    let fields = serialize_fields(alloc, &schema.fields, ipc_fields)?;
    let custom_metadata = serialize_pairs(alloc, &schema.metadata)?;
    let table = tables::Schema {
        endianness: endianness(is_little_endian),
        fields,
        custom_metadata,
        features: None,
    };
    if !is_light(&table) {
        return Err(Fault::Argument(ArgFault::NotWritable));
    }
    Ok(table)
}

/// Returns the encoded message of a schema with these ids, without its prefix.
///
/// The fields are in normal form, and the numbers in bodies are little-endian. Its version is V5,
/// it has no metadata of its own, and its layout follows the rules for FlatBuffers writers. It is
/// at most as long as the weight of the schema, so no schema is refused for the length of its
/// message. Errors:
///
/// - `Fault::Argument(ArgFault::FieldsShape)`: the ids don't have the shape of the fields.
/// - `Fault::Argument(ArgFault::NotWritable)`: the schema can't be written, as listed below.
/// - `Fault::Memory`: an allocation failed.
///
/// A schema can't be written if one of these is true:
///
/// - It has more than 65,536 dictionaries.
/// - Two dictionaries with the same id have different types of values (in normal form), or
///   different ids in them.
/// - Fields are nested more than 64 levels deep.
/// - A type is a float.
/// - A 32-bit time is in microseconds or nanoseconds, or a 64-bit time in seconds or milliseconds.
/// - A fixed size is 0 or above `2^31 - 1`, or a precision or scale of a decimal is above
///   `2^31 - 1`.
/// - A struct has no field, or the child of a map isn't a struct of two fields.
/// - A union has no children, or more than 127.
/// - The type ids of a union are not one for each child, not distinct, or not from 0 to 126.
/// - A dictionary is directly in a dictionary, or a dictionary or an extension directly in an
///   extension.
/// - Its weight is above `2^30` (see [`weigh_schema`](crate::weights::weigh_schema)).
pub fn schema_to_bytes(
    alloc: Global,
    schema: &Schema,
    ipc_fields: &[IpcField],
) -> Result<Vec<u8>, Fault>
    ensures { WritesSchema Little result (fields_view schema.now.fields.items)
        (pairs_of schema.now.metadata.entries) (all_ids_view ipc_fields.now) }
{
    schema_to_bytes_as(alloc, schema, ipc_fields, true)
}

/// Returns the message of [`schema_to_bytes`], for bodies in either byte order.
///
/// Arrow columnar format, "Byte Order (Endianness)". `is_little_endian` is the byte order of the
/// numbers in bodies; the numbers of the message itself are little-endian in either case. Errors
/// are those of [`schema_to_bytes`].
pub fn schema_to_bytes_as(
    alloc: Global,
    schema: &Schema,
    ipc_fields: &[IpcField],
    is_little_endian: bool,
) -> Result<Vec<u8>, Fault>
    ensures { WritesSchema (byte_order is_little_endian) result
        (fields_view schema.now.fields.items) (pairs_of schema.now.metadata.entries)
        (all_ids_view ipc_fields.now) }
{
    let schema = serialize_schema(alloc, schema, ipc_fields, is_little_endian)?;
    let message = Message {
        version: MetadataVersion::V5,
        header: MessageHeader::Schema(schema),
        body_length: 0,
        custom_metadata: None,
    };
    message.to_bytes(alloc)
}
