//! Whether the reader and the plain program decode a message to the same schema.

use ipc_base::ipc::IpcSchema;
use ipc_reference_schema::types::{PlainField, PlainSchema, PlainType};
use lower::datatypes::{DataType, Field, IntegerType, Schema};
use lower_types::Endianness;

/// Whether both are the same schema.
pub fn is_same_schema(plain: &PlainSchema, schema: &Schema, ids: &IpcSchema) -> bool {
    (plain.order == Endianness::Little) == ids.is_little_endian
        && plain.metadata == schema.metadata
        && are_same_fields(&plain.fields, &schema.fields)
}

#[cycle(same)]
fn are_same_fields(plain: &[PlainField], fields: &[Field]) -> bool {
    if plain.len() != fields.len() {
        return false;
    }
    for (plain, field) in plain.iter().zip(fields) {
        if !is_same_field(plain, field) {
            return false;
        }
    }
    true
}

// In the plain program's schema only the metadata of a field say that its type is an extension.
#[cycle(same)]
fn is_same_field(plain: &PlainField, field: &Field) -> bool {
    plain.name == field.name
        && plain.is_nullable == field.is_nullable
        && plain.metadata == field.metadata
        && plain.metadata.contains_key("ARROW:extension:name") == is_extension(&field.data_type)
        && is_same_type(&plain.data_type, field.data_type.to_logical_type())
}

fn is_extension(data_type: &DataType) -> bool {
    matches!(data_type, DataType::Extension(_, _, _))
}

#[cycle(same)]
fn is_same_type(plain: &PlainType, data_type: &DataType) -> bool {
    match plain {
        PlainType::Int(form) => is_integer(*form, data_type),
        PlainType::Utf8 => matches!(data_type, DataType::Utf8),
        PlainType::List(item) => match data_type {
            DataType::List(child) => is_same_field(item, child),
            _ => false,
        },
        PlainType::Struct(fields) => match data_type {
            DataType::Struct(children) => are_same_fields(fields, children),
            _ => false,
        },
    }
}

fn is_integer(form: IntegerType, data_type: &DataType) -> bool {
    match form {
        IntegerType::Int8 => matches!(data_type, DataType::Int8),
        IntegerType::Int16 => matches!(data_type, DataType::Int16),
        IntegerType::Int32 => matches!(data_type, DataType::Int32),
        IntegerType::Int64 => matches!(data_type, DataType::Int64),
        IntegerType::UInt8 => matches!(data_type, DataType::UInt8),
        IntegerType::UInt16 => matches!(data_type, DataType::UInt16),
        IntegerType::UInt32 => matches!(data_type, DataType::UInt32),
        IntegerType::UInt64 => matches!(data_type, DataType::UInt64),
    }
}

/// Whether all types, at all levels, are integers, texts, lists and structs, or extensions of
/// these.
#[cycle(plain)]
pub fn are_plain(fields: &[Field]) -> bool {
    for field in fields {
        if !is_plain(&field.data_type) {
            return false;
        }
    }
    true
}

#[cycle(plain)]
fn is_plain(data_type: &DataType) -> bool {
    match data_type {
        DataType::Int8 | DataType::Int16 | DataType::Int32 | DataType::Int64 => true,
        DataType::UInt8 | DataType::UInt16 | DataType::UInt32 | DataType::UInt64 => true,
        DataType::Utf8 => true,
        DataType::List(item) => is_plain(&item.data_type),
        DataType::Struct(fields) => are_plain(fields),
        DataType::Extension(_, storage, _) => is_plain(storage),
        _ => false,
    }
}
