//! The schemas that this program supports.
//!
//! Arrow columnar format, "Data Types" and "Schema message".
use lower::datatypes::{IntegerType, Metadata};
use lower_types::Endianness;

/// A field of a schema, or of another field.
///
/// An extension type is only in the metadata: `data_type` is the type that it is stored as.
#[cycle(types)]
#[derive(Debug, Drop, PartialEq, Eq)]
pub struct PlainField {
    /// The name.
    pub name: String,
    /// The type.
    pub data_type: PlainType,
    /// Whether a slot may be null.
    pub is_nullable: bool,
    /// The field's own pairs of texts.
    pub metadata: Metadata,
}

/// The type of a field.
#[cycle(types)]
#[derive(Debug, Drop, PartialEq, Eq)]
pub enum PlainType {
    /// Integers of up to 64 bits.
    Int(IntegerType),
    /// Texts, with offsets of 32 bits.
    Utf8,
    /// Lists, with offsets of 32 bits: the field of their slots.
    List(Box<PlainField>),
    /// Structs: one slot of each child.
    Struct(Vec<PlainField>),
}

/// A schema.
#[derive(Debug, Drop, PartialEq, Eq)]
pub struct PlainSchema {
    /// The fields, in their order.
    pub fields: Vec<PlainField>,
    /// The schema's own pairs of texts.
    pub metadata: Metadata,
    /// The byte order of numbers in the bodies of its batches.
    pub order: Endianness,
}
