//! Equality of types, fields and schemas, as `==` decides it.
ghost use Rattle.std.specs.Prelude.{◌≡◌, ◌↔◌, IsTrue};
ghost use Rattle.lower.specs.TypeViews.{type_view, field_view, schema_view};

use super::{DataType, Field, Schema};

/// Returns whether two types are equal.
///
/// The names and the metadata of all nested fields count.
pub fn is_same_type(data_type: &DataType, other: &DataType) -> bool
    ensures { IsTrue result ↔ type_view data_type.now ≡ type_view other.now }
{
    *data_type == *other
}

/// Returns whether two fields are equal, with their metadata.
pub fn is_same_field(field: &Field, other: &Field) -> bool
    ensures { IsTrue result ↔ field_view field.now ≡ field_view other.now }
{
    *field == *other
}

/// Returns whether two schemas have equal fields in the same order, and equal metadata.
pub fn is_same_schema(schema: &Schema, other: &Schema) -> bool
    ensures { IsTrue result ↔ schema_view schema.now ≡ schema_view other.now }
{
    *schema == *other
}
