//! What a data type says of the children of its arrays.
ghost use Rattle.std.specs.Prelude.{◌≡◌, ◌↔◌, [], ◌∷◌, IsTrue};
ghost use Rattle.lower.specs.TypeViews.{type_view, field_view, fields_view};
ghost use Rattle.lower_validation.specs.Fields.{child_fields, field_type, field_count, FieldTypes, IsPair};
ghost use Rattle.lower_validation.specs.ListTypes.{list_size};
ghost use Rattle.lower_validation.specs.Keys.{is_ordered};

use lower::datatypes::{DataType, Field, is_same_type};
use std::slice;

/// Returns the fields of the children. An extension has those of its storage type.
pub fn child_fields(data_type: &DataType) -> &[Field]
    ensures { fields_view result.now ≡ child_fields (type_view data_type.now) }
{
    match data_type {
        DataType::List(field)
        | DataType::LargeList(field)
        | DataType::FixedSizeList(field, _)
        | DataType::Map(field, _) => slice::from_ref(&**field),
        DataType::Struct(fields) | DataType::Union(fields, _, _) => fields,
        DataType::Extension(_, inner, _) => child_fields(inner),
        _ => &[],
    }
}

/// Returns whether there are `count` fields.
#[tactic(auto, using(crate::proofs::OneField::fields_counted))]
pub fn are_so_many(fields: &[Field], count: usize) -> bool
    ensures { IsTrue result ↔ (count ≡ field_count (fields_view fields.now)) }
{
    fields.len() == count
}

/// Returns whether the field has this type.
pub fn has_type(field: &Field, data_type: &DataType) -> bool
    ensures { IsTrue result ↔ (type_view data_type.now ≡ field_type (field_view field.now)) }
{
    is_same_type(data_type, &field.data_type)
}

/// Returns whether there is exactly one field, and it has this type.
pub fn is_only_child(fields: &[Field], child: &DataType) -> bool
    ensures { IsTrue result ↔ FieldTypes (fields_view fields.now) (type_view child.now ∷ []) }
{
    if fields.len() != 1 {
        return false;
    }
    has_type(&fields[0], child)
}

/// Returns whether the type is a struct of two fields.
pub fn is_pair(data_type: &DataType) -> bool
    ensures { IsTrue result ↔ IsPair (type_view data_type.now) }
{
    match data_type {
        DataType::Struct(fields) => are_so_many(fields, 2),
        _ => false,
    }
}

/// Returns the number of slots of each list, or 0 if it isn't fixed.
pub fn list_size(data_type: &DataType) -> usize
    ensures { result ≡ list_size (type_view data_type.now) }
{
    match data_type.to_logical_type() {
        DataType::FixedSizeList(_, size) => *size,
        _ => 0,
    }
}

/// Returns whether the order of a dictionary's values has a meaning.
pub fn is_ordered(data_type: &DataType) -> bool
    ensures { result ≡ is_ordered (type_view data_type.now) }
{
    match data_type.to_logical_type() {
        DataType::Dictionary(_, _, is_ordered) => *is_ordered,
        _ => false,
    }
}
