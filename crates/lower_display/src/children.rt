//! Types of the children of nested types.
ghost use Rattle.std.specs.Prelude.{◌≡◌};
ghost use Rattle.lower.specs.TypeViews.{type_view, fields_view, ids_of};
ghost use Rattle.lower_validation.specs.Ids.{child_number};
ghost use Rattle.lower_display.specs.Texts.{shown_type, item_type, record_fields, variant_type};

use lower::datatypes::{DataType, Field};
use lower_validation::ids::child_number;

// The type that slots of a column have, through dictionaries and extensions.
fn shown_type(data_type: &DataType) -> &DataType
    ensures { type_view result.now ≡ shown_type (type_view data_type.now) }
{
    match data_type {
        DataType::Dictionary(_, values, _) => shown_type(values),
        DataType::Extension(_, storage, _) => shown_type(storage),
        _ => data_type,
    }
}

// The type of the items of a list or a map.
pub fn item_type(data_type: &DataType) -> &DataType
    ensures { type_view result.now ≡ item_type (shown_type (type_view data_type.now)) }
{
    child_type(shown_type(data_type))
}

fn child_type(data_type: &DataType) -> &DataType
    ensures { type_view result.now ≡ item_type (type_view data_type.now) }
{
    match data_type {
        DataType::List(field)
        | DataType::LargeList(field)
        | DataType::FixedSizeList(field, _)
        | DataType::Map(field, _) => &field.data_type,
        _ => data_type,
    }
}

// The fields of a struct; other types have none.
pub fn record_fields(data_type: &DataType) -> &[Field]
    ensures { fields_view result.now ≡ record_fields (shown_type (type_view data_type.now)) }
{
    struct_fields(shown_type(data_type))
}

fn struct_fields(data_type: &DataType) -> &[Field]
    ensures { fields_view result.now ≡ record_fields (type_view data_type.now) }
{
    match data_type {
        DataType::Struct(fields) => fields,
        _ => &[],
    }
}

// The type of the child of a union that a type id names.
pub fn variant_type(data_type: &DataType, id: i8) -> &DataType
    ensures { type_view result.now ≡ variant_type (shown_type (type_view data_type.now)) id }
{
    named_type(shown_type(data_type), id)
}

fn named_type(data_type: &DataType, id: i8) -> &DataType
    ensures { type_view result.now ≡ variant_type (type_view data_type.now) id }
{
    let DataType::Union(fields, ids, _) = data_type else {
        return data_type;
    };
    match fields.get(index_of(ids, id)) {
        Some(field) => &field.data_type,
        None => data_type,
    }
}

// The index of the child that a type id names.
fn index_of(ids: &Option<Vec<i32>>, id: i8) -> usize
    ensures { result ≡ child_number (ids_of ids.now) id }
{
    match ids {
        Some(ids) => child_number(Some(ids.as_slice()), id),
        None => child_number(None, id),
    }
}
