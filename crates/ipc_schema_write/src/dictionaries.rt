//! The dictionaries of a schema.
ghost use Rattle.std.specs.Prelude.{◌≡◌, ◌++◌, ◌∷◌, [], ◌↔◌, true, AllPairs, IfOk, IsTrue, OnOk, Some, is_some};
ghost use Rattle.lower.specs.Counts.{is_dictionary};
ghost use Rattle.lower.specs.TypeViews.{field_view, fields_view, type_view};
ghost use Rattle.ipc_base.specs.Fitting.{AllFit, ChildrenFit, Fits};
ghost use Rattle.ipc_base.specs.IdTrees.{IdTrees, all_ids_view, ids_view};
ghost use Rattle.ipc_model.specs.Batches.{field_places, inner_places, own_place, places};
ghost use Rattle.ipc_model.specs.Writable.{SameUnderId};
ghost use Rattle.ipc_schema_write.specs.Places.{HaveOneValueType, place_view, places_view};

use ipc_base::ipc::IpcField;
use lower::datatypes::{DataType, Field, is_same_normal_type};
use std::alloc::{AllocError, Global};
use std::collections::HashMap;

/// A field whose type is a dictionary.
#[derive(Clone, Copy)]
pub(crate) struct DictionaryPlace<'a> {
    /// The id of the dictionary.
    pub(crate) id: i64,
    /// The type of the dictionary's values.
    pub(crate) values: &'a DataType,
    /// The ids of fields in the values.
    pub(crate) ids: &'a [IpcField],
}

impl DictionaryPlace<'_> {
    // The id of the dictionary.
    fn id(&self) -> i64
        ensures { result ≡ self.now.id }
    {
        self.id
    }
}

// The type of the values of a dictionary, which may be in an extension.
fn values_of(data_type: &DataType) -> &DataType
    requires { is_dictionary (type_view data_type.now) ≡ true }
    ensures { (id : _) (is : IdTrees) → own_place (type_view data_type.now) id is ≡ record { id = id; type = type_view result.now; ids = is } ∷ [] }
{
    match data_type {
        DataType::Dictionary(_, values, _) => values,
        DataType::Extension(_, inner, _) => values_of(inner),
        _ => data_type,
    }
}

// Adds a field itself, if it is a dictionary.
fn add_own<'a>(
    data_type: &'a DataType,
    id: Option<i64>,
    ids: &'a [IpcField],
    all: &mut Vec<DictionaryPlace<'a>>,
) -> Result<(), AllocError>
    requires { is_some id ≡ is_dictionary (type_view data_type.now) }
    ensures { OnOk result (places_view all.new.items ≡ places_view all.old.items
        ++ own_place (type_view data_type.now) id (all_ids_view ids.now)) }
{
    match id {
        Some(id) => {
            let values = values_of(data_type);
            all.push(DictionaryPlace { id, values, ids })?;
            Ok(())
        }
        None => Ok(()),
    }
}

#[cycle(places)]
fn add_places_of<'a>(
    field: &'a Field,
    ipc_field: &'a IpcField,
    all: &mut Vec<DictionaryPlace<'a>>,
) -> Result<(), AllocError>
    requires fit { Fits (field_view field.now) (ids_view ipc_field.now) }
    ensures { OnOk result (places_view all.new.items ≡ places_view all.old.items
        ++ field_places (field_view field.now) (ids_view ipc_field.now)) }
{
    add_own(
        &field.data_type,
        ipc_field.dictionary_id,
        &ipc_field.fields,
        all,
    )?;
    add_inner(&field.data_type, &ipc_field.fields, all)
}

// Adds the dictionaries below a type.
#[cycle(places)]
fn add_inner<'a>(
    data_type: &'a DataType,
    ipc_fields: &'a [IpcField],
    all: &mut Vec<DictionaryPlace<'a>>,
) -> Result<(), AllocError>
    requires fit { ChildrenFit (type_view data_type.now) (all_ids_view ipc_fields.now) }
    ensures { OnOk result (places_view all.new.items ≡ places_view all.old.items
        ++ inner_places (type_view data_type.now) (all_ids_view ipc_fields.now)) }
{
    match data_type {
        DataType::List(child)
        | DataType::LargeList(child)
        | DataType::FixedSizeList(child, _)
        | DataType::Map(child, _) => add_places_of(child, &ipc_fields[0], all),
        DataType::Struct(fields) | DataType::Union(fields, _, _) => {
            add_places(fields, ipc_fields, all)
        }
        DataType::Dictionary(_, inner, _) | DataType::Extension(_, inner, _) => {
            add_inner(inner, ipc_fields, all)
        }
        _ => Ok(()),
    }
}

/// Appends the dictionaries of these fields at all levels, with ids, in pre-order.
#[cycle(places)]
pub(crate) fn add_places<'a>(
    fields: &'a [Field],
    ipc_fields: &'a [IpcField],
    all: &mut Vec<DictionaryPlace<'a>>,
) -> Result<(), AllocError>
    requires fit { AllFit (fields_view fields.now) (all_ids_view ipc_fields.now) }
    ensures { OnOk result (places_view all.new.items ≡ places_view all.old.items
        ++ places (fields_view fields.now) (all_ids_view ipc_fields.now)) }
{
    for (i, field) in fields.iter().enumerate() {
        add_places_of(field, &ipc_fields[i], all)?;
    }
    Ok(())
}

/// Returns whether both have the same ids in the same shape.
#[cycle(same_ids)]
pub fn are_same_ids(a: &[IpcField], b: &[IpcField]) -> bool
    ensures { IsTrue result ↔ (all_ids_view a.now ≡ all_ids_view b.now) }
{
    if a.len() != b.len() {
        return false;
    }
    for (i, field) in a.iter().enumerate() {
        if !is_same_id(field, &b[i]) {
            return false;
        }
    }
    true
}

#[cycle(same_ids)]
fn is_same_id(a: &IpcField, b: &IpcField) -> bool
    ensures { IsTrue result ↔ (ids_view a.now ≡ ids_view b.now) }
{
    a.dictionary_id == b.dictionary_id && are_same_ids(&a.fields, &b.fields)
}

// Whether both have the same type of values, in normal form, with the same ids in it.
fn have_same_values(place: &DictionaryPlace<'_>, other: &DictionaryPlace<'_>) -> bool
    ensures { IsTrue result ↔ HaveOneValueType (place_view place.now) (place_view other.now) }
{
    is_same_normal_type(place.values, other.values) && are_same_ids(place.ids, other.ids)
}

/// Returns whether dictionaries with the same id have the same type of values.
///
/// The types are compared in normal form, with the ids in them. Each is compared with the first one
/// of its id.
pub(crate) fn agree(alloc: Global, places: &[DictionaryPlace<'_>]) -> Result<bool, AllocError>
    ensures { IfOk result (λ b. IsTrue b ↔ AllPairs SameUnderId (places_view places.now)) }
{
    let mut firsts = HashMap::new(alloc);
    for (i, place) in places.iter().enumerate() {
        if let Some(first) = firsts.get(&place.id) {
            if !have_same_values(&places[*first], place) {
                return Ok(false);
            }
        } else {
            firsts.insert(place.id(), i)?;
        }
    }
    Ok(true)
}
