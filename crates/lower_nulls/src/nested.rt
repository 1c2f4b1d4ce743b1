//! Null slots of any type.
ghost use Rattle.std.specs.Prelude.{◌≡◌, map, MatchResult};
ghost use Rattle.lower.specs.TypeTrees.{single, group, dictionary, fixed_list, entries, structure, choice};
ghost use Rattle.lower.specs.TypeViews.{type_view, field_view, fields_view, ids_of};
ghost use Rattle.lower.specs.Physical.{logical};
ghost use Rattle.lower_validation.specs.Fields.{field_type};
ghost use Rattle.lower_arrays.specs.Layouts.{len_of, type_of};
ghost use Rattle.lower_arrays.specs.AnyLayouts.{layout_of};
ghost use Rattle.lower_nulls.specs.Nulls.{AreNulls, NoNulls, NoEmpty};
ghost use Rattle.lower_nulls.specs.Storage.{list_form, AllNulls, NoneOfAll};

use crate::error::NullError;
use crate::flat::{null_fixed_size_binary, null_plain};
use crate::keys::null_keys;
use crate::parts::{list_offsets, repeated, unset_bits, zero_offsets};
use crate::unions::{first_type, zero_offsets_of};
use lower::buffer::Buffer;
use lower::datatypes::{DataType, Field, IntegerType, UnionMode};
use lower_arrays::array::{
    AnyArray, DictionaryArray, FixedSizeListArray, ListArray, MapArray, StructArray, UnionArray,
};
use std::alloc::Global;
use std::sync::Arc;

/// Returns an array of `length` null slots.
///
/// Lists, maps and dictionaries have no values, and all children of a struct or a union have
/// `length` null slots. A union's slots are of its first child. Errors:
///
/// - `NullError::DataType`: no array has the data type. It has a float, an empty struct, a fixed
///   size of 0, a map without pairs, or a union whose children or ids break a rule.
/// - `NullError::Length`: slots of a fixed size have 2^64 or more bytes or slots of a child.
/// - `NullError::Memory`: an allocation fails.
pub fn new_null_array(
    alloc: Global,
    data_type: DataType,
    length: usize,
) -> Result<AnyArray, NullError>
    ensures { MatchResult result
        (λ a. AreNulls (type_view data_type) length (layout_of a))
        (NoNulls (type_view data_type) length) }
{
    let storage = data_type.clone()?;
    null_as(alloc, &storage, data_type, length)
}

/// Returns an array without slots.
///
/// Errors:
///
/// - `NullError::DataType`: no array has the data type, as in [`new_null_array`].
/// - `NullError::Memory`: an allocation fails.
pub fn new_empty_array(alloc: Global, data_type: DataType) -> Result<AnyArray, NullError>
    ensures { MatchResult result
        (λ a. (type_of (layout_of a) ≡ type_view data_type) × (len_of (layout_of a) ≡ 0))
        (NoEmpty (type_view data_type)) }
{
    new_null_array(alloc, data_type, 0)
}

// Null slots of a type that is stored as `storage`.
#[cycle(nulls)]
fn null_as(
    alloc: Global,
    storage: &DataType,
    data_type: DataType,
    length: usize,
) -> Result<AnyArray, NullError>
    requires { logical (type_view data_type) ≡ logical (type_view storage.now) }
    ensures { MatchResult result
        (λ a. AreNulls (type_view data_type) length (layout_of a))
        (NoNulls (type_view data_type) length) }
{
    match storage {
        DataType::Extension(_, inner, _) => null_as(alloc, inner, data_type, length),
        DataType::List(field) => null_list(alloc, field, false, data_type, length),
        DataType::LargeList(field) => null_list(alloc, field, true, data_type, length),
        DataType::FixedSizeList(field, size) => null_fixed_size_list(
            alloc, field, *size, data_type, length,
        ),
        DataType::Map(field, sorted) => null_map(alloc, field, *sorted, data_type, length),
        DataType::Struct(fields) => null_struct(alloc, fields, data_type, length),
        DataType::Union(fields, ids, mode) => null_union(
            alloc, fields, ids, *mode, data_type, length,
        ),
        DataType::Dictionary(keys, values, ordered) => null_dictionary(
            alloc, *keys, values, *ordered, data_type, length,
        ),
        DataType::FixedSizeBinary(size) => null_fixed_size_binary(alloc, *size, data_type, length),
        DataType::Float16 | DataType::Float32 | DataType::Float64 => Err(NullError::DataType),
        _ => null_plain(alloc, storage, data_type, length),
    }
}

// Null slots of a field's type.
#[cycle(nulls)]
fn null_child(alloc: Global, field: &Field, length: usize) -> Result<AnyArray, NullError>
    ensures { let t = field_type (field_view field.now) in MatchResult result
        (λ a. AreNulls t length (layout_of a))
        (NoNulls t length) }
{
    let data_type = field.data_type.clone()?;
    null_as(alloc, &field.data_type, data_type, length)
}

// Null slots of each field's type.
#[cycle(nulls)]
fn null_children(alloc: Global, fields: &[Field], length: usize) -> Result<Vec<AnyArray>, NullError>
    ensures { MatchResult result
        (λ cs. AllNulls (map field_view fields.now) length (map layout_of cs.items))
        (NoneOfAll (fields_view fields.now) length) }
{
    let mut children = Vec::with_capacity(alloc, fields.len())?;
    for field in fields {
        let child = null_child(alloc, field, length)?;
        children.push(child)?;
    }
    Ok(children)
}

// Null lists.
#[cycle(nulls)]
fn null_list(
    alloc: Global,
    field: &Field,
    is_large: bool,
    data_type: DataType,
    length: usize,
) -> Result<AnyArray, NullError>
    requires { let form = list_form is_large in
        logical (type_view data_type) ≡ single form (field_view field.now) }
    ensures { MatchResult result
        (λ a. AreNulls (type_view data_type) length (layout_of a))
        (NoNulls (type_view data_type) length) }
{
    let child = null_child(alloc, field, 0)?;
    let offsets = list_offsets(alloc, is_large, length)?;
    let values = Box::new(alloc, child)?;
    let validity = unset_bits(alloc, length)?;
    let array = ListArray::try_new(data_type, offsets, values, Some(validity))?;
    Ok(AnyArray::from(array))
}

// Null lists of `size` slots each.
#[cycle(nulls)]
fn null_fixed_size_list(
    alloc: Global,
    field: &Field,
    size: usize,
    data_type: DataType,
    length: usize,
) -> Result<AnyArray, NullError>
    requires { logical (type_view data_type) ≡ single (fixed_list size) (field_view field.now) }
    ensures { MatchResult result
        (λ a. AreNulls (type_view data_type) length (layout_of a))
        (NoNulls (type_view data_type) length) }
{
    let Some(count) = length.checked_mul(size) else {
        return Err(NullError::Length);
    };
    let child = null_child(alloc, field, count)?;
    let values = Box::new(alloc, child)?;
    let validity = unset_bits(alloc, length)?;
    let array = FixedSizeListArray::try_new(data_type, values, Some(validity))?;
    Ok(AnyArray::from(array))
}

// Null maps.
#[cycle(nulls)]
fn null_map(
    alloc: Global,
    field: &Field,
    sorted: bool,
    data_type: DataType,
    length: usize,
) -> Result<AnyArray, NullError>
    requires { logical (type_view data_type) ≡ single (entries sorted) (field_view field.now) }
    ensures { MatchResult result
        (λ a. AreNulls (type_view data_type) length (layout_of a))
        (NoNulls (type_view data_type) length) }
{
    let child = null_child(alloc, field, 0)?;
    let offsets = zero_offsets::<i32>(alloc, length)?;
    let values = Box::new(alloc, child)?;
    let validity = unset_bits(alloc, length)?;
    let array = MapArray::try_new(data_type, offsets, values, Some(validity))?;
    Ok(AnyArray::from(array))
}

// Null structs.
#[cycle(nulls)]
fn null_struct(
    alloc: Global,
    fields: &[Field],
    data_type: DataType,
    length: usize,
) -> Result<AnyArray, NullError>
    requires { logical (type_view data_type) ≡ group structure (fields_view fields.now) }
    ensures { MatchResult result
        (λ a. AreNulls (type_view data_type) length (layout_of a))
        (NoNulls (type_view data_type) length) }
{
    let children = null_children(alloc, fields, length)?;
    let validity = unset_bits(alloc, length)?;
    let array = StructArray::try_new(data_type, children, Some(validity))?;
    Ok(AnyArray::from(array))
}

// Null slots of a union's first child.
#[cycle(nulls)]
fn null_union(
    alloc: Global,
    fields: &[Field],
    ids: &Option<Vec<i32>>,
    mode: UnionMode,
    data_type: DataType,
    length: usize,
) -> Result<AnyArray, NullError>
    requires { let union = choice (ids_of ids.now) mode in
        logical (type_view data_type) ≡ group union (fields_view fields.now) }
    ensures { MatchResult result
        (λ a. AreNulls (type_view data_type) length (layout_of a))
        (NoNulls (type_view data_type) length) }
{
    let children = null_children(alloc, fields, length)?;
    let Some(id) = first_type(ids) else {
        return Err(NullError::DataType);
    };
    let types = Buffer::new(repeated(alloc, id, length)?)?;
    let offsets = zero_offsets_of(alloc, mode, length)?;
    let array = UnionArray::try_new(data_type, types, children, offsets)?;
    Ok(AnyArray::from(array))
}

// Null keys, without values.
#[cycle(nulls)]
fn null_dictionary(
    alloc: Global,
    keys: IntegerType,
    storage: &DataType,
    ordered: bool,
    data_type: DataType,
    length: usize,
) -> Result<AnyArray, NullError>
    requires { logical (type_view data_type) ≡ dictionary keys (type_view storage.now) ordered }
    ensures { MatchResult result
        (λ a. AreNulls (type_view data_type) length (layout_of a))
        (NoNulls (type_view data_type) length) }
{
    let values_type = storage.clone()?;
    let child = null_as(alloc, storage, values_type, 0)?;
    let keys = null_keys(alloc, keys, length)?;
    let values = Arc::new(alloc, child)?;
    let array = DictionaryArray::try_new(data_type, keys, values)?;
    Ok(AnyArray::from(array))
}
