//! The ids of dictionaries, in trees that parallel the fields of a schema.
ghost use Rattle.std.specs.Prelude.{◌≡◌, ◌↔◌, IsTrue, IfOk, None};
ghost use Rattle.lower.specs.TypeViews.{type_view, field_view, fields_view};
ghost use Rattle.ipc_base.specs.IdTrees.{ids, no_ids, ids_view, all_ids_view, ipc_schema_view};
ghost use Rattle.ipc_base.specs.Fitting.{AllFit, field_fits, children_fit, only_one, all_fit};

use lower::datatypes::counts::is_dictionary_type;
use lower::datatypes::{DataType, Field};
use std::alloc::{AllocError, Global};

/// The dictionary id of a field, and those of its children.
///
/// Arrow columnar format, "Dictionary Messages". A field has an id if its type, without extensions,
/// is a dictionary. Its children are then those of the dictionary's value type.
#[derive(Debug, Drop, PartialEq)]
pub struct IpcField {
    /// The ids of the children, in order.
    pub fields: Vec<IpcField>,
    /// The id, if the field is a dictionary.
    pub dictionary_id: Option<i64>,
}

impl IpcField {
    /// Returns neither an id nor children. It allocates nothing.
    pub fn empty(alloc: Global) -> IpcField
        ensures { ids_view result ≡ ids None no_ids }
    {
        IpcField {
            fields: Vec::new(alloc),
            dictionary_id: None,
        }
    }

    /// Returns the same ids. It fails only if an allocation fails.
    #[cycle(clones)]
    pub fn clone(&self) -> Result<IpcField, AllocError>
        ensures { IfOk result (λ copy. ids_view copy ≡ ids_view self.now) }
    {
        Ok(IpcField {
            fields: clone_ipc_fields(&self.fields)?,
            dictionary_id: self.dictionary_id,
        })
    }
}

/// Returns the same ids. It fails only if an allocation fails.
#[cycle(clones)]
pub fn clone_ipc_fields(fields: &Vec<IpcField>) -> Result<Vec<IpcField>, AllocError>
    ensures { IfOk result (λ copy. all_ids_view copy.items ≡ all_ids_view fields.now.items) }
{
    let mut copies = Vec::new(*fields.allocator());
    for field in fields {
        copies.push(field.clone()?)?;
    }
    Ok(copies)
}

/// What IPC adds to a schema: dictionary ids and a byte order.
#[derive(Debug, Drop, PartialEq)]
pub struct IpcSchema {
    /// The ids of the fields, in order.
    pub fields: Vec<IpcField>,
    /// Whether the numbers in the bodies are little-endian.
    pub is_little_endian: bool,
}

impl IpcSchema {
    /// Returns the same ids and byte order. It fails only if an allocation fails.
    pub fn clone(&self) -> Result<IpcSchema, AllocError>
        ensures { IfOk result (λ copy. ipc_schema_view copy ≡ ipc_schema_view self.now) }
    {
        Ok(IpcSchema {
            fields: clone_ipc_fields(&self.fields)?,
            is_little_endian: self.is_little_endian,
        })
    }
}

#[cycle(fits)]
fn fits_all(fields: &[Field], ipc_fields: &[IpcField]) -> bool
    ensures { result ≡ all_fit (fields_view fields.now) (all_ids_view ipc_fields.now) }
{
    if fields.len() != ipc_fields.len() {
        return false;
    }
    for (field, ipc_field) in fields.iter().zip(ipc_fields) {
        if !fits_field(field, ipc_field) {
            return false;
        }
    }
    true
}

#[cycle(fits)]
fn fits_field(field: &Field, ipc_field: &IpcField) -> bool
    ensures { result ≡ field_fits (field_view field.now) (ids_view ipc_field.now) }
{
    ipc_field.dictionary_id.is_some() == is_dictionary_type(&field.data_type)
        && fits_children(&field.data_type, &ipc_field.fields)
}

#[cycle(fits)]
fn fits_only(field: &Field, ipc_fields: &[IpcField]) -> bool
    ensures { result ≡ only_one (field_fits (field_view field.now)) (all_ids_view ipc_fields.now) }
{
    ipc_fields.len() == 1 && fits_field(field, &ipc_fields[0])
}

#[cycle(fits)]
fn fits_children(data_type: &DataType, ipc_fields: &[IpcField]) -> bool
    ensures { result ≡ children_fit (type_view data_type.now) (all_ids_view ipc_fields.now) }
{
    match data_type {
        DataType::List(field)
        | DataType::LargeList(field)
        | DataType::FixedSizeList(field, _)
        | DataType::Map(field, _) => fits_only(field, ipc_fields),
        DataType::Struct(fields) | DataType::Union(fields, _, _) => fits_all(fields, ipc_fields),
        DataType::Dictionary(_, values, _) => fits_children(values, ipc_fields),
        DataType::Extension(_, inner, _) => fits_children(inner, ipc_fields),
        _ => ipc_fields.is_empty(),
    }
}

/// Returns whether the ids fit the fields.
///
/// At every level there must be as many ids as fields, and an id must be present exactly at
/// dictionaries.
pub fn fits(fields: &[Field], ipc_fields: &[IpcField]) -> bool
    ensures { IsTrue result ↔ AllFit (fields_view fields.now) (all_ids_view ipc_fields.now) }
{
    fits_all(fields, ipc_fields)
}
