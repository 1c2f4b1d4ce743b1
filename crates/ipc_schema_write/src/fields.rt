//! Encodes fields as tables of a schema.
//!
//! Arrow columnar format, "Schema message"; the table `Field` of `Schema.fbs`.
ghost use Rattle.std.specs.Prelude.{IfOk};
ghost use Rattle.lower.specs.Counts.{children};
ghost use Rattle.lower.specs.TypeViews.{field_view, fields_view, type_view};
ghost use Rattle.ipc_base.specs.Fitting.{AllFit, ChildrenFit, Fits, IsOne};
ghost use Rattle.ipc_base.specs.IdTrees.{all_ids_view, ids_view};
ghost use Rattle.lower.specs.TypeTrees.{more_fields, no_fields};
ghost use Rattle.ipc_model.specs.Writable.{AreWritable, IsWritableField, IsWritableType};
ghost use Rattle.ipc_schema_write.specs.Meanings.{AreFieldTables, IsFieldTable};

use crate::metadata::serialize_field_pairs;
use crate::types::{serialize_encoding, serialize_type};
use ipc_base::ipc::IpcField;
use ipc_tables::schema as tables;
use lower::datatypes::{DataType, Field};
use std::alloc::{AllocError, Global};

// The table of a field in normal form, with its ids.
#[cycle(fields)]
fn serialize_field(
    alloc: Global,
    field: &Field,
    ipc_field: &IpcField,
) -> Result<tables::Field, AllocError>
    requires writable { IsWritableField (field_view field.now) }
    requires fit { Fits (field_view field.now) (ids_view ipc_field.now) }
    ensures { IfOk result (λ table. IsFieldTable table (field_view field.now) (ids_view ipc_field.now)) }
{
    let name = field.name.clone()?;
    let type_ = serialize_type(&field.data_type)?;
    let dictionary = serialize_encoding(&field.data_type, ipc_field.dictionary_id);
    let children = serialize_children(alloc, &field.data_type, &ipc_field.fields)?;
    let custom_metadata = serialize_field_pairs(alloc, &field.metadata, &field.data_type)?;
    Ok(tables::Field {
        name,
        nullable: field.is_nullable,
        type_,
        dictionary,
        children,
        custom_metadata,
    })
}

// The tables of the children of a field of this type.
#[cycle(fields)]
fn serialize_children(
    alloc: Global,
    data_type: &DataType,
    ipc_fields: &[IpcField],
) -> Result<Vec<tables::Field>, AllocError>
    requires writable { IsWritableType (type_view data_type.now) }
    requires fit { ChildrenFit (type_view data_type.now) (all_ids_view ipc_fields.now) }
    ensures { IfOk result (λ all. AreFieldTables all.items (children (type_view data_type.now)) (all_ids_view ipc_fields.now)) }
{
    match data_type {
        DataType::List(child)
        | DataType::LargeList(child)
        | DataType::FixedSizeList(child, _)
        | DataType::Map(child, _) => serialize_child(alloc, child, ipc_fields),
        DataType::Struct(fields) | DataType::Union(fields, _, _) => {
            serialize_fields(alloc, fields, ipc_fields)
        }
        DataType::Dictionary(_, inner, _) | DataType::Extension(_, inner, _) => {
            serialize_children(alloc, inner, ipc_fields)
        }
        _ => Ok(Vec::new(alloc)),
    }
}

// The table of an only child.
#[cycle(fields)]
fn serialize_child(
    alloc: Global,
    child: &Field,
    ipc_fields: &[IpcField],
) -> Result<Vec<tables::Field>, AllocError>
    requires writable { IsWritableField (field_view child.now) }
    requires fit { IsOne (Fits (field_view child.now)) (all_ids_view ipc_fields.now) }
    ensures { IfOk result (λ all. AreFieldTables all.items (more_fields (field_view child.now) no_fields) (all_ids_view ipc_fields.now)) }
{
    let table = serialize_field(alloc, child, &ipc_fields[0])?;
    let mut all = Vec::new(alloc);
    all.push(table)?;
    Ok(all)
}

/// Returns the tables of fields in normal form, with their ids.
#[cycle(fields)]
pub(crate) fn serialize_fields(
    alloc: Global,
    fields: &[Field],
    ipc_fields: &[IpcField],
) -> Result<Vec<tables::Field>, AllocError>
    requires writable { AreWritable (fields_view fields.now) }
    requires fit { AllFit (fields_view fields.now) (all_ids_view ipc_fields.now) }
    ensures { IfOk result (λ all. AreFieldTables all.items (fields_view fields.now) (all_ids_view ipc_fields.now)) }
{
    let mut all = Vec::new(alloc);
    for (i, field) in fields.iter().enumerate() {
        all.push(serialize_field(alloc, field, &ipc_fields[i])?)?;
    }
    Ok(all)
}
