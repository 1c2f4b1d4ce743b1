//! Float columns as their bits.
//!
//! No column can have a float type here. Float columns are read as unsigned integers of the same
//! width: their memory layout is the same (Arrow columnar format, "Fixed-size Primitive Layout").
ghost use Rattle.std.specs.Prelude.{◌≡◌, IfOk};
ghost use Rattle.lower.specs.TypeViews.{type_view, field_view, fields_view, ids_of};
ghost use Rattle.lower.specs.FloatBits.{as_bits, field_as_bits, fields_as_bits};

use super::clones::clone_metadata;
use super::{DataType, Field};
use std::alloc::{AllocError, Global};

/// Returns the type with each float type, at any depth, as the unsigned integer of its width.
///
/// It fails only if an allocation fails.
#[cycle(bits)]
pub fn type_as_bits(alloc: Global, data_type: &DataType) -> Result<DataType, AllocError>
    ensures { IfOk result (λ t. type_view t ≡ as_bits (type_view data_type.now)) }
{
    match data_type {
        DataType::Float16 => Ok(DataType::UInt16),
        DataType::Float32 => Ok(DataType::UInt32),
        DataType::Float64 => Ok(DataType::UInt64),
        DataType::List(field) => Ok(DataType::List(boxed_as_bits(alloc, field)?)),
        DataType::FixedSizeList(field, size) => {
            Ok(DataType::FixedSizeList(boxed_as_bits(alloc, field)?, *size))
        }
        DataType::LargeList(field) => Ok(DataType::LargeList(boxed_as_bits(alloc, field)?)),
        DataType::Struct(fields) => Ok(DataType::Struct(fields_as_bits(alloc, fields)?)),
        DataType::Union(fields, ids, mode) => {
            let fields = fields_as_bits(alloc, fields)?;
            Ok(DataType::Union(fields, clone_ids(ids)?, *mode))
        }
        DataType::Map(field, sorted) => Ok(DataType::Map(boxed_as_bits(alloc, field)?, *sorted)),
        DataType::Dictionary(keys, values, ordered) => {
            let values = Box::new(alloc, type_as_bits(alloc, values)?)?;
            Ok(DataType::Dictionary(*keys, values, *ordered))
        }
        DataType::Extension(name, inner, text) => {
            let inner = Box::new(alloc, type_as_bits(alloc, inner)?)?;
            Ok(DataType::Extension(name.clone()?, inner, text.clone()?))
        }
        _ => {
            let copy = data_type.clone()?;
            Ok(copy)
        }
    }
}

#[cycle(bits)]
fn field_as_bits(alloc: Global, field: &Field) -> Result<Field, AllocError>
    ensures { IfOk result (λ f. field_view f ≡ field_as_bits (field_view field.now)) }
{
    Ok(Field {
        name: field.name.clone()?,
        data_type: type_as_bits(alloc, &field.data_type)?,
        is_nullable: field.is_nullable,
        metadata: clone_metadata(&field.metadata)?,
    })
}

#[cycle(bits)]
fn boxed_as_bits(alloc: Global, field: &Box<Field>) -> Result<Box<Field>, AllocError>
    ensures { IfOk result (λ f.
        field_view f.value ≡ field_as_bits (field_view field.now.value)) }
{
    Ok(Box::new(alloc, field_as_bits(alloc, field)?)?)
}

/// Returns the fields with each float type as the unsigned integer of its width.
///
/// It fails only if an allocation fails.
#[cycle(bits)]
pub fn fields_as_bits(alloc: Global, fields: &Vec<Field>) -> Result<Vec<Field>, AllocError>
    ensures { IfOk result (λ fs.
        fields_view fs.items ≡ fields_as_bits (fields_view fields.now.items)) }
{
    let mut all = Vec::new(alloc);
    for field in fields {
        all.push(field_as_bits(alloc, field)?)?;
    }
    Ok(all)
}

fn clone_ids(ids: &Option<Vec<i32>>) -> Result<Option<Vec<i32>>, AllocError>
    ensures { IfOk result (λ copy. ids_of copy ≡ ids_of ids.now) }
{
    match ids {
        None => Ok(None),
        Some(ids) => Ok(Some(ids.clone()?)),
    }
}
