//! Clones. A clone is equal to its source, and fails only if an allocation fails.
ghost use Rattle.std.specs.Prelude.{◌≡◌, IfOk};
ghost use Rattle.lower.specs.TypeViews.{type_view, field_view, fields_view, pairs_of, ids_of, schema_view};

use super::{DataType, Field, Metadata, Schema};
use std::alloc::AllocError;

impl DataType {
    /// Returns a copy of the type. It fails only if an allocation fails.
    #[cycle(clones)]
    pub fn clone(&self) -> Result<DataType, AllocError>
        ensures { IfOk result (λ copy. type_view copy ≡ type_view self.now) }
    {
        match self {
            DataType::Null => Ok(DataType::Null),
            DataType::Boolean => Ok(DataType::Boolean),
            DataType::Int8 => Ok(DataType::Int8),
            DataType::Int16 => Ok(DataType::Int16),
            DataType::Int32 => Ok(DataType::Int32),
            DataType::Int64 => Ok(DataType::Int64),
            DataType::UInt8 => Ok(DataType::UInt8),
            DataType::UInt16 => Ok(DataType::UInt16),
            DataType::UInt32 => Ok(DataType::UInt32),
            DataType::UInt64 => Ok(DataType::UInt64),
            DataType::Float16 => Ok(DataType::Float16),
            DataType::Float32 => Ok(DataType::Float32),
            DataType::Float64 => Ok(DataType::Float64),
            DataType::Timestamp(unit, zone) => Ok(DataType::Timestamp(*unit, zone.clone()?)),
            DataType::Date32 => Ok(DataType::Date32),
            DataType::Date64 => Ok(DataType::Date64),
            DataType::Time32(unit) => Ok(DataType::Time32(*unit)),
            DataType::Time64(unit) => Ok(DataType::Time64(*unit)),
            DataType::Duration(unit) => Ok(DataType::Duration(*unit)),
            DataType::Interval(unit) => Ok(DataType::Interval(*unit)),
            DataType::Binary => Ok(DataType::Binary),
            DataType::FixedSizeBinary(size) => Ok(DataType::FixedSizeBinary(*size)),
            DataType::LargeBinary => Ok(DataType::LargeBinary),
            DataType::Utf8 => Ok(DataType::Utf8),
            DataType::LargeUtf8 => Ok(DataType::LargeUtf8),
            DataType::List(field) => Ok(DataType::List(clone_boxed(field)?)),
            DataType::FixedSizeList(field, size) => {
                Ok(DataType::FixedSizeList(clone_boxed(field)?, *size))
            }
            DataType::LargeList(field) => Ok(DataType::LargeList(clone_boxed(field)?)),
            DataType::Struct(fields) => Ok(DataType::Struct(clone_fields(fields)?)),
            DataType::Union(fields, ids, mode) => {
                Ok(DataType::Union(clone_fields(fields)?, clone_ids(ids)?, *mode))
            }
            DataType::Map(field, sorted) => Ok(DataType::Map(clone_boxed(field)?, *sorted)),
            DataType::Dictionary(keys, values, ordered) => {
                let values = Box::new(*Box::allocator(values), DataType::clone(values)?)?;
                Ok(DataType::Dictionary(*keys, values, *ordered))
            }
            DataType::Extension(name, inner, text) => {
                let inner = Box::new(*Box::allocator(inner), DataType::clone(inner)?)?;
                Ok(DataType::Extension(name.clone()?, inner, text.clone()?))
            }
            DataType::Decimal(precision, scale) => Ok(DataType::Decimal(*precision, *scale)),
            DataType::Decimal256(precision, scale) => Ok(DataType::Decimal256(*precision, *scale)),
        }
    }
}

impl Field {
    /// Returns a copy of the field. It fails only if an allocation fails.
    #[cycle(clones)]
    pub fn clone(&self) -> Result<Field, AllocError>
        ensures { IfOk result (λ copy. field_view copy ≡ field_view self.now) }
    {
        let name = self.name.clone()?;
        Ok(Field {
            name,
            data_type: self.data_type.clone()?,
            is_nullable: self.is_nullable,
            metadata: clone_metadata(&self.metadata)?,
        })
    }
}

#[cycle(clones)]
fn clone_boxed(field: &Box<Field>) -> Result<Box<Field>, AllocError>
    ensures { IfOk result (λ copy. field_view copy.value ≡ field_view field.now.value) }
{
    Ok(Box::new(*Box::allocator(field), Field::clone(field)?)?)
}

/// Returns a copy of the fields. It fails only if an allocation fails.
#[cycle(clones)]
pub fn clone_fields(fields: &Vec<Field>) -> Result<Vec<Field>, AllocError>
    ensures { IfOk result (λ copy. fields_view copy.items ≡ fields_view fields.now.items) }
{
    let mut copies = Vec::new(*fields.allocator());
    for field in fields {
        copies.push(field.clone()?)?;
    }
    Ok(copies)
}

pub(crate) fn clone_ids(ids: &Option<Vec<i32>>) -> Result<Option<Vec<i32>>, AllocError>
    ensures { IfOk result (λ copy. ids_of copy ≡ ids_of ids.now) }
{
    match ids {
        None => Ok(None),
        Some(ids) => Ok(Some(ids.clone()?)),
    }
}

/// Returns a copy of the pairs. It fails only if an allocation fails.
pub fn clone_metadata(metadata: &Metadata) -> Result<Metadata, AllocError>
    ensures { IfOk result (λ copy. pairs_of copy.entries ≡ pairs_of metadata.now.entries) }
{
    let copy = metadata.clone()?;
    Ok(copy)
}

impl Schema {
    /// Returns a copy of the schema. It fails only if an allocation fails.
    pub fn clone(&self) -> Result<Schema, AllocError>
        ensures { IfOk result (λ copy. schema_view copy ≡ schema_view self.now) }
    {
        Ok(Schema {
            fields: clone_fields(&self.fields)?,
            metadata: clone_metadata(&self.metadata)?,
        })
    }
}
