//! The normal form of types.
//!
//! In a field's metadata, the keys `ARROW:extension:name` and `ARROW:extension:metadata` are those
//! of the field's type. The type is an extension, or a dictionary whose values are one; otherwise
//! the keys are absent. Arrow columnar format, "Extension Types".
ghost use Rattle.std.specs.Prelude.{◌≡◌, IfOk, option_map, string_bytes};
ghost use Rattle.lower.specs.TypeViews.{type_view, field_view, fields_view, pairs_of, text_of};
ghost use Rattle.lower.specs.Normal.{norm, norm_field, norm_fields, norm_pairs, extension_of, extension_of_values, without, with_pair, put_text, put_extension};

use super::{DataType, Field, Metadata};
use crate::datatypes::clones::clone_metadata;
use std::alloc::AllocError;

pub(super) const NAME_KEY: &str = "ARROW:extension:name";

pub(super) const DATA_KEY: &str = "ARROW:extension:metadata";

impl DataType {
    /// Returns the type with all nested fields in normal form. It fails only if an allocation
    /// fails.
    #[cycle(normal)]
    pub fn normal(&self) -> Result<DataType, AllocError>
        ensures { IfOk result (λ n. type_view n ≡ norm (type_view self.now)) }
    {
        match self {
            DataType::List(field) => Ok(DataType::List(normal_boxed(field)?)),
            DataType::FixedSizeList(field, size) => {
                Ok(DataType::FixedSizeList(normal_boxed(field)?, *size))
            }
            DataType::LargeList(field) => Ok(DataType::LargeList(normal_boxed(field)?)),
            DataType::Struct(fields) => Ok(DataType::Struct(normal_fields(fields)?)),
            DataType::Union(fields, ids, mode) => {
                Ok(DataType::Union(
                    normal_fields(fields)?,
                    crate::datatypes::clones::clone_ids(ids)?,
                    *mode,
                ))
            }
            DataType::Map(field, sorted) => Ok(DataType::Map(normal_boxed(field)?, *sorted)),
            DataType::Dictionary(keys, values, ordered) => {
                let values = Box::new(*Box::allocator(values), values.normal()?)?;
                Ok(DataType::Dictionary(*keys, values, *ordered))
            }
            DataType::Extension(name, inner, text) => {
                let inner = Box::new(*Box::allocator(inner), inner.normal()?)?;
                Ok(DataType::Extension(name.clone()?, inner, text.clone()?))
            }
            _ => {
                let copy = self.clone()?;
                Ok(copy)
            }
        }
    }
}

#[cycle(normal)]
fn normal_field(field: &Field) -> Result<Field, AllocError>
    ensures { IfOk result (λ n. field_view n ≡ norm_field (field_view field.now)) }
{
    Ok(Field {
        name: field.name.clone()?,
        data_type: field.data_type.normal()?,
        is_nullable: field.is_nullable,
        metadata: normal_metadata(&field.data_type, &field.metadata)?,
    })
}

#[cycle(normal)]
fn normal_boxed(field: &Box<Field>) -> Result<Box<Field>, AllocError>
    ensures { IfOk result (λ n. field_view n.value ≡ norm_field (field_view field.now.value)) }
{
    Ok(Box::new(*Box::allocator(field), normal_field(field)?)?)
}

/// Returns the fields in normal form. It fails only if an allocation fails.
#[cycle(normal)]
pub fn normal_fields(fields: &Vec<Field>) -> Result<Vec<Field>, AllocError>
    ensures { IfOk result (λ n. fields_view n.items ≡ norm_fields (fields_view fields.now.items)) }
{
    let mut all = Vec::new(*fields.allocator());
    for field in fields {
        all.push(normal_field(field)?)?;
    }
    Ok(all)
}

fn extension_of_values(data_type: &DataType) -> Option<(&String, &Option<String>)>
    ensures { option_map (λ e. (string_bytes e.0.now, text_of e.1.now)) result
        ≡ extension_of_values (type_view data_type.now) }
{
    match data_type {
        DataType::Extension(name, _, text) => Some((name, text)),
        _ => None,
    }
}

fn extension_of(data_type: &DataType) -> Option<(&String, &Option<String>)>
    ensures { option_map (λ e. (string_bytes e.0.now, text_of e.1.now)) result
        ≡ extension_of (type_view data_type.now) }
{
    match data_type {
        DataType::Dictionary(_, values, _) => extension_of_values(values),
        _ => extension_of_values(data_type),
    }
}

fn without_key(pairs: &mut Metadata, key: &str)
    ensures { pairs_of pairs.new.entries ≡ without key.now (pairs_of pairs.old.entries) }
{
    let _size = pairs.len();
    drop(pairs.remove(key));
}

fn put(pairs: &mut Metadata, key: &str, value: String) -> Result<(), AllocError>
    ensures { IfOk result (λ _. pairs_of pairs.new.entries ≡ with_pair key.now (string_bytes value) (pairs_of pairs.old.entries)) }
{
    let key = String::from_str(*value.allocator(), key)?;
    drop(pairs.insert(key, value)?);
    Ok(())
}

fn put_text(pairs: &mut Metadata, text: &Option<String>) -> Result<(), AllocError>
    ensures { IfOk result (λ _. pairs_of pairs.new.entries ≡ put_text (text_of text.now) (pairs_of pairs.old.entries)) }
{
    if let Some(text) = text {
        put(pairs, DATA_KEY, text.clone()?)?;
    }
    Ok(())
}

fn put_extension(pairs: &mut Metadata, data_type: &DataType) -> Result<(), AllocError>
    ensures { IfOk result (λ _. pairs_of pairs.new.entries
        ≡ put_extension (extension_of (type_view data_type.now)) (pairs_of pairs.old.entries)) }
{
    if let Some((name, text)) = extension_of(data_type) {
        put_text(pairs, text)?;
        put(pairs, NAME_KEY, name.clone()?)?;
    }
    Ok(())
}

fn normal_metadata(data_type: &DataType, metadata: &Metadata) -> Result<Metadata, AllocError>
    ensures { IfOk result (λ n. pairs_of n.entries
        ≡ norm_pairs (type_view data_type.now) (pairs_of metadata.now.entries)) }
{
    let mut pairs = clone_metadata(metadata)?;
    without_key(&mut pairs, DATA_KEY);
    without_key(&mut pairs, NAME_KEY);
    put_extension(&mut pairs, data_type)?;
    Ok(pairs)
}
