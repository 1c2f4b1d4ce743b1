//! Encodes key-value metadata of schemas and fields as tables.
//!
//! Arrow columnar format, "Extension Types"; `custom_metadata` of `Schema.fbs`.
ghost use Rattle.std.specs.Prelude.{◌≡◌, ◌++◌, ◌∷◌, [], IfOk, OnOk, Some, option_map, string_bytes};
ghost use Rattle.lower.specs.Normal.{data_key, extension_of, extension_of_values, is_extension_key, name_key, norm_pairs, without};
ghost use Rattle.lower.specs.TypeViews.{pairs_of, text_of, type_view};
ghost use Rattle.ipc_schema_write.specs.Meanings.{ArePairsOf, Ascend, extension_pairs, pairs_in};

use ipc_tables::schema::KeyValue;
use lower::datatypes::{DataType, Metadata};
use std::alloc::{AllocError, Global};

/// The key of the name of a field's extension type.
pub const NAME_KEY: &str = "ARROW:extension:name";

/// The key of the metadata of a field's extension type.
pub const DATA_KEY: &str = "ARROW:extension:metadata";

fn push(alloc: Global, pairs: &mut Vec<KeyValue>, key: &str, value: &str) -> Result<(), AllocError>
    ensures { OnOk result (pairs_in pairs.new.items ≡ pairs_in pairs.old.items ++ (key.now, value.now) ∷ []) }
{
    let key = String::from_str(alloc, key)?;
    let value = String::from_str(alloc, value)?;
    pairs.push(KeyValue { key, value })?;
    Ok(())
}

/// Returns the pairs of a schema or of a footer as tables.
///
/// They are in the order of their keys. It fails only if an allocation fails.
pub fn serialize_pairs(alloc: Global, metadata: &Metadata) -> Result<Vec<KeyValue>, AllocError>
    ensures all { IfOk result (λ pairs. pairs_in pairs.items ≡ pairs_of metadata.now.entries) }
    ensures ordered { IfOk result (λ _. Ascend (pairs_of metadata.now.entries)) }
    ensures means { IfOk result (λ pairs. ArePairsOf pairs.items (pairs_of metadata.now.entries)) }
{
    let mut pairs = Vec::new(alloc);
    for (key, value) in metadata {
        push(alloc, &mut pairs, key.as_str(), value.as_str())?;
    }
    Ok(pairs)
}

/// Returns whether the key is one of the extension keys: [`NAME_KEY`] or [`DATA_KEY`].
pub fn is_extension_key(key: &str) -> bool
    ensures { result ≡ is_extension_key key.now }
{
    NAME_KEY.cmp(key).is_eq() || DATA_KEY.cmp(key).is_eq()
}

// The tables of the pairs that aren't an extension's, in their order.
fn serialize_own(alloc: Global, metadata: &Metadata) -> Result<Vec<KeyValue>, AllocError>
    ensures own { IfOk result (λ pairs. pairs_in pairs.items
        ≡ without name_key (without data_key (pairs_of metadata.now.entries))) }
    ensures ordered { IfOk result (λ _. Ascend (pairs_of metadata.now.entries)) }
{
    let mut pairs = Vec::new(alloc);
    for (key, value) in metadata {
        if !is_extension_key(key.as_str()) {
            push(alloc, &mut pairs, key.as_str(), value.as_str())?;
        }
    }
    Ok(pairs)
}

fn extension_of_values(data_type: &DataType) -> Option<(&String, &Option<String>)>
    ensures { option_map (λ e. (string_bytes e.0.now, text_of e.1.now)) result
        ≡ extension_of_values (type_view data_type.now) }
{
    match data_type {
        DataType::Extension(name, _, text) => Some((name, text)),
        _ => None,
    }
}

/// Returns the name and the metadata of a type's extension, if it has one.
///
/// For a dictionary, it is the extension of its values.
pub fn extension_of(data_type: &DataType) -> Option<(&String, &Option<String>)>
    ensures { option_map (λ e. (string_bytes e.0.now, text_of e.1.now)) result
        ≡ extension_of (type_view data_type.now) }
{
    match data_type {
        DataType::Dictionary(_, values, _) => extension_of_values(values),
        _ => extension_of_values(data_type),
    }
}

// Appends the pairs of an extension with this name and metadata.
fn push_extension(
    alloc: Global,
    pairs: &mut Vec<KeyValue>,
    name: &String,
    text: &Option<String>,
) -> Result<(), AllocError>
    ensures { OnOk result (pairs_in pairs.new.items
        ≡ pairs_in pairs.old.items ++ extension_pairs (Some (string_bytes name.now, text_of text.now))) }
{
    match text {
        Some(text) => {
            push(alloc, pairs, DATA_KEY, text.as_str())?;
            push(alloc, pairs, NAME_KEY, name.as_str())
        }
        None => push(alloc, pairs, NAME_KEY, name.as_str()),
    }
}

/// Returns the tables of a field's pairs in normal form.
///
/// They are the pairs that aren't an extension's, and those of the extension of its type or of its
/// dictionary's values.
pub(crate) fn serialize_field_pairs(
    alloc: Global,
    metadata: &Metadata,
    data_type: &DataType,
) -> Result<Vec<KeyValue>, AllocError>
    ensures { IfOk result (λ pairs. ArePairsOf pairs.items
        (norm_pairs (type_view data_type.now) (pairs_of metadata.now.entries))) }
{
    let mut pairs = serialize_own(alloc, metadata)?;
    match extension_of(data_type) {
        Some((name, text)) => {
            push_extension(alloc, &mut pairs, name, text)?;
            Ok(pairs)
        }
        None => Ok(pairs),
    }
}
