//! Reads the slots of a field's table other than its type.
//!
//! Arrow columnar format, "Schema message"; `Field` of `Schema.fbs`.
ghost use Rattle.std.specs.Prelude.{◌≡◌, ℕ, ◌+◌, IfOk, IsSomeAnd, MatchOption, None, Option, is_some, option_map, string_bytes};
ghost use Rattle.lower.specs.TypeViews.{pairs_of};
ghost use Rattle.ipc_table_views.specs.SchemaSlots.{field_dictionary};
ghost use Rattle.ipc_model.specs.Schemas;
ghost use Rattle.ipc_model.specs.Schemas.{Encoding, ReadType, given, made};
ghost use Rattle.ipc_reference_schema.specs.Heads.{IsHead, head_at};
ghost use Rattle.ipc_reference_schema.specs.PlainTypes.{field_view, type_view};
ghost use Rattle.ipc_reference_schema.specs.Sights.{IsBare, Sees, read_count, read_other, type_count, type_other};

use crate::metadata::pairs_of_field;
use crate::seen::{Seen, made};
use crate::shape::integer_at;
use crate::types::{PlainField, PlainType};
use ipc_table_views::{DictionaryEncodingRef, FieldRef};
use lower::datatypes::Metadata;
use std::alloc::{AllocError, Global};

/// The slots of a field's table other than its type.
#[derive(Drop)]
pub(crate) struct Head {
    name: String,
    is_nullable: bool,
    metadata: Metadata,
    /// Whether the field has a dictionary.
    is_encoded: bool,
}

// Whether the table of a dictionary encoding is well-formed.
#[tactic(auto, unfolding(ipc_model::specs::Schemas::encoding_at))]
fn is_encoding(table: &DictionaryEncodingRef<'_>) -> bool
    ensures { result ≡ is_some (Schemas.encoding_at table.now) }
{
    if table.id().is_err() || table.is_ordered().is_err() {
        return false;
    }
    match table.index_type() {
        Ok(Some(int)) => integer_at(&int).is_some(),
        _ => false,
    }
}

// Whether a field has a dictionary. None if that table is malformed.
fn is_encoded(field: &FieldRef<'_>) -> Option<bool>
    ensures { result ≡ option_map is_some (given (made (field_dictionary field.now)) Schemas.optional_encoding) }
{
    match made(field.dictionary())? {
        Some(table) => {
            if is_encoding(&table) {
                Some(true)
            } else {
                None
            }
        }
        None => Some(false),
    }
}

/// The slots of a field's table other than its type. None if it is malformed.
#[tactic(auto, unfolding(crate::specs::Heads::head_at))]
pub(crate) fn head_at(alloc: Global, field: &FieldRef<'_>) -> Result<Option<Head>, AllocError>
    ensures { IfOk result (λ r. MatchOption r (head_at field.now ≡ None) (λ head. IsSomeAnd (head_at field.now) (IsHead head))) }
{
    let Ok(Some(name)) = field.name() else {
        return Ok(None);
    };
    let Ok(is_nullable) = field.nullable() else {
        return Ok(None);
    };
    let Some(metadata) = pairs_of_field(alloc, field)? else {
        return Ok(None);
    };
    let Some(is_encoded) = is_encoded(field) else {
        return Ok(None);
    };
    let name = String::from_str(alloc, name)?;
    Ok(Some(Head {
        name,
        is_nullable,
        metadata,
        is_encoded,
    }))
}

// The field of a head and a type. None if the type isn't supported.
fn field_of(head: Head, data_type: Option<PlainType>) -> Option<PlainField>
    ensures { (encoding : Option Encoding) → (t : ReadType) → is_some encoding ≡ head.is_encoded
        → IsBare type_view type_other data_type t
        → IsBare field_view read_other result
        (Schemas.field_with (string_bytes head.name) head.is_nullable (pairs_of head.metadata.entries) encoding t) }
{
    let Head {
        name,
        is_nullable,
        metadata,
        is_encoded,
    } = head;
    if is_encoded {
        return None;
    }
    match data_type {
        Some(data_type) => Some(PlainField {
            name,
            data_type,
            is_nullable,
            metadata,
        }),
        None => None,
    }
}

/// The field of a head and what was read of its type.
pub(crate) fn field_with(head: Head, type_: Option<Seen<PlainType>>) -> Option<Seen<PlainField>>
    ensures { (encoding : Option Encoding) → (meaning : Option ReadType) → (before : ℕ) → is_some encoding ≡ head.is_encoded
        → Sees type_view type_other type_count before type_ meaning
        → Sees field_view read_other read_count (before + 1) result
        (option_map (Schemas.field_with (string_bytes head.name) head.is_nullable (pairs_of head.metadata.entries) encoding) meaning) }
{
    match type_ {
        Some(Seen { plain, left }) => Some(Seen {
            plain: field_of(head, plain),
            left,
        }),
        None => None,
    }
}
