//! The dictionary ids of fields.
ghost use Rattle.std.specs.Prelude.{◌≡◌};
ghost use Rattle.ipc_base.specs.IdTrees.{ids as id_tree, all_ids_view};
ghost use Rattle.ipc_model.specs.TypeKinds.{first_ids, other_ids, field_kind, kind_of};
ghost use Rattle.lower.specs.TypeViews.{type_view, field_view};
ghost use Rattle.lower_validation.specs.Fields.{field_type};

use ipc_base::ipc::IpcField;
use lower::datatypes::Field;

/// The id of the first field, if there is one, and its children's.
pub fn first_of(ids: &[IpcField]) -> (Option<i64>, &[IpcField])
    ensures { first_ids (all_ids_view ids.now) ≡ id_tree result.0 (all_ids_view result.1.now) }
{
    match ids.first() {
        None => (None, &[]),
        Some(field) => (field.dictionary_id, &field.fields),
    }
}

/// The ids of the fields after the first.
pub fn others_of(ids: &[IpcField]) -> &[IpcField]
    ensures { all_ids_view result.now ≡ other_ids (all_ids_view ids.now) }
{
    match ids.split_first() {
        None => &[],
        Some((_, others)) => others,
    }
}

/// The id of this field, the first one, and the ids of its children.
#[tactic(auto, using(crate::proofs::ColumnLevels::child_fields_is))]
pub fn child_of<'a>(field: &Field, ids: &'a [IpcField]) -> (Option<i64>, &'a [IpcField])
    ensures kind { field_kind (field_view field.now) (first_ids (all_ids_view ids.now)) ≡ kind_of (type_view field.now.data_type) result.0 (all_ids_view result.1.now) }
    ensures named { field_type (field_view field.now) ≡ type_view field.now.data_type }
{
    // for the proof alone: only the clauses speak of the field's type
    let _ = &field.data_type;
    first_of(ids)
}
