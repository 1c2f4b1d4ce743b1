//! Reads fields and their types.
//!
//! Arrow columnar format, "Schema message". A table `Field` of `Schema.fbs` has those of its
//! children.
ghost use Rattle.std.specs.Prelude.{◌≡◌, ℕ, IfOk, Option, Some, option_map};
ghost use Rattle.lower.specs.TypeTrees as trees;
ghost use Rattle.ipc_base.specs.IdTrees.{no_ids};
ghost use Rattle.ipc_table_views.specs.SchemaSlots.{field_children};
ghost use Rattle.ipc_table_views.specs.Unions.{type_parts};
ghost use Rattle.ipc_model.specs.FieldLists.{and_read};
ghost use Rattle.ipc_model.specs.Schemas;
ghost use Rattle.ipc_model.specs.Schemas.{Read, ReadAll, given, present};
ghost use Rattle.ipc_reference_schema.specs.PlainTypes.{field_view, fields_view, type_view};
ghost use Rattle.ipc_reference_schema.specs.Shapes.{group_of, leaf_of, single_of};
ghost use Rattle.ipc_reference_schema.specs.Sights.{IsBare, IsSeen, Sees, read_count, read_other, reads_count, reads_other, type_count, type_other};

use crate::head::{field_with, head_at};
use crate::seen::{Seen, present};
use crate::shape::{Group, Leaf, Shape, Single, shape_at};
use crate::types::{PlainField, PlainType};
use ipc_table_views::{FieldRef, FieldTable, Tables, TypeRef};
use std::alloc::{AllocError, Global};

// A type without children.
fn with_leaf(leaf: Leaf, left: usize) -> Option<Seen<PlainType>>
    ensures { (p : trees.Plain) → leaf_of p ≡ leaf → Sees type_view type_other type_count left result (Some (trees.plain p, no_ids)) }
{
    let plain = match leaf {
        Leaf::Int(form) => Some(PlainType::Int(form)),
        Leaf::Utf8 => Some(PlainType::Utf8),
        Leaf::OtherLeaf => None,
    };
    Some(Seen { plain, left })
}

// A list of a child. None if the type isn't supported.
fn list_of(
    alloc: Global,
    single: Single,
    child: Option<PlainField>,
) -> Result<Option<PlainType>, AllocError>
    ensures { IfOk result (λ r. (s : trees.Single) → (x : Read) → single_of s ≡ single → IsBare field_view read_other child x
        → IsBare type_view type_other r (Schemas.single_with s x)) }
{
    match single {
        Single::List => match child {
            Some(field) => Ok(Some(PlainType::List(Box::new(alloc, field)?))),
            None => Ok(None),
        },
        Single::OtherSingle => Ok(None),
    }
}

// A type with one child, by the child that was read.
fn with_child(
    alloc: Global,
    single: Single,
    child: Option<Seen<PlainField>>,
) -> Result<Option<Seen<PlainType>>, AllocError>
    ensures { IfOk result (λ r. (s : trees.Single) → (meaning : Option Read) → (before : ℕ) → single_of s ≡ single
        → Sees field_view read_other read_count before child meaning
        → Sees type_view type_other type_count before r (option_map (Schemas.single_with s) meaning)) }
{
    match child {
        Some(Seen { plain, left }) => {
            let plain = list_of(alloc, single, plain)?;
            Ok(Some(Seen { plain, left }))
        }
        None => Ok(None),
    }
}

// A struct of some children. None if the type isn't supported.
fn struct_of(group: Group, children: Option<Vec<PlainField>>) -> Option<PlainType>
    ensures { (g : trees.Group) → (all : ReadAll) → group_of g ≡ group
        → IsBare (λ v. fields_view v.items) reads_other children all
        → IsBare type_view type_other result (Schemas.group_with g all) }
{
    match group {
        Group::Struct => match children {
            Some(fields) => Some(PlainType::Struct(fields)),
            None => None,
        },
        Group::OtherGroup => None,
    }
}

// A type with several children, by those that were read.
fn with_children(group: Group, children: Option<Seen<Vec<PlainField>>>) -> Option<Seen<PlainType>>
    ensures { (g : trees.Group) → (meaning : Option ReadAll) → (before : ℕ) → group_of g ≡ group
        → Sees (λ v. fields_view v.items) reads_other reads_count before children meaning
        → Sees type_view type_other type_count before result (option_map (Schemas.group_with g) meaning) }
{
    match children {
        Some(Seen { plain, left }) => Some(Seen {
            plain: struct_of(group, plain),
            left,
        }),
        None => None,
    }
}

// Appends a field to others.
#[tactic(auto, using(crate::proofs::FieldLists::pushes))]
fn pushed(
    fields: Option<Vec<PlainField>>,
    field: Option<PlainField>,
) -> Result<Option<Vec<PlainField>>, AllocError>
    ensures { IfOk result (λ r. (all : ReadAll) → (x : Read) → IsBare (λ v. fields_view v.items) reads_other fields all
        → IsBare field_view read_other field x
        → IsBare (λ v. fields_view v.items) reads_other r (and_read all x)) }
{
    let Some(mut fields) = fields else {
        return Ok(None);
    };
    let Some(field) = field else {
        return Ok(None);
    };
    fields.push(field)?;
    Ok(Some(fields))
}

// The same, for what was read of them.
#[tactic(auto, using(crate::proofs::FieldLists::pushes))]
fn and_field(
    fields: Seen<Vec<PlainField>>,
    field: Seen<PlainField>,
) -> Result<Seen<Vec<PlainField>>, AllocError>
    ensures { IfOk result (λ r. (all : ReadAll) → (x : Read) → (before : ℕ)
        → IsSeen (λ v. fields_view v.items) reads_other reads_count before fields all
        → IsSeen field_view read_other read_count fields.left field x
        → IsSeen (λ v. fields_view v.items) reads_other reads_count before r (and_read all x)) }
{
    let Seen {
        plain: several,
        left: _,
    } = fields;
    let Seen { plain: one, left } = field;
    let plain = pushed(several, one)?;
    Ok(Seen { plain, left })
}

// The field of a table, with at most so many levels. It counts as one of the fields that may be
// read.
#[cycle(fields)]
fn field_at(
    alloc: Global,
    field: &FieldRef<'_>,
    levels: usize,
    left: usize,
) -> Result<Option<Seen<PlainField>>, AllocError>
    ensures { IfOk result (λ r. Sees field_view read_other read_count left r (Schemas.field_at levels field.now)) }
{
    if levels == 0 || left == 0 {
        return Ok(None);
    }
    let Some(head) = head_at(alloc, field)? else {
        return Ok(None);
    };
    let Some(type_) = present(field.type_()) else {
        return Ok(None);
    };
    let type_ = type_of_field(alloc, field, &type_, levels - 1, left - 1)?;
    Ok(field_with(head, type_))
}

// The type in a table, whose children are those of its field.
#[cycle(fields)]
fn type_of_field(
    alloc: Global,
    field: &FieldRef<'_>,
    type_: &TypeRef<'_>,
    levels: usize,
    left: usize,
) -> Result<Option<Seen<PlainType>>, AllocError>
    ensures { IfOk result (λ r. Sees type_view type_other type_count left r
        (Schemas.type_of_field (λ s. Schemas.field_at levels s) field.now (type_parts type_.now))) }
{
    match shape_at(type_) {
        Some(Shape::Leaf(leaf)) => Ok(with_leaf(leaf, left)),
        Some(Shape::Single(single)) => {
            let child = first_field(alloc, field, levels, left)?;
            with_child(alloc, single, child)
        }
        Some(Shape::Group(group)) => {
            let children = some_fields(alloc, field, levels, left)?;
            Ok(with_children(group, children))
        }
        None => Ok(None),
    }
}

// The first child of a field, which must have one.
#[cycle(fields)]
fn first_field(
    alloc: Global,
    field: &FieldRef<'_>,
    levels: usize,
    left: usize,
) -> Result<Option<Seen<PlainField>>, AllocError>
    ensures { IfOk result (λ r. Sees field_view read_other read_count left r
        (given (present (field_children field.now)) (Schemas.first_field (λ s. Schemas.field_at levels s)))) }
{
    let Ok(Some(tables)) = field.children() else {
        return Ok(None);
    };
    if tables.is_empty() {
        return Ok(None);
    }
    let Ok(table) = tables.get(0) else {
        return Ok(None);
    };
    field_at(alloc, &table, levels, left)
}

// The children of a field, at least one.
#[cycle(fields)]
fn some_fields(
    alloc: Global,
    field: &FieldRef<'_>,
    levels: usize,
    left: usize,
) -> Result<Option<Seen<Vec<PlainField>>>, AllocError>
    ensures { IfOk result (λ r. Sees (λ v. fields_view v.items) reads_other reads_count left r
        (given (present (field_children field.now)) (Schemas.some_fields (λ s. Schemas.field_at levels s)))) }
{
    let Ok(Some(tables)) = field.children() else {
        return Ok(None);
    };
    if tables.is_empty() {
        return Ok(None);
    }
    fields_from(alloc, &tables, levels, left)
}

/// The fields of some tables, with at most so many levels.
///
/// None if one is invalid, or if there are more at all levels than may be read.
#[cycle(fields)]
pub(crate) fn fields_from(
    alloc: Global,
    tables: &Tables<'_, FieldTable>,
    levels: usize,
    left: usize,
) -> Result<Option<Seen<Vec<PlainField>>>, AllocError>
    ensures { IfOk result (λ r. Sees (λ v. fields_view v.items) reads_other reads_count left r
        (Schemas.fields_from (λ s. Schemas.field_at levels s) tables.now 0 tables.now.count)) }
{
    let mut fields = Seen {
        plain: Some(Vec::new(alloc)),
        left,
    };
    for i in 0..tables.len() {
        let Ok(table) = tables.get(i) else {
            return Ok(None);
        };
        let Some(field) = field_at(alloc, &table, levels, fields.left)? else {
            return Ok(None);
        };
        fields = and_field(fields, field)?;
    }
    Ok(Some(fields))
}
