//! The rules of unions (Arrow columnar format, "Union Layout").
ghost use Rattle.std.specs.Prelude.{map, IfOk, MatchResult};
ghost use Rattle.std.specs.List.{All};
ghost use Rattle.lower.specs.TypeViews.{type_view};
ghost use Rattle.lower_validation.specs.Rules.{IdRules, BreaksIdRules, UnionRules, BreaksUnionRules};

use crate::children::{Child, have_types};
use crate::fields::{are_so_many, child_fields};
use crate::ids::{are_given, are_named, ids_fit, union_ids, union_mode};
use crate::places::places_fit;
use lower::buffer::Buffer;
use lower::datatypes::{DataType, PhysicalType};
use lower::error::{Error, Rule};

// Checks all but the types and the lengths of the children, of which there are `count`.
fn check_ids(
    data_type: &DataType,
    types: &[i8],
    offsets: &Option<Buffer<i32>>,
    count: usize,
) -> Result<(), Error>
    ensures { MatchResult result
        (λ _. IdRules (type_view data_type.now) types.now offsets.now count)
        (BreaksIdRules (type_view data_type.now) types.now offsets.now count) }
{
    if data_type.to_physical_type() != PhysicalType::Union {
        return Err(Error::OutOfSpec(Rule::PhysicalType));
    }
    if count == 0 || count > 127 {
        return Err(Error::OutOfSpec(Rule::UnionChildren));
    }
    if !are_so_many(child_fields(data_type), count) {
        return Err(Error::OutOfSpec(Rule::ChildCount));
    }
    if !ids_fit(union_ids(data_type), count) {
        return Err(Error::OutOfSpec(Rule::UnionIds));
    }
    if !are_named(union_ids(data_type), types, count) {
        return Err(Error::OutOfSpec(Rule::UnionType));
    }
    if !are_given(union_mode(data_type), offsets, types.len()) {
        return Err(Error::OutOfSpec(Rule::UnionOffsets));
    }
    Ok(())
}

/// Checks a union with these children, type ids and offsets.
///
/// Errors, each as `Error::OutOfSpec`:
///
/// - `Rule::PhysicalType`: `data_type` isn't a union.
/// - `Rule::UnionChildren`: there are no children, or more than 127.
/// - `Rule::ChildCount`: there are not as many children as fields.
/// - `Rule::UnionIds`: the ids in `data_type` are not one for each child, not distinct, or not from
///   0 to 126.
/// - `Rule::UnionType`: the type id of a slot selects no child.
/// - `Rule::UnionOffsets`: the union is dense and has not one offset for each slot, or it is sparse
///   and has offsets.
/// - `Rule::ChildType`: a child has another type than its field.
/// - `Rule::ChildLength`: a child of a sparse union has another length than the union.
/// - `Rule::UnionOffset`: an offset of a dense union is negative, or not below the length of its
///   child.
pub fn check_union<C: Child>(
    data_type: &DataType,
    types: &[i8],
    offsets: &Option<Buffer<i32>>,
    children: &[C],
) -> Result<(), Error>
    ensures rules { MatchResult result
        (λ _. UnionRules (type_view data_type.now) types.now offsets.now (map C.child_type children.now) (map C.child_len children.now))
        (BreaksUnionRules (type_view data_type.now) types.now offsets.now (map C.child_type children.now) (map C.child_len children.now)) }
    ensures valid { IfOk result (λ _. All C.is_child children.now) }
{
    check_ids(data_type, types, offsets, children.len())?;
    if !have_types(child_fields(data_type), children) {
        return Err(Error::OutOfSpec(Rule::ChildType));
    }
    if !places_fit(union_ids(data_type), types, offsets, children) {
        return Err(Error::OutOfSpec(match offsets {
            None => Rule::ChildLength,
            Some(_) => Rule::UnionOffset,
        }));
    }
    Ok(())
}
