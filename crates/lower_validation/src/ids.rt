//! Type ids of the children and of the slots of a union.
//!
//! Arrow columnar format, "Union Layout".
ghost use Rattle.std.specs.Prelude.{◌≡◌, ◌↔◌, pos, ◌<◌, length, get_or, IsTrue};
ghost use Rattle.std.specs.Option.{option_copied};
ghost use Rattle.lower.specs.TypeViews.{type_view};
ghost use Rattle.lower_validation.specs.Keys.{KeyFits};
ghost use Rattle.lower_validation.specs.Ids.{union_ids, union_mode, place_among, child_number, NamesChild, AreIds, IdsFit, AreNamed, OffsetsGiven};

use lower::buffer::Buffer;
use lower::datatypes::{DataType, UnionMode};

/// Returns the ids of a union type's children, or `None` if it has none.
///
/// Without ids, these are 0, 1, 2 and so on.
pub fn union_ids(data_type: &DataType) -> Option<&[i32]>
    ensures { option_copied result ≡ union_ids (type_view data_type.now) }
{
    match data_type.to_logical_type() {
        DataType::Union(_, Some(ids), _) => Some(ids),
        _ => None,
    }
}

/// Returns whether a union type is dense or sparse.
pub fn union_mode(data_type: &DataType) -> UnionMode
    ensures { result ≡ union_mode (type_view data_type.now) }
{
    match data_type.to_logical_type() {
        DataType::Union(_, _, mode) => *mode,
        _ => UnionMode::Sparse,
    }
}

// The index of the first such id, or the number of ids if there is none.
#[tactic(auto, using(crate::proofs::TypeIds::places))]
fn place_among(id: i32, ids: &[i32]) -> usize
    ensures { result ≡ place_among id ids.now }
{
    for place in 0..ids.len() {
        if ids[place] == id {
            return place;
        }
    }
    ids.len()
}

/// Returns the index of the child that an id selects.
pub fn child_number(ids: Option<&[i32]>, id: i8) -> usize
    ensures { result ≡ child_number (option_copied ids.entry) id }
{
    match ids {
        None if id < 0 => 0,
        None => id.cast_unsigned() as usize,
        Some(ids) => place_among(i32::from(id), ids),
    }
}

/// Returns whether an id selects one of `count` children.
pub fn names_child(ids: Option<&[i32]>, count: usize, id: i8) -> bool
    ensures { IsTrue result ↔ NamesChild (option_copied ids.entry) count id }
{
    match ids {
        None => id >= 0 && (id.cast_unsigned() as usize) < count,
        Some(ids) => place_among(i32::from(id), ids) < count,
    }
}

/// Returns whether the id of each slot selects one of `count` children.
pub fn are_named(ids: Option<&[i32]>, types: &[i8], count: usize) -> bool
    ensures { IsTrue result ↔ AreNamed (option_copied ids.entry) types.now count }
{
    for index in 0..types.len() {
        if !names_child(ids, count, types[index]) {
            return false;
        }
    }
    true
}

// Whether an id is from 0 to 126, and differs from those before it.
fn is_id(ids: &[i32], index: usize) -> bool
    requires { index < length ids.now }
    ensures { IsTrue result ↔ (KeyFits (get_or ids.now index (pos 0)) 127 × (place_among (get_or ids.now index (pos 0)) ids.now ≡ index)) }
{
    let id = ids[index];
    id >= 0 && id < 127 && place_among(id, ids) == index
}

// Whether these are distinct ids of `count` children, from 0 to 126.
#[tactic(auto, using(crate::proofs::TypeIds::distinct))]
fn are_ids(ids: &[i32], count: usize) -> bool
    ensures { IsTrue result ↔ AreIds ids.now count }
{
    if ids.len() != count {
        return false;
    }
    for index in 0..ids.len() {
        if !is_id(ids, index) {
            return false;
        }
    }
    true
}

/// Returns whether the ids are `count` distinct ones from 0 to 126, or absent.
pub fn ids_fit(ids: Option<&[i32]>, count: usize) -> bool
    ensures { IsTrue result ↔ IdsFit (option_copied ids.entry) count }
{
    match ids {
        None => true,
        Some(ids) => are_ids(ids, count),
    }
}

/// Returns whether the offsets fit the mode of a union of `len` slots.
///
/// A dense union has an offset for each slot, a sparse one has no offsets.
pub fn are_given(mode: UnionMode, offsets: &Option<Buffer<i32>>, len: usize) -> bool
    ensures { IsTrue result ↔ OffsetsGiven mode offsets.now len }
{
    match (mode, offsets) {
        (UnionMode::Dense, Some(offsets)) => offsets.len() == len,
        (UnionMode::Sparse, None) => true,
        _ => false,
    }
}
