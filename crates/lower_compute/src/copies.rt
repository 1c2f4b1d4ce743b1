//! Copies of arrays of any kind, run by run.
ghost use Rattle.std.specs.Prelude.{◌≡◌, [], map, length, get_or, MatchResult};
ghost use Rattle.lower_arrays.specs.Structs.{struct_layout};
ghost use Rattle.lower_arrays.specs.FixedLists.{fixed_list_layout};
ghost use Rattle.lower_arrays.specs.Lists.{list_layout};
ghost use Rattle.lower_arrays.specs.Maps.{map_layout};
ghost use Rattle.lower_arrays.specs.Unions.{union_layout};
ghost use Rattle.lower_arrays.specs.Dictionaries.{dictionary_layout};
ghost use Rattle.lower_arrays.specs.AnyLayouts.{layout_of};
ghost use Rattle.lower_compute.specs.Copies.{AllHaveTypeOf, AreWithin, IsCopy, NoCopy, each_child, HaveChild, HaveChildren, AreCopies};

use crate::children::{children_of, validity_of_runs};
use crate::concatenate::whole_runs;
use crate::dictionaries::{at_ends, at_start, copy_keys, same_values};
use crate::error::ComputeError;
use crate::fixed_lists::slot_runs;
use crate::kinds::all_of;
use crate::leaves::{
    copy_binaries, copy_booleans, copy_fixed_binaries, copy_large_binaries, copy_large_texts,
    copy_nulls, copy_numbers, copy_texts,
};
use crate::lists::{copy_list_offsets, copy_spans};
use crate::runs::Run;
use crate::unions::{dense_runs, finish_dense, finish_sparse};
use lower_arrays::array::{
    AnyArray, DictionaryArray, FixedSizeListArray, ListArray, MapArray, StructArray, UnionArray,
};
use std::alloc::Global;
use std::sync::Arc;

/// Returns an array of the type of `like` with the slots of each run, in memory of its own.
///
/// Errors:
///
/// - `ComputeError::Overflow`: a length, an offset or a key would be above the maximum of its type.
/// - `ComputeError::Memory`: an allocation fails.
#[cycle(runs)]
pub(crate) fn copy_runs(
    alloc: Global,
    like: &AnyArray,
    arrays: &[&AnyArray],
    runs: &[Run],
) -> Result<AnyArray, ComputeError>
    requires alike { AllHaveTypeOf (layout_of like.now) (map (λ a. layout_of a.now) arrays.now) }
    requires within { AreWithin (map (λ a. layout_of a.now) arrays.now) runs.now }
    ensures { let ls = map (λ a. layout_of a.now) arrays.now in MatchResult result
        (λ copy. IsCopy (layout_of like.now) ls runs.now (layout_of copy)) NoCopy }
{
    match like {
        AnyArray::Null(like) => copy_nulls(like, arrays, runs),
        AnyArray::Boolean(like) => copy_booleans(alloc, like, arrays, runs),
        AnyArray::Primitive(like) => Ok(AnyArray::Primitive(copy_numbers(
            alloc, like, arrays, runs,
        )?)),
        AnyArray::FixedSizeBinary(like) => copy_fixed_binaries(alloc, like, arrays, runs),
        AnyArray::Binary(like) => copy_binaries(alloc, like, arrays, runs),
        AnyArray::LargeBinary(like) => copy_large_binaries(alloc, like, arrays, runs),
        AnyArray::Utf8(like) => copy_texts(alloc, like, arrays, runs),
        AnyArray::LargeUtf8(like) => copy_large_texts(alloc, like, arrays, runs),
        AnyArray::List(like) => copy_list(alloc, like, arrays, runs),
        AnyArray::LargeList(like) => copy_list(alloc, like, arrays, runs),
        AnyArray::FixedSizeList(like) => copy_fixed_size_list(alloc, like, arrays, runs),
        AnyArray::Struct(like) => copy_struct(alloc, like, arrays, runs),
        AnyArray::Union(like) => copy_union(alloc, like, arrays, runs),
        AnyArray::Map(like) => copy_map(alloc, like, arrays, runs),
        AnyArray::Dictionary(like) => copy_dictionary(alloc, like, arrays, runs),
    }
}

// A copy of the runs of the children with this number.
#[cycle(runs)]
fn copy_child(
    alloc: Global,
    like: &AnyArray,
    arrays: &[&AnyArray],
    number: usize,
    runs: &[Run],
) -> Result<AnyArray, ComputeError>
    requires alike { let ls = map (λ a. layout_of a.now) arrays.now in
        AllHaveTypeOf (layout_of like.now) (each_child number ls) }
    requires have { HaveChild number (map (λ a. layout_of a.now) arrays.now) }
    requires within { let ls = map (λ a. layout_of a.now) arrays.now in
        AreWithin (each_child number ls) runs.now }
    ensures { let ls = map (λ a. layout_of a.now) arrays.now in MatchResult result
        (λ copy.
        IsCopy (layout_of like.now) (each_child number ls) runs.now (layout_of copy)) NoCopy }
{
    let children = children_of(alloc, arrays, number)?;
    copy_runs(alloc, like, &children, runs)
}

// Copies of the same runs of all children.
#[cycle(runs)]
fn copy_children(
    alloc: Global,
    likes: &[AnyArray],
    arrays: &[&AnyArray],
    runs: &[Run],
) -> Result<Vec<AnyArray>, ComputeError>
    requires { let ls = map (λ a. layout_of a.now) arrays.now in
        HaveChildren (map layout_of likes.now) ls (λ k. runs.now) }
    ensures { let ls = map (λ a. layout_of a.now) arrays.now in MatchResult result
        (λ copies.
        AreCopies (map layout_of likes.now) ls (λ k. runs.now)
        (map layout_of copies.items)) NoCopy }
{
    let mut copies = Vec::new(alloc);
    for number in 0..likes.len() {
        let copy = copy_child(alloc, &likes[number], arrays, number, runs)?;
        copies.push(copy)?;
    }
    Ok(copies)
}

// Copies of the runs over each child.
#[cycle(runs)]
fn copy_fields(
    alloc: Global,
    likes: &[AnyArray],
    arrays: &[&AnyArray],
    parts: &[Vec<Run>],
) -> Result<Vec<AnyArray>, ComputeError>
    requires have { let ls = map (λ a. layout_of a.now) arrays.now in
        HaveChildren (map layout_of likes.now) ls
        (λ k. get_or (map (λ v. v.items) parts.now) k []) }
    requires count { length parts.now ≡ length likes.now }
    ensures { let ls = map (λ a. layout_of a.now) arrays.now in MatchResult result
        (λ copies.
        AreCopies (map layout_of likes.now) ls (λ k. get_or (map (λ v. v.items) parts.now) k [])
        (map layout_of copies.items)) NoCopy }
{
    let mut copies = Vec::new(alloc);
    for number in 0..likes.len() {
        let copy = copy_child(alloc, &likes[number], arrays, number, &parts[number])?;
        copies.push(copy)?;
    }
    Ok(copies)
}

// The same runs of each child.
#[cycle(runs)]
fn copy_struct(
    alloc: Global,
    like: &StructArray,
    arrays: &[&AnyArray],
    runs: &[Run],
) -> Result<AnyArray, ComputeError>
    requires alike { AllHaveTypeOf (struct_layout like.now)
        (map (λ a. layout_of a.now) arrays.now) }
    requires within { AreWithin (map (λ a. layout_of a.now) arrays.now) runs.now }
    ensures { let ls = map (λ a. layout_of a.now) arrays.now in MatchResult result
        (λ copy. IsCopy (struct_layout like.now) ls runs.now (layout_of copy)) NoCopy }
{
    let children = copy_children(alloc, like.values(), arrays, runs)?;
    let validity = validity_of_runs(alloc, arrays, runs)?;
    match StructArray::try_new(like.data_type().clone()?, children, validity) {
        Ok(array) => Ok(AnyArray::Struct(array)),
        Err(_) => unreachable!(),
    }
}

// Runs over the child, in which each slot has `size` slots.
#[cycle(runs)]
fn copy_fixed_size_list(
    alloc: Global,
    like: &FixedSizeListArray,
    arrays: &[&AnyArray],
    runs: &[Run],
) -> Result<AnyArray, ComputeError>
    requires alike { AllHaveTypeOf (fixed_list_layout like.now)
        (map (λ a. layout_of a.now) arrays.now) }
    requires within { AreWithin (map (λ a. layout_of a.now) arrays.now) runs.now }
    ensures { let ls = map (λ a. layout_of a.now) arrays.now in MatchResult result
        (λ copy. IsCopy (fixed_list_layout like.now) ls runs.now (layout_of copy)) NoCopy }
{
    let parts = slot_runs(alloc, arrays, runs, like.size())?;
    let child = copy_child(alloc, like.values(), arrays, 0, &parts)?;
    let validity = validity_of_runs(alloc, arrays, runs)?;
    let child = Box::new(alloc, child)?;
    match FixedSizeListArray::try_new(like.data_type().clone()?, child, validity) {
        Ok(array) => Ok(AnyArray::FixedSizeList(array)),
        Err(_) => unreachable!(),
    }
}

// Offsets from 0, and the runs over the child between the old ones.
#[cycle(runs)]
fn copy_list(
    alloc: Global,
    like: &ListArray,
    arrays: &[&AnyArray],
    runs: &[Run],
) -> Result<AnyArray, ComputeError>
    requires alike { AllHaveTypeOf (list_layout like.now) (map (λ a. layout_of a.now) arrays.now) }
    requires within { AreWithin (map (λ a. layout_of a.now) arrays.now) runs.now }
    ensures { let ls = map (λ a. layout_of a.now) arrays.now in MatchResult result
        (λ copy. IsCopy (list_layout like.now) ls runs.now (layout_of copy)) NoCopy }
{
    let (offsets, parts) = copy_list_offsets(alloc, like, arrays, runs)?;
    let child = copy_child(alloc, like.values(), arrays, 0, &parts)?;
    let validity = validity_of_runs(alloc, arrays, runs)?;
    let child = Box::new(alloc, child)?;
    match ListArray::try_new(like.data_type().clone()?, offsets, child, validity) {
        Ok(array) => Ok(array.boxed()),
        Err(_) => unreachable!(),
    }
}

// As lists with 32-bit offsets.
#[cycle(runs)]
fn copy_map(
    alloc: Global,
    like: &MapArray,
    arrays: &[&AnyArray],
    runs: &[Run],
) -> Result<AnyArray, ComputeError>
    requires alike { AllHaveTypeOf (map_layout like.now) (map (λ a. layout_of a.now) arrays.now) }
    requires within { AreWithin (map (λ a. layout_of a.now) arrays.now) runs.now }
    ensures { let ls = map (λ a. layout_of a.now) arrays.now in MatchResult result
        (λ copy. IsCopy (map_layout like.now) ls runs.now (layout_of copy)) NoCopy }
{
    let (offsets, parts) = copy_spans::<i32>(alloc, arrays, runs)?;
    let child = copy_child(alloc, like.field(), arrays, 0, &parts)?;
    let validity = validity_of_runs(alloc, arrays, runs)?;
    let child = Box::new(alloc, child)?;
    match MapArray::try_new(like.data_type().clone()?, offsets, child, validity) {
        Ok(array) => Ok(AnyArray::Map(array)),
        Err(_) => unreachable!(),
    }
}

// The same values if all arrays have them, else those of each, one after the other.
#[cycle(runs)]
fn copy_dictionary(
    alloc: Global,
    like: &DictionaryArray,
    arrays: &[&AnyArray],
    runs: &[Run],
) -> Result<AnyArray, ComputeError>
    requires alike { AllHaveTypeOf (dictionary_layout like.now)
        (map (λ a. layout_of a.now) arrays.now) }
    requires within { AreWithin (map (λ a. layout_of a.now) arrays.now) runs.now }
    ensures { let ls = map (λ a. layout_of a.now) arrays.now in MatchResult result
        (λ copy. IsCopy (dictionary_layout like.now) ls runs.now (layout_of copy)) NoCopy }
{
    let typed = all_of::<DictionaryArray>(alloc, arrays)?;
    if let Some(first) = same_values(&typed) {
        let placed = at_start(alloc, &typed)?;
        let values = first.shared_values()?;
        return copy_keys(alloc, like, arrays, &placed, runs, values);
    }
    let placed = at_ends(alloc, &typed)?;
    let children = children_of(alloc, arrays, 0)?;
    let whole = whole_runs(alloc, &children)?;
    let values = copy_runs(alloc, like.values(), &children, &whole)?;
    let values = Arc::new(alloc, values)?;
    copy_keys(alloc, like, arrays, &placed, runs, values)
}

// The same runs of each child if sparse, else the runs of each child's slots.
#[cycle(runs)]
fn copy_union(
    alloc: Global,
    like: &UnionArray,
    arrays: &[&AnyArray],
    runs: &[Run],
) -> Result<AnyArray, ComputeError>
    requires alike { AllHaveTypeOf (union_layout like.now)
        (map (λ a. layout_of a.now) arrays.now) }
    requires within { AreWithin (map (λ a. layout_of a.now) arrays.now) runs.now }
    ensures { let ls = map (λ a. layout_of a.now) arrays.now in MatchResult result
        (λ copy. IsCopy (union_layout like.now) ls runs.now (layout_of copy)) NoCopy }
{
    let typed = all_of::<UnionArray>(alloc, arrays)?;
    if like.offsets().is_none() {
        let children = copy_children(alloc, like.fields(), arrays, runs)?;
        return Ok(finish_sparse(alloc, like, &typed, runs, children)?);
    }
    let (offsets, parts) = dense_runs(alloc, &typed, runs, like.fields().len())?;
    let children = copy_fields(alloc, like.fields(), arrays, &parts)?;
    Ok(finish_dense(alloc, like, &typed, runs, offsets, &parts, children)?)
}
