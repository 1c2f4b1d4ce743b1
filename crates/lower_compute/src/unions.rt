//! The slots of unions, run by run.
ghost use Rattle.std.specs.Prelude.{◌≡◌, ℕ, List, [], ◌++◌, ◌+◌, ◌-◌, ◌<◌, ◌≤◌, ◌^◌, None, map, length, get_or, replicate, IfOk, IfErr, OnOk, MatchResult};
ghost use Rattle.std.specs.List.{All, range_with_len};
ghost use Rattle.lower_arrays.specs.Layouts.{Layout, layouts};
ghost use Rattle.lower_arrays.specs.Choices.{no_child};
ghost use Rattle.lower_arrays.specs.Children.{child_count};
ghost use Rattle.lower_arrays.specs.Unions.{union_layout};
ghost use Rattle.lower_arrays.specs.AnyLayouts.{layout_of};
ghost use Rattle.lower_compute.specs.Runs.{RunFits, items_of_runs, origins};
ghost use Rattle.lower_compute.specs.Copies.{AllHaveTypeOf, AreWithin, IsCopy, NoCopy, AreCopies};
ghost use Rattle.lower_compute.specs.Variants.{AreDense, IsPushed, AreRecorded};

use crate::error::ComputeError;
use crate::items::copy_items;
use crate::runs::{Run, push_slot};
use lower::buffer::Buffer;
use lower_arrays::array::{AnyArray, UnionArray};
use std::alloc::{AllocError, Global};

// The type ids of each array.
fn types_of<'a>(alloc: Global, arrays: &[&'a UnionArray]) -> Result<Vec<&'a [i8]>, AllocError>
    ensures { IfOk result
        (λ v. map (λ xs. xs.now) v.items ≡ map (λ a. a.now.types) arrays.now) }
{
    let mut all = Vec::with_capacity(alloc, arrays.len())?;
    for array in arrays {
        all.push(array.types().as_slice())?;
    }
    Ok(all)
}

// The type ids of the slots of each run.
fn copy_types(alloc: Global, arrays: &[&UnionArray], runs: &[Run]) -> Result<Vec<i8>, AllocError>
    requires { All (RunFits (map (λ a. length a.now.types) arrays.now)) runs.now }
    ensures { IfOk result
        (λ v. v.items ≡ items_of_runs (map (λ a. a.now.types) arrays.now) runs.now) }
{
    let types = types_of(alloc, arrays)?;
    copy_items(alloc, &types, runs)
}

/// Returns a sparse union of copies of the children.
pub(crate) fn finish_sparse(
    alloc: Global,
    like: &UnionArray,
    arrays: &[&UnionArray],
    runs: &[Run],
    children: Vec<AnyArray>,
) -> Result<AnyArray, AllocError>
    requires alike { AllHaveTypeOf (union_layout like.now)
        (map (λ a. union_layout a.now) arrays.now) }
    requires within { AreWithin (map (λ a. union_layout a.now) arrays.now) runs.now }
    requires sparse { like.now.offsets ≡ None }
    requires copies { let ls = map (λ a. union_layout a.now) arrays.now in
        AreCopies like.now.children ls (λ k. runs.now) (map layout_of children.items) }
    ensures { let ls = map (λ a. union_layout a.now) arrays.now in
        IfOk result (λ copy. IsCopy (union_layout like.now) ls runs.now (layout_of copy)) }
{
    let types = copy_types(alloc, arrays, runs)?;
    let buffer = Buffer::new(types)?;
    match UnionArray::try_new(like.data_type().clone()?, buffer, children, None) {
        Ok(array) => Ok(AnyArray::Union(array)),
        Err(_) => unreachable!(),
    }
}

/// Returns a dense union of copies of the runs of the children.
pub(crate) fn finish_dense(
    alloc: Global,
    like: &UnionArray,
    arrays: &[&UnionArray],
    runs: &[Run],
    offsets: Vec<i32>,
    parts: &[Vec<Run>],
    children: Vec<AnyArray>,
) -> Result<AnyArray, AllocError>
    requires alike { AllHaveTypeOf (union_layout like.now)
        (map (λ a. union_layout a.now) arrays.now) }
    requires within { AreWithin (map (λ a. union_layout a.now) arrays.now) runs.now }
    requires dense { let ls = map (λ a. union_layout a.now) arrays.now in
        (like.now.offsets ≡ None → ⊥)
        × AreDense ls (origins runs.now) (map (λ v. v.items) parts.now) offsets.items }
    requires copies { let ls = map (λ a. union_layout a.now) arrays.now in
        AreCopies like.now.children ls (λ k. get_or (map (λ v. v.items) parts.now) k [])
        (map layout_of children.items) }
    ensures { let ls = map (λ a. union_layout a.now) arrays.now in
        IfOk result (λ copy. IsCopy (union_layout like.now) ls runs.now (layout_of copy)) }
{
    let types = copy_types(alloc, arrays, runs)?;
    let buffer = Buffer::new(types)?;
    let offsets = Buffer::new(offsets)?;
    match UnionArray::try_new(like.data_type().clone()?, buffer, children, Some(offsets)) {
        Ok(array) => Ok(AnyArray::Union(array)),
        Err(_) => unreachable!(),
    }
}

// Appends slot `index` of a child of an array, and its offset.
fn push_dense(
    offsets: &mut Vec<i32>,
    parts: &mut Vec<Vec<Run>>,
    lens: &mut Vec<usize>,
    child: usize,
    array: usize,
    index: usize,
) -> Result<(), ComputeError>
    requires { (child < length parts.old.items) × (child < length lens.old.items)
        × (index < 2 ^ 64 - 1) }
    ensures { MatchResult result (λ _. IsPushed child array index
        offsets.old.items (map (λ v. v.items) parts.old.items) lens.old.items
        offsets.new.items (map (λ v. v.items) parts.new.items) lens.new.items) NoCopy }
{
    let len = lens[child];
    let Ok(offset) = i32::try_from(len) else {
        return Err(ComputeError::Overflow);
    };
    push_slot(&mut parts[child], array, index)?;
    lens[child] = len + 1;
    offsets.push(offset)?;
    Ok(())
}

// Appends the slots of a run.
fn append_dense(
    offsets: &mut Vec<i32>,
    parts: &mut Vec<Vec<Run>>,
    lens: &mut Vec<usize>,
    array: &UnionArray,
    number: usize,
    offset: usize,
    len: usize,
) -> Result<(), ComputeError>
    requires within { offset + len ≤ length array.now.types }
    requires counts { (child_count (layouts array.now.children) ≤ length parts.old.items)
        × (length lens.old.items ≡ length parts.old.items) }
    ensures recorded { (ls : List Layout) (ps : List (ℕ × ℕ))
        → get_or ls number no_child ≡ union_layout array.now → number < length ls
        → AreRecorded ls (length parts.old.items) ps
        offsets.old.items (map (λ v. v.items) parts.old.items) lens.old.items
        → OnOk result (AreRecorded ls (length parts.old.items)
        (ps ++ map (λ k. (number, k)) (range_with_len offset len))
        offsets.new.items (map (λ v. v.items) parts.new.items) lens.new.items) }
    ensures counts { OnOk result
        ((length parts.new.items ≡ length parts.old.items)
        × (length lens.new.items ≡ length lens.old.items)) }
    ensures failed { IfErr result NoCopy }
{
    prove!(len <= array.len());
    for i in 0..len {
        let (child, index) = array.index(offset + i);
        let field = &array.fields()[child];
        prove!(index < field.len());
        push_dense(offsets, parts, lens, child, number, index)?;
    }
    Ok(())
}

// `count` lists of no runs.
fn empty_parts(alloc: Global, count: usize) -> Result<Vec<Vec<Run>>, AllocError>
    ensures { IfOk result (λ v. map (λ r. r.items) v.items ≡ replicate count []) }
{
    let mut parts = Vec::with_capacity(alloc, count)?;
    for number in 0..count {
        parts.push(Vec::new(alloc))?;
    }
    Ok(parts)
}

// `count` zeros.
fn zeros(alloc: Global, count: usize) -> Result<Vec<usize>, AllocError>
    ensures { IfOk result (λ v. v.items ≡ replicate count 0) }
{
    let mut all = Vec::with_capacity(alloc, count)?;
    for number in 0..count {
        all.push(0)?;
    }
    Ok(all)
}

/// Returns the offsets of the slots of each run, and the runs over each of the `count` children.
///
/// Errors:
///
/// - `ComputeError::Overflow`: an offset would be above the maximum of its type.
/// - `ComputeError::Memory`: an allocation fails.
pub(crate) fn dense_runs(
    alloc: Global,
    arrays: &[&UnionArray],
    runs: &[Run],
    count: usize,
) -> Result<(Vec<i32>, Vec<Vec<Run>>), ComputeError>
    requires counts { All (λ a. child_count (layouts a.now.children) ≡ count) arrays.now }
    requires within { AreWithin (map (λ a. union_layout a.now) arrays.now) runs.now }
    ensures { MatchResult result
        (λ made.
        AreDense (map (λ a. union_layout a.now) arrays.now) (origins runs.now)
        (map (λ v. v.items) made.1.items) made.0.items
        × (length made.1.items ≡ count))
        NoCopy }
{
    let mut offsets = Vec::new(alloc);
    let mut parts = empty_parts(alloc, count)?;
    let mut lens = zeros(alloc, count)?;
    for run in runs {
        let array = arrays[run.array];
        append_dense(
            &mut offsets,
            &mut parts,
            &mut lens,
            array,
            run.array,
            run.offset,
            run.len,
        )?;
    }
    Ok((offsets, parts))
}
