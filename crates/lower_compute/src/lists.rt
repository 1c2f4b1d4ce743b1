//! The offsets of lists and maps, run by run.
ghost use Rattle.std.specs.Prelude.{◌≡◌, ◌<◌, ◌*◌, ◌^◌, map, IfOk, MatchOption, MatchResult};
ghost use Rattle.std.specs.List.{All};
ghost use Rattle.lower_types.specs.declared.PrimitiveType.TheVariants.{Int32, Int64};
ghost use Rattle.lower_flat_arrays.specs.Spans.{span_count};
ghost use Rattle.lower_validation.specs.AnyOffsets.{list_places, list_width};
ghost use Rattle.lower_arrays.specs.Layouts.{level};
ghost use Rattle.lower_arrays.specs.AnyLayouts.{layout_of};
ghost use Rattle.lower_compute.specs.Kinds.{HaveOffsets, offsets_in};
ghost use Rattle.lower_compute.specs.Runs.{RunFits, run_of_items, offsets_of_runs};
ghost use Rattle.lower_compute.specs.Copies.{NoCopy};

use crate::error::ComputeError;
use crate::offsets::{copy_offsets, item_runs};
use crate::runs::Run;
use lower::offset::{Offset, OffsetsBuffer};
use lower_arrays::array::{AnyArray, ListArray, ListOffsets};
use std::alloc::{AllocError, Global};

/// A type of offsets of lists.
pub(crate) trait ListOffset: Offset {
    /// Returns the offsets of an array of lists or maps if they are of this type, else `None`.
    fn offsets_of(array: &AnyArray) -> Option<&OffsetsBuffer<Self>>
        ensures { MatchOption result
            (¬ (HaveOffsets Self.primitive (level (layout_of array.now)).parts))
            (λ os. os.now ≡ offsets_in (level (layout_of array.now)).parts) };
}

// The offsets, if they have 32 bits.
fn small(offsets: &ListOffsets) -> Option<&OffsetsBuffer<i32>>
    ensures { MatchOption result
        (list_width offsets.now ≡ Int64)
        (λ os. os.now ≡ list_places offsets.now) }
{
    match offsets {
        ListOffsets::Small(offsets) => Some(offsets),
        ListOffsets::Large(_) => None,
    }
}

// The offsets, if they have 64 bits.
fn large(offsets: &ListOffsets) -> Option<&OffsetsBuffer<i64>>
    ensures { MatchOption result
        (list_width offsets.now ≡ Int32)
        (λ os. os.now ≡ list_places offsets.now) }
{
    match offsets {
        ListOffsets::Small(_) => None,
        ListOffsets::Large(offsets) => Some(offsets),
    }
}

impl ListOffset for i32 {
    #[tactic(auto, using(crate::proofs::Widths::widths))]
    fn offsets_of(array: &AnyArray) -> Option<&OffsetsBuffer<i32>> {
        match array {
            AnyArray::List(array) => small(array.offsets()),
            AnyArray::LargeList(array) => small(array.offsets()),
            AnyArray::Map(array) => Some(array.offsets()),
            _ => None,
        }
    }
}

impl ListOffset for i64 {
    #[tactic(auto, using(crate::proofs::Widths::widths))]
    fn offsets_of(array: &AnyArray) -> Option<&OffsetsBuffer<i64>> {
        match array {
            AnyArray::List(array) => large(array.offsets()),
            AnyArray::LargeList(array) => large(array.offsets()),
            _ => None,
        }
    }
}

// The offsets of each array.
fn all_offsets<'a, O: ListOffset>(
    alloc: Global,
    arrays: &[&'a AnyArray],
) -> Result<Vec<&'a OffsetsBuffer<O>>, AllocError>
    requires { let ls = map (λ a. layout_of a.now) arrays.now in
        All (λ l. HaveOffsets O.primitive (level l).parts) ls }
    ensures { IfOk result (λ v. map (λ os. os.now) v.items
        ≡ map (λ a. offsets_in (level (layout_of a.now)).parts) arrays.now) }
{
    let mut all = Vec::with_capacity(alloc, arrays.len())?;
    for array in arrays {
        let Some(offsets) = O::offsets_of(*array) else {
            unreachable!();
        };
        all.push(offsets)?;
    }
    Ok(all)
}

/// Returns the offsets of the slots of each run, from 0, and the runs over their items.
pub(crate) fn copy_spans<'a, O: ListOffset + 'a>(
    alloc: Global,
    arrays: &[&'a AnyArray],
    runs: &[Run],
) -> Result<(OffsetsBuffer<O>, Vec<Run>), ComputeError>
    requires kinds { let ls = map (λ a. layout_of a.now) arrays.now in
        All (λ l. HaveOffsets O.primitive (level l).parts) ls }
    requires fits { let ls = map (λ a. layout_of a.now) arrays.now in
        All (RunFits (map (λ l. span_count (offsets_in (level l).parts)) ls)) runs.now }
    ensures { let oss = map (λ l. offsets_in (level l).parts)
        (map (λ a. layout_of a.now) arrays.now) in
        MatchResult result
        (λ made. (made.0 ≡ offsets_of_runs oss runs.now)
        × (made.1.items ≡ map (run_of_items oss) runs.now))
        NoCopy }
{
    let all = all_offsets::<O>(alloc, arrays)?;
    let offsets = copy_offsets(alloc, &all, runs)?;
    let parts = item_runs(alloc, &all, runs)?;
    Ok((offsets, parts))
}

/// Returns the same for lists, whose offsets have the width of those of `like`.
pub(crate) fn copy_list_offsets(
    alloc: Global,
    like: &ListArray,
    arrays: &[&AnyArray],
    runs: &[Run],
) -> Result<(ListOffsets, Vec<Run>), ComputeError>
    requires kinds { let ls = map (λ a. layout_of a.now) arrays.now in
        All (λ l. HaveOffsets like.now.width (level l).parts) ls }
    requires fits { let ls = map (λ a. layout_of a.now) arrays.now in
        All (RunFits (map (λ l. span_count (offsets_in (level l).parts)) ls)) runs.now }
    ensures { let oss = map (λ l. offsets_in (level l).parts)
        (map (λ a. layout_of a.now) arrays.now) in
        MatchResult result
        (λ made. (list_width made.0 ≡ like.now.width)
        × (list_places made.0 ≡ offsets_of_runs oss runs.now)
        × (made.1.items ≡ map (run_of_items oss) runs.now))
        NoCopy }
{
    match like.offsets() {
        ListOffsets::Small(_) => {
            let (offsets, parts) = copy_spans::<i32>(alloc, arrays, runs)?;
            Ok((ListOffsets::Small(offsets), parts))
        }
        ListOffsets::Large(_) => {
            let (offsets, parts) = copy_spans::<i64>(alloc, arrays, runs)?;
            Ok((ListOffsets::Large(offsets), parts))
        }
    }
}
