//! Offsets of the slots of runs.
ghost use Rattle.std.specs.Prelude.{◌≡◌, ℕ, List, ◌+◌, ◌-◌, ◌≤◌, ◌++◌, map, length, sum, slice_index, IfOk, MatchResult};
ghost use Rattle.std.specs.List.{All};
ghost use Rattle.lower_flat_arrays.specs.Validities.{part};
ghost use Rattle.lower_flat_arrays.specs.Spans.{span_count};
ghost use Rattle.lower_builders.specs.Growing.{offsets_by_lengths, CantReach};
ghost use Rattle.lower_compute.specs.Runs.{RunFits, items_of_runs, widths, run_between, run_of_items, offsets_of_runs};

use crate::runs::Run;
use lower::offset::{Offset, OffsetsBuffer};
use lower_builders::error::BuildError;
use lower_builders::offsets::Offsets;
use std::alloc::{AllocError, Global};

// Appends the offsets of the slots of a run.
fn append_offsets<O: Offset>(
    all: &mut Offsets<O>,
    from: &OffsetsBuffer<O>,
    offset: usize,
    len: usize,
) -> Result<(), BuildError>
    requires { offset + len ≤ span_count from.now }
    ensures { (ns : List ℕ) → all.old ≡ offsets_by_lengths ns →
        MatchResult result
        (λ _. all.new ≡ offsets_by_lengths (ns ++ part offset len (widths from.now)))
        (CantReach O.limit (sum (ns ++ part offset len (widths from.now)))) }
{
    prove!(offset < from.len());
    let mut last = from.get(offset);
    for i in 0..len {
        let end = from.get(offset + i + 1);
        if let Err(error) = all.try_push_usize(end - last) {
            return Err(error);
        }
        last = end;
    }
    Ok(())
}

/// Returns the offsets of the slots of each run, from 0.
///
/// Errors:
///
/// - `BuildError::OffsetOverflow`: an offset would be above the maximum of its type.
/// - `BuildError::Memory`: an allocation fails.
pub(crate) fn copy_offsets<O: Offset>(
    alloc: Global,
    offsets: &[&OffsetsBuffer<O>],
    runs: &[Run],
) -> Result<OffsetsBuffer<O>, BuildError>
    requires { All (RunFits (map (λ os. span_count os.now) offsets.now)) runs.now }
    ensures { let oss = map (λ os. os.now) offsets.now in MatchResult result
        (λ o. o ≡ offsets_of_runs oss runs.now)
        (CantReach O.limit (sum (items_of_runs (map widths oss) runs.now))) }
{
    let mut all = match Offsets::new(alloc) {
        Ok(all) => all,
        Err(error) => return Err(error),
    };
    for run in runs {
        if let Err(error) = append_offsets(&mut all, offsets[run.array], run.offset, run.len) {
            return Err(error);
        }
    }
    Ok(all.finish()?)
}

// The run over the items of a run's slots.
#[tactic(auto, using(lower_flat_arrays::proofs::SpanPlaces::offset_le))]
fn items_between<O: Offset>(from: &OffsetsBuffer<O>, run: &Run) -> Run
    requires { run.now.offset + run.now.len ≤ span_count from.now }
    ensures { result ≡ run_between from.now run.now }
{
    prove!(run.offset < from.len());
    let start = from.get(run.offset);
    let end = from.get(run.offset + run.len);
    Run {
        array: run.array,
        offset: start,
        len: end - start,
    }
}

/// Returns the runs over the items of each run's slots.
pub(crate) fn item_runs<O: Offset>(
    alloc: Global,
    offsets: &[&OffsetsBuffer<O>],
    runs: &[Run],
) -> Result<Vec<Run>, AllocError>
    requires { All (RunFits (map (λ os. span_count os.now) offsets.now)) runs.now }
    ensures { IfOk result
        (λ v. v.items ≡ map (run_of_items (map (λ os. os.now) offsets.now)) runs.now) }
{
    let mut all = Vec::with_capacity(alloc, runs.len())?;
    for run in runs {
        let from = offsets[run.array];
        all.push(items_between(from, run))?;
    }
    Ok(all)
}
