//! The children of lists of one length, run by run.
ghost use Rattle.std.specs.Prelude.{◌≡◌, ◌+◌, ◌*◌, ◌<◌, ◌≤◌, map, IfOk};
ghost use Rattle.lower_arrays.specs.Layouts.{children, len_of};
ghost use Rattle.lower_arrays.specs.Children.{child_count};
ghost use Rattle.lower_arrays.specs.Choices.{child};
ghost use Rattle.lower_arrays.specs.AnyLayouts.{layout_of};
ghost use Rattle.lower_compute.specs.Runs.{scaled};
ghost use Rattle.lower_compute.specs.Copies.{AreWithin, each_child, HaveChild};

use crate::children::child_of;
use crate::runs::Run;
use lower_arrays::array::AnyArray;
use std::alloc::{AllocError, Global};

// The run over the child of the slots of a run.
fn slot_run(array: &AnyArray, run: &Run, size: usize) -> Run
    requires have { 0 < child_count (children (layout_of array.now)) }
    requires within { run.now.offset * size + run.now.len * size
        ≤ len_of (child (children (layout_of array.now)) 0) }
    ensures { result ≡ scaled size run.now }
{
    let child = child_of(array, 0);
    prove!(child.len() <= usize::MAX);
    Run {
        array: run.array,
        offset: run.offset * size,
        len: run.len * size,
    }
}

/// Returns the runs over the children of each run's slots, each of which has `size` slots.
pub(crate) fn slot_runs(
    alloc: Global,
    arrays: &[&AnyArray],
    runs: &[Run],
    size: usize,
) -> Result<Vec<Run>, AllocError>
    requires have { HaveChild 0 (map (λ a. layout_of a.now) arrays.now) }
    requires within { let ls = map (λ a. layout_of a.now) arrays.now in
        AreWithin (each_child 0 ls) (map (scaled size) runs.now) }
    ensures { IfOk result (λ v. v.items ≡ map (scaled size) runs.now) }
{
    let mut all = Vec::with_capacity(alloc, runs.len())?;
    for run in runs {
        all.push(slot_run(arrays[run.array], run, size))?;
    }
    Ok(all)
}
