//! Runs: neighbouring slots of one of several arrays.
ghost use Rattle.std.specs.Prelude.{◌≡◌, ◌+◌, ◌-◌, ◌*◌, ◌^◌, ◌<◌, ◌++◌, ◌∷◌, [], map, IfOk, OnOk, vec_len};
ghost use Rattle.std.specs.List.{All};
ghost use Rattle.lower_compute.specs.Runs.{scaled, origins};

use std::alloc::{AllocError, Global};

/// The `len` slots from `offset` of the array with this index among several.
#[derive(Debug, Clone, Copy, Drop, PartialEq, Eq)]
pub struct Run {
    pub array: usize,
    pub offset: usize,
    pub len: usize,
}

/// Returns the runs over the items of each run's slots, each of which has `size` items.
pub(crate) fn scaled_runs(alloc: Global, runs: &[Run], size: usize) -> Result<Vec<Run>, AllocError>
    requires { All (λ run. (run.offset * size < 2 ^ 64) × (run.len * size < 2 ^ 64)) runs.now }
    ensures { IfOk result (λ v. v.items ≡ map (scaled size) runs.now) }
{
    let mut all = Vec::with_capacity(alloc, runs.len())?;
    for run in runs {
        all.push(Run {
            array: run.array,
            offset: run.offset * size,
            len: run.len * size,
        })?;
    }
    Ok(all)
}

/// Appends one slot: to the last run if that ends before it, else as a run of its own.
pub(crate) fn push_slot(runs: &mut Vec<Run>, array: usize, index: usize) -> Result<(), AllocError>
    requires { index < 2 ^ 64 - 1 }
    ensures slots { OnOk result
        (origins runs.new.items ≡ origins runs.old.items ++ (array, index) ∷ []) }
    ensures some { OnOk result
        (All (λ run. 0 < run.len) runs.old.items → All (λ run. 0 < run.len) runs.new.items) }
{
    let count = runs.len();
    if count > 0 {
        let last = runs[count - 1];
        if last.array == array && last.offset <= index && index - last.offset == last.len {
            runs[count - 1] = Run {
                array,
                offset: last.offset,
                len: last.len + 1,
            };
            return Ok(());
        }
    }
    runs.push(Run {
        array,
        offset: index,
        len: 1,
    })?;
    Ok(())
}
