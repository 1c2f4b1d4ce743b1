//! The indices at which masks are true, and runs over slots at indices.
ghost use Rattle.std.specs.Prelude.{◌≡◌, ◌-◌, ◌^◌, ◌<◌, map, length, IfOk};
ghost use Rattle.std.specs.List.{All};
ghost use Rattle.lower_compute.specs.Runs.{origins};
ghost use Rattle.lower_compute.specs.Selections.{is_true_at, true_indices};

use crate::runs::{Run, push_slot};
use lower_flat_arrays::BooleanArray;
use std::alloc::{AllocError, Global};

// Whether the mask is true at this index. A null is false.
fn is_true(mask: &BooleanArray, index: usize) -> bool
    requires { index < length mask.now.values }
    ensures { result ≡ is_true_at mask.now index }
{
    mask.is_valid(index) && mask.value(index)
}

// At how many indices the mask is true.
fn count_true(mask: &BooleanArray) -> usize
    ensures { result ≡ length (true_indices mask.now) }
{
    let mut count = 0usize;
    for index in 0..mask.len() {
        count += usize::from(is_true(mask, index));
    }
    count
}

/// Returns the indices at which the mask is true.
pub(crate) fn indices_of(alloc: Global, mask: &BooleanArray) -> Result<Vec<usize>, AllocError>
    ensures { IfOk result (λ v. v.items ≡ true_indices mask.now) }
{
    let mut indices = vec![in alloc; 0usize; count_true(mask)]?;
    let mut count = 0usize;
    for index in 0..mask.len() {
        if is_true(mask, index) {
            indices[count] = index;
            count += 1;
        }
    }
    Ok(indices)
}

/// Returns the runs of the slots at these indices, in this order.
pub(crate) fn indexed_runs(alloc: Global, indices: &[usize]) -> Result<Vec<Run>, AllocError>
    requires { All (λ i. i < 2 ^ 64 - 1) indices.now }
    ensures slots { IfOk result (λ v. origins v.items ≡ map (λ i. (0, i)) indices.now) }
    ensures some { IfOk result (λ v. All (λ run. 0 < run.len) v.items) }
{
    let mut runs = Vec::new(alloc);
    for index in indices {
        push_slot(&mut runs, 0, *index)?;
    }
    Ok(runs)
}
