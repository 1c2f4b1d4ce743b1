//! The slots of an array at some indices.
ghost use Rattle.std.specs.Prelude.{◌≡◌, ◌<◌, ◌≤◌, length, slice_index, MatchOption, MatchResult};
ghost use Rattle.std.specs.List.{All};
ghost use Rattle.lower_arrays.specs.Layouts.{len_of};
ghost use Rattle.lower_arrays.specs.Slots.{column_of};
ghost use Rattle.lower_arrays.specs.AnyLayouts.{layout_of};
ghost use Rattle.lower_compute.specs.Copies.{NoCopy};
ghost use Rattle.lower_compute.specs.Compute.{taken_column, CauseTake};

use crate::copies::copy_runs;
use crate::error::ComputeError;
use crate::gather::numbers_at;
use crate::select::indexed_runs;
use lower_arrays::array::AnyArray;
use std::alloc::Global;

// The position of the first index that isn't below `len`.
fn first_past(indices: &[usize], len: usize) -> Option<usize>
    ensures { MatchOption result
        (All (λ i. i < len) indices.now)
        (λ k. (k < length indices.now) × (len ≤ slice_index indices.now k)) }
{
    for position in 0..indices.len() {
        if indices[position] >= len {
            return Some(position);
        }
    }
    None
}

/// Returns an array of the slots at these indices, in memory of its own.
///
/// Errors:
///
/// - `ComputeError::Overflow`: a length or an offset would be above the maximum of its type.
/// - `ComputeError::Memory`: an allocation fails.
pub(crate) fn slots_at(
    alloc: Global,
    array: &AnyArray,
    indices: &[usize],
) -> Result<AnyArray, ComputeError>
    requires { All (λ i. i < len_of (layout_of array.now)) indices.now }
    ensures { MatchResult result
        (λ copy. column_of (layout_of copy)
        ≡ taken_column indices.now (layout_of array.now)) NoCopy }
{
    if let AnyArray::Primitive(numbers) = array {
        return Ok(AnyArray::Primitive(numbers_at(alloc, numbers, indices)?));
    }
    prove!(array.len() <= usize::MAX);
    let runs = indexed_runs(alloc, indices)?;
    copy_runs(alloc, array, &[array], &runs)
}

/// Returns an array of the slots at `indices`, in this order, in memory of its own.
///
/// Errors:
///
/// - `ComputeError::Index(k)`: `indices[k]` is past the end of the array.
/// - `ComputeError::Overflow`: a length or an offset would be above the maximum of its type.
/// - `ComputeError::Memory`: an allocation fails.
pub fn take(alloc: Global, array: &AnyArray, indices: &[usize]) -> Result<AnyArray, ComputeError>
    ensures { MatchResult result
        (λ copy. column_of (layout_of copy) ≡ taken_column indices.now (layout_of array.now))
        (CauseTake indices.now (layout_of array.now)) }
{
    if let Some(position) = first_past(indices, array.len()) {
        return Err(ComputeError::Index(position));
    }
    slots_at(alloc, array, indices)
}
