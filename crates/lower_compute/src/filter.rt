//! The slots of an array at which a mask is true.
ghost use Rattle.std.specs.Prelude.{◌≡◌, MatchResult};
ghost use Rattle.lower_arrays.specs.Slots.{column_of};
ghost use Rattle.lower_arrays.specs.AnyLayouts.{layout_of};
ghost use Rattle.lower_compute.specs.Compute.{filtered_column, CauseFilter};

use crate::error::ComputeError;
use crate::select::indices_of;
use crate::take::slots_at;
use lower_arrays::array::{AnyArray, BooleanArray};
use std::alloc::Global;

/// Returns an array of the slots at which `filter` is true, in memory of its own.
///
/// A null in `filter` is false. Errors:
///
/// - `ComputeError::Length`: `filter` has another length than `array`.
/// - `ComputeError::Overflow`: a length or an offset would be above the maximum of its type.
/// - `ComputeError::Memory`: an allocation fails.
pub fn filter(
    alloc: Global,
    array: &AnyArray,
    filter: &BooleanArray,
) -> Result<AnyArray, ComputeError>
    ensures { MatchResult result
        (λ copy. column_of (layout_of copy) ≡ filtered_column filter.now (layout_of array.now))
        (CauseFilter filter.now (layout_of array.now)) }
{
    if filter.len() != array.len() {
        return Err(ComputeError::Length);
    }
    let indices = indices_of(alloc, filter)?;
    slots_at(alloc, array, &indices)
}
