//! The slots of several arrays, one after the other.
ghost use Rattle.std.specs.Prelude.{◌≡◌, map, IsTrue, IsFalse, IfOk, MatchResult};
ghost use Rattle.std.specs.List.{All};
ghost use Rattle.lower_arrays.specs.Layouts.{len_of, type_of};
ghost use Rattle.lower_arrays.specs.Slots.{IsArray, column_of};
ghost use Rattle.lower_arrays.specs.AnyLayouts.{layout_of};
ghost use Rattle.lower_compute.specs.Runs.{whole_runs};
ghost use Rattle.lower_compute.specs.Compute.{IsJoined, CauseConcatenate};

use crate::copies::copy_runs;
use crate::error::ComputeError;
use crate::runs::Run;
use lower::datatypes::is_same_type;
use lower_arrays::array::AnyArray;
use std::alloc::{AllocError, Global};

/// Returns a run over each array as a whole.
pub(crate) fn whole_runs(alloc: Global, arrays: &[&AnyArray]) -> Result<Vec<Run>, AllocError>
    ensures { let ls = map (λ a. layout_of a.now) arrays.now in
        IfOk result (λ v. v.items ≡ whole_runs 0 (map len_of ls)) }
{
    let mut runs = Vec::with_capacity(alloc, arrays.len())?;
    for number in 0..arrays.len() {
        runs.push(Run {
            array: number,
            offset: 0,
            len: arrays[number].len(),
        })?;
    }
    Ok(runs)
}

// Whether each array has the type of the first.
fn have_one_type(first: &AnyArray, arrays: &[&AnyArray]) -> bool
    ensures same { IsTrue result
        → All (λ a. type_of (layout_of a.now) ≡ type_of (layout_of first.now)) arrays.now }
    ensures valid { IsTrue result → All (λ a. IsArray (layout_of a.now)) arrays.now }
    ensures other { IsFalse result
        → ¬ (All
        (λ a. type_of (layout_of a.now) ≡ type_of (layout_of first.now)) arrays.now) }
{
    for array in arrays {
        if !is_same_type(array.data_type(), first.data_type()) {
            return false;
        }
    }
    true
}

/// Returns an array of the slots of each array, in order, in memory of its own.
///
/// Errors:
///
/// - `ComputeError::NothingGiven`: there is no array.
/// - `ComputeError::Type`: two arrays have different data types.
/// - `ComputeError::Overflow`: a length, an offset or a key would be above the maximum of its type.
/// - `ComputeError::Memory`: an allocation fails.
pub fn concatenate(alloc: Global, arrays: &[&AnyArray]) -> Result<AnyArray, ComputeError>
    ensures { let ls = map (λ a. layout_of a.now) arrays.now in
        MatchResult result (λ copy. IsJoined ls (column_of (layout_of copy)))
        (CauseConcatenate ls) }
{
    if arrays.is_empty() {
        return Err(ComputeError::NothingGiven);
    }
    let first = arrays[0];
    if !have_one_type(first, arrays) {
        return Err(ComputeError::Type);
    }
    let runs = whole_runs(alloc, arrays)?;
    copy_runs(alloc, first, arrays, &runs)
}
