//! The values of several dictionaries.
ghost use Rattle.std.specs.Prelude.{◌≡◌, ℕ, ◌<◌, length, map, get_or, IfOk, IfSome, IsTrue, MatchResult};
ghost use Rattle.std.specs.List.{All};
ghost use Rattle.lower.specs.Normal.{norm};
ghost use Rattle.lower_validation.specs.Keys.{values_type};
ghost use Rattle.lower_arrays.specs.Layouts.{type_of};
ghost use Rattle.lower_arrays.specs.Slots.{slots};
ghost use Rattle.lower_arrays.specs.Dictionaries.{DictionarySeen, dictionary_layout};
ghost use Rattle.lower_arrays.specs.AnyLayouts.{layout_of};
ghost use Rattle.lower_compute.specs.Copies.{AllHaveTypeOf, AreWithin, IsCopy, NoCopy};
ghost use Rattle.lower_compute.specs.Keyed.{BeginsAt, one_after_other};

use crate::children::validity_of_runs;
use crate::error::ComputeError;
use crate::keys::{keys_of, places_of_runs};
use crate::runs::Run;
use lower_arrays::array::{AnyArray, DictionaryArray};
use lower_arrays::equal;
use std::alloc::{AllocError, Global};
use std::sync::Arc;

// Whether the values of each array are those of the first.
fn have_values_of(first: &DictionaryArray, arrays: &[&DictionaryArray]) -> bool
    requires { (0 < length arrays.now) × (first ≡ get_or arrays.now 0 first) }
    ensures { IsTrue result
        → All (λ a. slots a.now.values ≡ slots first.now.values) arrays.now }
{
    for number in 1..arrays.len() {
        if !equal(arrays[number].values(), first.values()) {
            return false;
        }
    }
    true
}

/// Returns the first array if all arrays have its values, else `None`.
pub(crate) fn same_values<'a>(arrays: &[&'a DictionaryArray]) -> Option<&'a DictionaryArray>
    ensures { IfSome result (λ a. (0 < length arrays.now) × (a ≡ get_or arrays.now 0 a)
        × All (λ b. slots b.now.values ≡ slots a.now.values) arrays.now) }
{
    if arrays.is_empty() {
        return None;
    }
    let first = arrays[0];
    if have_values_of(first, arrays) {
        Some(first)
    } else {
        None
    }
}

/// Returns each array with 0, where its values begin in an array of the same values.
pub(crate) fn at_start<'a>(
    alloc: Global,
    arrays: &[&'a DictionaryArray],
) -> Result<Vec<(usize, &'a DictionaryArray)>, AllocError>
    ensures { IfOk result (λ v. map {B = ℕ × DictionarySeen} (λ p. (p.0, p.1.now)) v.items
        ≡ map {B = ℕ × DictionarySeen} (λ a. (0, a.now)) arrays.now) }
{
    let mut all = Vec::with_capacity(alloc, arrays.len())?;
    for array in arrays {
        all.push((0usize, *array))?;
    }
    Ok(all)
}

/// Returns each array with the index at which its values begin behind those of the arrays before.
pub(crate) fn at_ends<'a>(
    alloc: Global,
    arrays: &[&'a DictionaryArray],
) -> Result<Vec<(usize, &'a DictionaryArray)>, ComputeError>
    ensures { MatchResult result
        (λ v. map {B = ℕ × DictionarySeen} (λ p. (p.0, p.1.now)) v.items
        ≡ one_after_other 0 (map (λ a. a.now) arrays.now)) NoCopy }
{
    let mut all = Vec::with_capacity(alloc, arrays.len())?;
    let mut start = 0usize;
    for array in arrays {
        all.push((start, *array))?;
        let Some(end) = start.checked_add(array.values().len()) else {
            return Err(ComputeError::Overflow);
        };
        start = end;
    }
    Ok(all)
}

/// Returns an array of the slots of each run whose dictionary has these values.
///
/// Beside each array is the index at which its values begin in `values`. Errors:
///
/// - `ComputeError::Overflow`: a key would be above the maximum of its type.
/// - `ComputeError::Memory`: an allocation fails.
pub(crate) fn copy_keys(
    alloc: Global,
    like: &DictionaryArray,
    arrays: &[&AnyArray],
    placed: &[(usize, &DictionaryArray)],
    runs: &[Run],
    values: Arc<AnyArray>,
) -> Result<AnyArray, ComputeError>
    requires alike { AllHaveTypeOf (dictionary_layout like.now)
        (map (λ a. layout_of a.now) arrays.now) }
    requires within { AreWithin (map (λ a. layout_of a.now) arrays.now) runs.now }
    requires named { norm (type_of (layout_of values.value)) ≡ norm (values_type like.now.type) }
    requires placed { let ls = map (λ a. layout_of a.now) arrays.now in
        (map (λ p. dictionary_layout p.1.now) placed.now ≡ ls)
        × All (λ p. BeginsAt (layout_of values.value) p.0 p.1.now) placed.now }
    ensures { let ls = map (λ a. layout_of a.now) arrays.now in MatchResult result
        (λ copy. IsCopy (dictionary_layout like.now) ls runs.now (layout_of copy)) NoCopy }
{
    prove!(values.len() <= usize::MAX);
    let places = places_of_runs(alloc, placed, runs)?;
    let validity = validity_of_runs(alloc, arrays, runs)?;
    let keys = keys_of(alloc, like.keys().key_type(), &places, validity)?;
    match DictionaryArray::try_new(like.data_type().clone()?, keys, values) {
        Ok(array) => Ok(AnyArray::Dictionary(array)),
        Err(_) => unreachable!(),
    }
}
