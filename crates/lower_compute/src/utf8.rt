//! Copies of arrays of texts, run by run.
ghost use Rattle.std.specs.Prelude.{◌≡◌, ◌≤◌, map, length, sum, IfOk, MatchResult};
ghost use Rattle.std.specs.List.{All};
ghost use Rattle.std.specs.Option.{option_copied};
ghost use Rattle.lower.specs.Offsets.{IsOffsets};
ghost use Rattle.lower.specs.Physical.{physical};
ghost use Rattle.lower.specs.TypeViews.{type_view};
ghost use Rattle.lower_flat_arrays.specs.Validities.{ValidityFits};
ghost use Rattle.lower_flat_arrays.specs.Spans.{span_count, EndsWithin, AreTexts};
ghost use Rattle.lower_flat_arrays.specs.Texts.{texts_with};
ghost use Rattle.lower_flat_arrays.specs.Columns.{text_column};
ghost use Rattle.lower_builders.specs.Growing.{CantReach};
ghost use Rattle.lower_compute.specs.Runs.{RunFits, items_of_runs, column_of_runs, widths};

use crate::bits::copy_validity;
use crate::items::copy_items;
use crate::offsets::{copy_offsets, item_runs};
use crate::runs::Run;
use lower::bitmap::Bitmap;
use lower::buffer::Buffer;
use lower::datatypes::DataType;
use lower::offset::{Offset, OffsetsBuffer};
use lower_builders::error::BuildError;
use lower_flat_arrays::Utf8Array;
use std::alloc::{AllocError, Global};

// The offsets of each array.
fn offsets_of<'a, O: Offset>(
    alloc: Global,
    arrays: &[&'a Utf8Array<O>],
) -> Result<Vec<&'a OffsetsBuffer<O>>, AllocError>
    ensures offsets { IfOk result
        (λ v. map (λ os. os.now) v.items ≡ map (λ a. a.now.offsets) arrays.now) }
    ensures rising { IfOk result (λ _. All (λ a. IsOffsets a.now.offsets) arrays.now) }
{
    let mut all = Vec::with_capacity(alloc, arrays.len())?;
    for array in arrays {
        all.push(array.offsets())?;
    }
    Ok(all)
}

// The bytes of each array.
fn values_of<'a, O: Offset>(
    alloc: Global,
    arrays: &[&'a Utf8Array<O>],
) -> Result<Vec<&'a [u8]>, AllocError>
    ensures bytes { IfOk result
        (λ v. map (λ xs. xs.now) v.items ≡ map (λ a. a.now.values) arrays.now) }
    ensures within { IfOk result
        (λ _. All (λ a. EndsWithin a.now.offsets a.now.values) arrays.now) }
    ensures texts { IfOk result (λ _. All (λ a. AreTexts a.now.offsets a.now.values) arrays.now) }
{
    let mut all = Vec::with_capacity(alloc, arrays.len())?;
    for array in arrays {
        all.push(array.values().as_slice())?;
    }
    Ok(all)
}

// The validity of each array.
fn validities_of<'a, O: Offset>(
    alloc: Global,
    arrays: &[&'a Utf8Array<O>],
) -> Result<Vec<Option<&'a Bitmap>>, AllocError>
    ensures bits { IfOk result
        (λ v. map option_copied v.items ≡ map (λ a. a.now.validity) arrays.now) }
    ensures fits { IfOk result
        (λ _. All (λ a. ValidityFits a.now.validity (span_count a.now.offsets)) arrays.now) }
{
    let mut all = Vec::with_capacity(alloc, arrays.len())?;
    for array in arrays {
        all.push(array.validity())?;
    }
    Ok(all)
}

/// Returns an array of the slots of each run, in memory of its own.
///
/// Errors:
///
/// - `BuildError::OffsetOverflow`: an offset would be above the maximum of its type.
/// - `BuildError::Memory`: an allocation fails.
pub(crate) fn copy_utf8<O: Offset>(
    alloc: Global,
    data_type: &DataType,
    arrays: &[&Utf8Array<O>],
    runs: &[Run],
) -> Result<Utf8Array<O>, BuildError>
    requires lies { physical (type_view data_type.now) ≡ texts_with O.primitive }
    requires fits { All (RunFits (map (λ a. span_count a.now.offsets) arrays.now)) runs.now }
    ensures { MatchResult result
        (λ copy. text_column copy
        ≡ column_of_runs (type_view data_type.now)
        (map (λ a. text_column a.now) arrays.now) runs.now)
        (CantReach O.limit
        (sum (items_of_runs (map widths (map (λ a. a.now.offsets) arrays.now)) runs.now))) }
{
    let offsets = offsets_of(alloc, arrays)?;
    let values = values_of(alloc, arrays)?;
    let validities = validities_of(alloc, arrays)?;
    let ends = match copy_offsets(alloc, &offsets, runs) {
        Ok(ends) => ends,
        Err(error) => return Err(error),
    };
    let parts = item_runs(alloc, &offsets, runs)?;
    let items = copy_items(alloc, &values, &parts)?;
    let validity = copy_validity(alloc, &validities, runs)?;
    let buffer = Buffer::new(items)?;
    match Utf8Array::try_new(data_type.clone()?, ends, buffer, validity) {
        Ok(array) => Ok(array),
        Err(_) => unreachable!(),
    }
}
