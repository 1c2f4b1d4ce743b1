//! Copies of arrays of byte strings of one length, run by run.
ghost use Rattle.std.specs.Prelude.{◌≡◌, ◌*◌, ◌^◌, ◌<◌, map, length, IfOk};
ghost use Rattle.std.specs.List.{All};
ghost use Rattle.std.specs.Option.{option_copied};
ghost use Rattle.lower.specs.Physical.{physical};
ghost use Rattle.lower.specs.TypeViews.{type_view};
ghost use Rattle.lower.specs.declared.datatypes.physical_type.PhysicalType.TheVariants.{FixedSizeBinary};
ghost use Rattle.lower_flat_arrays.specs.Validities.{ValidityFits};
ghost use Rattle.lower_flat_arrays.specs.FixedBinaries.{byte_size};
ghost use Rattle.lower_flat_arrays.specs.Columns.{fixed_column};
ghost use Rattle.lower_compute.specs.Runs.{RunFits, column_of_runs};

use crate::bits::copy_validity;
use crate::items::copy_items;
use crate::runs::{Run, scaled_runs};
use lower::bitmap::Bitmap;
use lower::buffer::Buffer;
use lower::datatypes::DataType;
use lower_flat_arrays::FixedSizeBinaryArray;
use std::alloc::{AllocError, Global};

// The bytes of each array.
fn values_of<'a>(
    alloc: Global,
    arrays: &[&'a FixedSizeBinaryArray],
) -> Result<Vec<&'a [u8]>, AllocError>
    ensures bytes { IfOk result
        (λ v. map (λ xs. xs.now) v.items ≡ map (λ a. a.now.values) arrays.now) }
    ensures whole { IfOk result
        (λ _. All (λ a. length a.now.values ≡ a.now.len * a.now.size) arrays.now) }
    ensures small { IfOk result (λ _. All (λ a. length a.now.values < 2 ^ 64) arrays.now) }
{
    let mut all = Vec::with_capacity(alloc, arrays.len())?;
    for array in arrays {
        let bytes = array.values().as_slice();
        prove!(bytes.len() <= usize::MAX);
        all.push(bytes)?;
    }
    Ok(all)
}

// The validity of each array.
fn validities_of<'a>(
    alloc: Global,
    arrays: &[&'a FixedSizeBinaryArray],
) -> Result<Vec<Option<&'a Bitmap>>, AllocError>
    ensures bits { IfOk result
        (λ v. map option_copied v.items ≡ map (λ a. a.now.validity) arrays.now) }
    ensures fits { IfOk result
        (λ _. All (λ a. ValidityFits a.now.validity a.now.len) arrays.now) }
{
    let mut all = Vec::with_capacity(alloc, arrays.len())?;
    for array in arrays {
        all.push(array.validity())?;
    }
    Ok(all)
}

/// Returns an array of the slots of each run, in memory of its own; each slot has `size` bytes.
///
/// It fails only if an allocation fails.
pub(crate) fn copy_fixed_size_binary(
    alloc: Global,
    data_type: &DataType,
    size: usize,
    arrays: &[&FixedSizeBinaryArray],
    runs: &[Run],
) -> Result<FixedSizeBinaryArray, AllocError>
    requires lies { physical (type_view data_type.now) ≡ FixedSizeBinary }
    requires named { (byte_size (type_view data_type.now) ≡ size) × (0 < size) }
    requires sizes { All (λ a. a.now.size ≡ size) arrays.now }
    requires fits { All (RunFits (map (λ a. a.now.len) arrays.now)) runs.now }
    ensures { IfOk result (λ copy. fixed_column copy
        ≡ column_of_runs (type_view data_type.now)
        (map (λ a. fixed_column a.now) arrays.now) runs.now) }
{
    let values = values_of(alloc, arrays)?;
    let validities = validities_of(alloc, arrays)?;
    let parts = scaled_runs(alloc, runs, size)?;
    let items = copy_items(alloc, &values, &parts)?;
    let validity = copy_validity(alloc, &validities, runs)?;
    let buffer = Buffer::new(items)?;
    match FixedSizeBinaryArray::try_new(data_type.clone()?, buffer, validity) {
        Ok(array) => Ok(array),
        Err(_) => unreachable!(),
    }
}
