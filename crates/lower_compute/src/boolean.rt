//! Copies of arrays of booleans, run by run.
ghost use Rattle.std.specs.Prelude.{◌≡◌, Some, map, length, IfOk};
ghost use Rattle.std.specs.List.{All};
ghost use Rattle.std.specs.Option.{option_copied};
ghost use Rattle.lower.specs.Physical.{physical};
ghost use Rattle.lower.specs.TypeViews.{type_view};
ghost use Rattle.lower.specs.declared.datatypes.physical_type.PhysicalType.TheVariants.{Boolean};
ghost use Rattle.lower_flat_arrays.specs.Validities.{ValidityFits};
ghost use Rattle.lower_flat_arrays.specs.Columns.{truth_column};
ghost use Rattle.lower_compute.specs.Runs.{RunFits, column_of_runs};

use crate::bits::{copy_bits, copy_validity};
use crate::runs::Run;
use lower::bitmap::Bitmap;
use lower::datatypes::DataType;
use lower_flat_arrays::BooleanArray;
use std::alloc::{AllocError, Global};

// The bits of each array.
fn values_of<'a>(
    alloc: Global,
    arrays: &[&'a BooleanArray],
) -> Result<Vec<Option<&'a Bitmap>>, AllocError>
    ensures { IfOk result
        (λ v. map option_copied v.items ≡ map (λ a. Some a.now.values) arrays.now) }
{
    let mut all = Vec::with_capacity(alloc, arrays.len())?;
    for array in arrays {
        all.push(Some(array.values()))?;
    }
    Ok(all)
}

// The validity of each array.
fn validities_of<'a>(
    alloc: Global,
    arrays: &[&'a BooleanArray],
) -> Result<Vec<Option<&'a Bitmap>>, AllocError>
    ensures bits { IfOk result
        (λ v. map option_copied v.items ≡ map (λ a. a.now.validity) arrays.now) }
    ensures fits { IfOk result
        (λ _. All (λ a. ValidityFits a.now.validity (length a.now.values)) arrays.now) }
{
    let mut all = Vec::with_capacity(alloc, arrays.len())?;
    for array in arrays {
        all.push(array.validity())?;
    }
    Ok(all)
}

/// Returns an array of the slots of each run, in memory of its own.
///
/// It fails only if an allocation fails.
pub(crate) fn copy_boolean(
    alloc: Global,
    data_type: &DataType,
    arrays: &[&BooleanArray],
    runs: &[Run],
) -> Result<BooleanArray, AllocError>
    requires lies { physical (type_view data_type.now) ≡ Boolean }
    requires fits { All (RunFits (map (λ a. length a.now.values) arrays.now)) runs.now }
    ensures { IfOk result (λ copy. truth_column copy
        ≡ column_of_runs (type_view data_type.now)
        (map (λ a. truth_column a.now) arrays.now) runs.now) }
{
    let values = values_of(alloc, arrays)?;
    let validities = validities_of(alloc, arrays)?;
    let items = copy_bits(alloc, &values, runs)?;
    let validity = copy_validity(alloc, &validities, runs)?;
    match BooleanArray::try_new(data_type.clone()?, items, validity) {
        Ok(array) => Ok(array),
        Err(_) => unreachable!(),
    }
}
