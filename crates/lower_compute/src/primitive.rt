//! Copies of arrays of numbers, run by run.
ghost use Rattle.std.specs.Prelude.{◌≡◌, map, length, IfOk};
ghost use Rattle.std.specs.List.{All};
ghost use Rattle.std.specs.Option.{option_copied};
ghost use Rattle.lower.specs.Physical.{physical};
ghost use Rattle.lower.specs.TypeViews.{type_view};
ghost use Rattle.lower.specs.declared.datatypes.physical_type.PhysicalType.TheVariants.{Primitive};
ghost use Rattle.lower_flat_arrays.specs.Validities.{ValidityFits};
ghost use Rattle.lower_flat_arrays.specs.Columns.{number_column};
ghost use Rattle.lower_compute.specs.Runs.{RunFits, column_of_runs};

use crate::bits::copy_validity;
use crate::items::copy_items;
use crate::runs::Run;
use lower::bitmap::Bitmap;
use lower::buffer::Buffer;
use lower::datatypes::DataType;
use lower::types::NativeType;
use lower_flat_arrays::PrimitiveArray;
use std::alloc::{AllocError, Global};

// The numbers of each array.
fn values_of<'a, T: NativeType>(
    alloc: Global,
    arrays: &[&'a PrimitiveArray<T>],
) -> Result<Vec<&'a [T]>, AllocError>
    ensures { IfOk result
        (λ v. map (λ xs. xs.now) v.items ≡ map (λ a. a.now.values) arrays.now) }
{
    let mut all = Vec::with_capacity(alloc, arrays.len())?;
    for array in arrays {
        all.push(array.values().as_slice())?;
    }
    Ok(all)
}

// The validity of each array.
fn validities_of<'a, T: NativeType>(
    alloc: Global,
    arrays: &[&'a PrimitiveArray<T>],
) -> Result<Vec<Option<&'a Bitmap>>, AllocError>
    ensures bits { IfOk result
        (λ v. map option_copied v.items ≡ map (λ a. a.now.validity) arrays.now) }
    ensures fits { IfOk result
        (λ _. All (λ a. ValidityFits a.now.validity (length a.now.values)) arrays.now) }
{
    let mut all = Vec::with_capacity(alloc, arrays.len())?;
    for array in arrays {
        all.push(array.validity())?;
    }
    Ok(all)
}

/// Returns an array of the slots of each run, in memory of its own.
///
/// It fails only if an allocation fails.
pub(crate) fn copy_primitive<T: NativeType>(
    alloc: Global,
    data_type: &DataType,
    arrays: &[&PrimitiveArray<T>],
    runs: &[Run],
) -> Result<PrimitiveArray<T>, AllocError>
    requires lies { physical (type_view data_type.now) ≡ Primitive T.primitive }
    requires fits { All (RunFits (map (λ a. length a.now.values) arrays.now)) runs.now }
    ensures { IfOk result (λ copy. number_column T.number copy
        ≡ column_of_runs (type_view data_type.now)
        (map (λ a. number_column T.number a.now) arrays.now) runs.now) }
{
    let values = values_of(alloc, arrays)?;
    let validities = validities_of(alloc, arrays)?;
    let items = copy_items(alloc, &values, runs)?;
    let validity = copy_validity(alloc, &validities, runs)?;
    let buffer = Buffer::new(items)?;
    match PrimitiveArray::try_new(data_type.clone()?, buffer, validity) {
        Ok(array) => Ok(array),
        Err(_) => unreachable!(),
    }
}
