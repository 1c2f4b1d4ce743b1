//! The numbers of slots at indices, one by one.
//!
//! A run for each of many scattered indices would cost more than the copy.
ghost use Rattle.std.specs.Prelude.{◌≡◌, ◌+◌, ◌∷◌, [], ◌<◌, map, get_or, length, false, IfOk};
ghost use Rattle.std.specs.List.{All};
ghost use Rattle.std.specs.Option.{option_copied};
ghost use Rattle.lower_flat_arrays.specs.Columns.{number_column};
ghost use Rattle.lower_flat_arrays.specs.Validities.{ValidityHolds};
ghost use Rattle.lower_compute.specs.Runs.{single, items_of_runs, column_of_runs, IsValidityOf};
ghost use Rattle.lower_arrays.specs.Layouts.{len_of};
ghost use Rattle.lower_arrays.specs.AnyLayouts.{any_primitive_layout};
ghost use Rattle.lower_compute.specs.Copies.{IsCopy};

use lower::bitmap::Bitmap;
use lower::buffer::Buffer;
use lower_arrays::array::{AnyPrimitive, Numeric, PrimitiveArray};
use lower_builders::bitmap::MutableBitmap;
use std::alloc::{AllocError, Global};

// The numbers at these indices.
fn values_at<T: Numeric>(
    alloc: Global,
    values: &[T],
    indices: &[usize],
) -> Result<Vec<T>, AllocError>
    requires { All (λ i. i < length values.now) indices.now }
    ensures { IfOk result
        (λ v. v.items ≡ items_of_runs (values.now ∷ []) (map single indices.now)) }
{
    let Some(first) = indices.first() else {
        return Ok(Vec::new(alloc));
    };
    let mut out = vec![in alloc; values[*first]; indices.len()]?;
    for place in 0..indices.len() {
        out[place] = values[indices[place]];
    }
    Ok(out)
}

// The bits at these indices.
fn bits_at(alloc: Global, bits: &Bitmap, indices: &[usize]) -> Result<Bitmap, AllocError>
    requires { All (λ i. i < length bits.now) indices.now }
    ensures { IfOk result (λ out. out ≡ map (λ i. get_or bits.now i false) indices.now) }
{
    let mut out = MutableBitmap::with_capacity(alloc, indices.len())?;
    for index in indices {
        out.push(bits.get_bit(*index))?;
    }
    out.finish()
}

// The validity of the slots at these indices.
fn validity_at(
    alloc: Global,
    validity: Option<&Bitmap>,
    indices: &[usize],
) -> Result<Option<Bitmap>, AllocError>
    requires { All (λ i. ValidityHolds (option_copied validity) (i + 1)) indices.now }
    ensures { IfOk result
        (IsValidityOf (option_copied validity.entry ∷ []) (map single indices.now)) }
{
    match validity {
        None => Ok(None),
        Some(bits) => Ok(Some(bits_at(alloc, bits, indices)?)),
    }
}

// The slots at these indices, in memory of their own.
fn primitive_at<T: Numeric>(
    alloc: Global,
    array: &PrimitiveArray<T>,
    indices: &[usize],
) -> Result<PrimitiveArray<T>, AllocError>
    requires { All (λ i. i < length array.now.values) indices.now }
    ensures { IfOk result
        (λ copy. number_column T.number copy ≡ column_of_runs array.now.type
        (number_column T.number array.now ∷ []) (map single indices.now)) }
{
    let values = values_at(alloc, array.values().as_slice(), indices)?;
    let validity = validity_at(alloc, array.validity(), indices)?;
    let buffer = Buffer::new(values)?;
    match PrimitiveArray::try_new(array.data_type().clone()?, buffer, validity) {
        Ok(array) => Ok(array),
        Err(_) => unreachable!(),
    }
}

/// Returns an array of the numbers at these indices, in memory of its own.
pub(crate) fn numbers_at(
    alloc: Global,
    array: &AnyPrimitive,
    indices: &[usize],
) -> Result<AnyPrimitive, AllocError>
    requires { All (λ i. i < len_of (any_primitive_layout array.now)) indices.now }
    ensures { let l = any_primitive_layout array.now in IfOk result
        (λ copy. IsCopy l (l ∷ []) (map single indices.now) (any_primitive_layout copy)) }
{
    match array {
        AnyPrimitive::Int8(array) => {
            Ok(AnyPrimitive::Int8(primitive_at(alloc, array, indices)?))
        }
        AnyPrimitive::Int16(array) => {
            Ok(AnyPrimitive::Int16(primitive_at(alloc, array, indices)?))
        }
        AnyPrimitive::Int32(array) => {
            Ok(AnyPrimitive::Int32(primitive_at(alloc, array, indices)?))
        }
        AnyPrimitive::Int64(array) => {
            Ok(AnyPrimitive::Int64(primitive_at(alloc, array, indices)?))
        }
        AnyPrimitive::Int128(array) => {
            Ok(AnyPrimitive::Int128(primitive_at(alloc, array, indices)?))
        }
        AnyPrimitive::Int256(array) => {
            Ok(AnyPrimitive::Int256(primitive_at(alloc, array, indices)?))
        }
        AnyPrimitive::UInt8(array) => {
            Ok(AnyPrimitive::UInt8(primitive_at(alloc, array, indices)?))
        }
        AnyPrimitive::UInt16(array) => {
            Ok(AnyPrimitive::UInt16(primitive_at(alloc, array, indices)?))
        }
        AnyPrimitive::UInt32(array) => {
            Ok(AnyPrimitive::UInt32(primitive_at(alloc, array, indices)?))
        }
        AnyPrimitive::UInt64(array) => {
            Ok(AnyPrimitive::UInt64(primitive_at(alloc, array, indices)?))
        }
        AnyPrimitive::DaysMs(array) => {
            Ok(AnyPrimitive::DaysMs(primitive_at(alloc, array, indices)?))
        }
        AnyPrimitive::MonthDayNano(array) => {
            Ok(AnyPrimitive::MonthDayNano(primitive_at(alloc, array, indices)?))
        }
    }
}
