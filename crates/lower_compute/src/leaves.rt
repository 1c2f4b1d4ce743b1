//! Copies of arrays without children, among arrays of any kind.
ghost use Rattle.std.specs.Prelude.{◌≡◌, ◌^◌, ◌≤◌, length, map, IfOk, MatchOption, MatchResult};
ghost use Rattle.std.specs.List.{All};
ghost use Rattle.lower_types.specs.declared.PrimitiveType.TheVariants.{Int32, Int64};
ghost use Rattle.lower_arrays.specs.Flat.{null_layout, boolean_layout, fixed_layout, bytes_layout, texts_layout};
ghost use Rattle.lower_arrays.specs.Layouts.{level};
ghost use Rattle.lower_arrays.specs.Primitives.{primitive_layout, AreNumbersOf};
ghost use Rattle.lower_arrays.specs.AnyLayouts.{layout_of, any_primitive_layout};
ghost use Rattle.lower_compute.specs.Runs.{origins};
ghost use Rattle.lower_compute.specs.Copies.{AllHaveTypeOf, AreWithin, IsCopy, NoCopy};

use crate::binary::copy_binary;
use crate::boolean::copy_boolean;
use crate::error::ComputeError;
use crate::fixed_size_binary::copy_fixed_size_binary;
use crate::kinds::all_of;
use crate::primitive::copy_primitive;
use crate::runs::Run;
use crate::utf8::copy_utf8;
use lower_arrays::array::{
    AnyArray, AnyPrimitive, BinaryArray, BooleanArray, FixedSizeBinaryArray, NullArray, Numeric,
    PrimitiveArray, Utf8Array,
};
use std::alloc::{AllocError, Global};

// The number of slots of all runs, or `None` if it isn't a `usize`.
fn total_len(runs: &[Run]) -> Option<usize>
    ensures { MatchOption result (2 ^ 64 ≤ length (origins runs.now))
        (λ n. n ≡ length (origins runs.now)) }
{
    let mut total = 0usize;
    for run in runs {
        let Some(more) = total.checked_add(run.len) else {
            return None;
        };
        total = more;
    }
    Some(total)
}

/// Returns nulls, as many as the runs have slots.
pub(crate) fn copy_nulls(
    like: &NullArray,
    arrays: &[&AnyArray],
    runs: &[Run],
) -> Result<AnyArray, ComputeError>
    requires alike { AllHaveTypeOf (null_layout like.now) (map (λ a. layout_of a.now) arrays.now) }
    requires within { AreWithin (map (λ a. layout_of a.now) arrays.now) runs.now }
    ensures { let ls = map (λ a. layout_of a.now) arrays.now in MatchResult result
        (λ copy. IsCopy (null_layout like.now) ls runs.now (layout_of copy)) NoCopy }
{
    let Some(len) = total_len(runs) else {
        return Err(ComputeError::Overflow);
    };
    match NullArray::try_new(like.data_type().clone()?, len) {
        Ok(array) => Ok(AnyArray::Null(array)),
        Err(_) => unreachable!(),
    }
}

/// Returns the booleans of the runs.
pub(crate) fn copy_booleans(
    alloc: Global,
    like: &BooleanArray,
    arrays: &[&AnyArray],
    runs: &[Run],
) -> Result<AnyArray, ComputeError>
    requires alike { AllHaveTypeOf (boolean_layout like.now)
        (map (λ a. layout_of a.now) arrays.now) }
    requires within { AreWithin (map (λ a. layout_of a.now) arrays.now) runs.now }
    ensures { let ls = map (λ a. layout_of a.now) arrays.now in MatchResult result
        (λ copy. IsCopy (boolean_layout like.now) ls runs.now (layout_of copy)) NoCopy }
{
    let typed = all_of::<BooleanArray>(alloc, arrays)?;
    Ok(AnyArray::Boolean(copy_boolean(alloc, like.data_type(), &typed, runs)?))
}

/// Returns the byte strings of the runs.
pub(crate) fn copy_fixed_binaries(
    alloc: Global,
    like: &FixedSizeBinaryArray,
    arrays: &[&AnyArray],
    runs: &[Run],
) -> Result<AnyArray, ComputeError>
    requires alike { AllHaveTypeOf (fixed_layout like.now)
        (map (λ a. layout_of a.now) arrays.now) }
    requires within { AreWithin (map (λ a. layout_of a.now) arrays.now) runs.now }
    ensures { let ls = map (λ a. layout_of a.now) arrays.now in MatchResult result
        (λ copy. IsCopy (fixed_layout like.now) ls runs.now (layout_of copy)) NoCopy }
{
    let typed = all_of::<FixedSizeBinaryArray>(alloc, arrays)?;
    Ok(AnyArray::FixedSizeBinary(copy_fixed_size_binary(
        alloc,
        like.data_type(),
        like.size(),
        &typed,
        runs,
    )?))
}

/// Returns the byte strings of the runs.
pub(crate) fn copy_binaries(
    alloc: Global,
    like: &BinaryArray<i32>,
    arrays: &[&AnyArray],
    runs: &[Run],
) -> Result<AnyArray, ComputeError>
    requires alike { let ls = map (λ a. layout_of a.now) arrays.now in
        AllHaveTypeOf (bytes_layout Int32 like.now) ls }
    requires within { AreWithin (map (λ a. layout_of a.now) arrays.now) runs.now }
    ensures { let ls = map (λ a. layout_of a.now) arrays.now in MatchResult result
        (λ copy. IsCopy (bytes_layout Int32 like.now) ls runs.now (layout_of copy)) NoCopy }
{
    let typed = all_of::<BinaryArray<i32>>(alloc, arrays)?;
    Ok(AnyArray::Binary(copy_binary(alloc, like.data_type(), &typed, runs)?))
}

/// Returns the byte strings of the runs.
pub(crate) fn copy_large_binaries(
    alloc: Global,
    like: &BinaryArray<i64>,
    arrays: &[&AnyArray],
    runs: &[Run],
) -> Result<AnyArray, ComputeError>
    requires alike { let ls = map (λ a. layout_of a.now) arrays.now in
        AllHaveTypeOf (bytes_layout Int64 like.now) ls }
    requires within { AreWithin (map (λ a. layout_of a.now) arrays.now) runs.now }
    ensures { let ls = map (λ a. layout_of a.now) arrays.now in MatchResult result
        (λ copy. IsCopy (bytes_layout Int64 like.now) ls runs.now (layout_of copy)) NoCopy }
{
    let typed = all_of::<BinaryArray<i64>>(alloc, arrays)?;
    Ok(AnyArray::LargeBinary(copy_binary(alloc, like.data_type(), &typed, runs)?))
}

/// Returns the texts of the runs.
pub(crate) fn copy_texts(
    alloc: Global,
    like: &Utf8Array<i32>,
    arrays: &[&AnyArray],
    runs: &[Run],
) -> Result<AnyArray, ComputeError>
    requires alike { let ls = map (λ a. layout_of a.now) arrays.now in
        AllHaveTypeOf (texts_layout Int32 like.now) ls }
    requires within { AreWithin (map (λ a. layout_of a.now) arrays.now) runs.now }
    ensures { let ls = map (λ a. layout_of a.now) arrays.now in MatchResult result
        (λ copy. IsCopy (texts_layout Int32 like.now) ls runs.now (layout_of copy)) NoCopy }
{
    let typed = all_of::<Utf8Array<i32>>(alloc, arrays)?;
    Ok(AnyArray::Utf8(copy_utf8(alloc, like.data_type(), &typed, runs)?))
}

/// Returns the texts of the runs.
pub(crate) fn copy_large_texts(
    alloc: Global,
    like: &Utf8Array<i64>,
    arrays: &[&AnyArray],
    runs: &[Run],
) -> Result<AnyArray, ComputeError>
    requires alike { let ls = map (λ a. layout_of a.now) arrays.now in
        AllHaveTypeOf (texts_layout Int64 like.now) ls }
    requires within { AreWithin (map (λ a. layout_of a.now) arrays.now) runs.now }
    ensures { let ls = map (λ a. layout_of a.now) arrays.now in MatchResult result
        (λ copy. IsCopy (texts_layout Int64 like.now) ls runs.now (layout_of copy)) NoCopy }
{
    let typed = all_of::<Utf8Array<i64>>(alloc, arrays)?;
    Ok(AnyArray::LargeUtf8(copy_utf8(alloc, like.data_type(), &typed, runs)?))
}

// The arrays as arrays of these numbers.
fn numbers_of<'a, T: Numeric>(
    alloc: Global,
    arrays: &[&'a AnyArray],
) -> Result<Vec<&'a PrimitiveArray<T>>, AllocError>
    requires { All (λ l. AreNumbersOf T.primitive (level l).parts)
        (map (λ a. layout_of a.now) arrays.now) }
    ensures { IfOk result
        (λ v. map (λ a. primitive_layout T.primitive T.number a.now) v.items
        ≡ map (λ a. layout_of a.now) arrays.now) }
{
    let mut all = Vec::with_capacity(alloc, arrays.len())?;
    for any in arrays {
        let Some(array) = any.as_primitive::<T>() else {
            unreachable!();
        };
        all.push(array)?;
    }
    Ok(all)
}

// The numbers of the runs, of one type.
fn copy_numbers_of<'a, T: Numeric + 'a>(
    alloc: Global,
    like: &PrimitiveArray<T>,
    arrays: &[&'a AnyArray],
    runs: &[Run],
) -> Result<PrimitiveArray<T>, AllocError>
    requires alike { let ls = map (λ a. layout_of a.now) arrays.now in
        AllHaveTypeOf (primitive_layout T.primitive T.number like.now) ls }
    requires within { AreWithin (map (λ a. layout_of a.now) arrays.now) runs.now }
    ensures { let ls = map (λ a. layout_of a.now) arrays.now in IfOk result
        (λ copy. IsCopy (primitive_layout T.primitive T.number like.now) ls runs.now
        (primitive_layout T.primitive T.number copy)) }
{
    let typed = numbers_of::<T>(alloc, arrays)?;
    copy_primitive(alloc, like.data_type(), &typed, runs)
}

/// Returns the numbers of the runs.
pub(crate) fn copy_numbers(
    alloc: Global,
    like: &AnyPrimitive,
    arrays: &[&AnyArray],
    runs: &[Run],
) -> Result<AnyPrimitive, AllocError>
    requires alike { let ls = map (λ a. layout_of a.now) arrays.now in
        AllHaveTypeOf (any_primitive_layout like.now) ls }
    requires within { AreWithin (map (λ a. layout_of a.now) arrays.now) runs.now }
    ensures { let ls = map (λ a. layout_of a.now) arrays.now in IfOk result
        (λ copy. IsCopy (any_primitive_layout like.now) ls runs.now (any_primitive_layout copy)) }
{
    match like {
        AnyPrimitive::Int8(like) => Ok(AnyPrimitive::Int8(copy_numbers_of(
            alloc, like, arrays, runs,
        )?)),
        AnyPrimitive::Int16(like) => Ok(AnyPrimitive::Int16(copy_numbers_of(
            alloc, like, arrays, runs,
        )?)),
        AnyPrimitive::Int32(like) => Ok(AnyPrimitive::Int32(copy_numbers_of(
            alloc, like, arrays, runs,
        )?)),
        AnyPrimitive::Int64(like) => Ok(AnyPrimitive::Int64(copy_numbers_of(
            alloc, like, arrays, runs,
        )?)),
        AnyPrimitive::Int128(like) => Ok(AnyPrimitive::Int128(copy_numbers_of(
            alloc, like, arrays, runs,
        )?)),
        AnyPrimitive::Int256(like) => Ok(AnyPrimitive::Int256(copy_numbers_of(
            alloc, like, arrays, runs,
        )?)),
        AnyPrimitive::UInt8(like) => Ok(AnyPrimitive::UInt8(copy_numbers_of(
            alloc, like, arrays, runs,
        )?)),
        AnyPrimitive::UInt16(like) => Ok(AnyPrimitive::UInt16(copy_numbers_of(
            alloc, like, arrays, runs,
        )?)),
        AnyPrimitive::UInt32(like) => Ok(AnyPrimitive::UInt32(copy_numbers_of(
            alloc, like, arrays, runs,
        )?)),
        AnyPrimitive::UInt64(like) => Ok(AnyPrimitive::UInt64(copy_numbers_of(
            alloc, like, arrays, runs,
        )?)),
        AnyPrimitive::DaysMs(like) => Ok(AnyPrimitive::DaysMs(copy_numbers_of(
            alloc, like, arrays, runs,
        )?)),
        AnyPrimitive::MonthDayNano(like) => Ok(AnyPrimitive::MonthDayNano(copy_numbers_of(
            alloc, like, arrays, runs,
        )?)),
    }
}
