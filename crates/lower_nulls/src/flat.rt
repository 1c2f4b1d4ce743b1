//! Null slots of types without children.
ghost use Rattle.std.specs.Prelude.{◌≡◌, ◌<◌, IfOk, MatchResult};
ghost use Rattle.lower.specs.TypeTrees.{plain, fixed_binary};
ghost use Rattle.lower.specs.TypeViews.{type_view};
ghost use Rattle.lower.specs.Physical.{physical, logical};
ghost use Rattle.lower.specs.declared.datatypes.physical_type.PhysicalType.TheVariants.{Null, Boolean};
ghost use Rattle.lower_flat_arrays.specs.Binaries.{bytes_with};
ghost use Rattle.lower_flat_arrays.specs.Texts.{texts_with};
ghost use Rattle.lower_arrays.specs.AnyLayouts.{layout_of};
ghost use Rattle.lower_nulls.specs.Nulls.{AreNulls, NoNulls};
ghost use Rattle.lower_nulls.specs.Storage.{IsSimple, IsSimpleLayout, AreNullSpans};

use crate::error::NullError;
use crate::numbers::null_primitive;
use crate::parts::{repeated, unset_bits, zero_offsets};
use lower::buffer::Buffer;
use lower::datatypes::{DataType, PhysicalType};
use lower::offset::Offset;
use lower_arrays::array::AnyArray;
use lower_flat_arrays::{BinaryArray, BooleanArray, FixedSizeBinaryArray, NullArray, Utf8Array};
use std::alloc::{AllocError, Global};

// Null slots without memory.
fn null_nulls(data_type: DataType, length: usize) -> Result<AnyArray, NullError>
    requires { physical (type_view data_type) ≡ Null }
    ensures { MatchResult result
        (λ a. AreNulls (type_view data_type) length (layout_of a))
        (NoNulls (type_view data_type) length) }
{
    match NullArray::try_new(data_type, length) {
        Ok(array) => Ok(AnyArray::from(array)),
        Err(_) => unreachable!(),
    }
}

// Null truth values.
fn null_booleans(alloc: Global, data_type: DataType, length: usize) -> Result<AnyArray, NullError>
    requires { physical (type_view data_type) ≡ Boolean }
    ensures { MatchResult result
        (λ a. AreNulls (type_view data_type) length (layout_of a))
        (NoNulls (type_view data_type) length) }
{
    let values = unset_bits(alloc, length)?;
    let validity = unset_bits(alloc, length)?;
    match BooleanArray::try_new(data_type, values, Some(validity)) {
        Ok(array) => Ok(AnyArray::from(array)),
        Err(_) => unreachable!(),
    }
}

// Null byte strings of any length.
fn null_binary<O: Offset>(
    alloc: Global,
    data_type: DataType,
    length: usize,
) -> Result<BinaryArray<O>, AllocError>
    requires lies { physical (type_view data_type) ≡ bytes_with O.primitive }
    requires limit { 0 < O.limit }
    ensures { IfOk result (AreNullSpans (type_view data_type) length) }
{
    let offsets = zero_offsets::<O>(alloc, length)?;
    let values = Buffer::new(Vec::new(alloc))?;
    let validity = unset_bits(alloc, length)?;
    match BinaryArray::try_new(data_type, offsets, values, Some(validity)) {
        Ok(array) => Ok(array),
        Err(_) => unreachable!(),
    }
}

// Null texts.
fn null_utf8<O: Offset>(
    alloc: Global,
    data_type: DataType,
    length: usize,
) -> Result<Utf8Array<O>, AllocError>
    requires lies { physical (type_view data_type) ≡ texts_with O.primitive }
    requires limit { 0 < O.limit }
    ensures { IfOk result (AreNullSpans (type_view data_type) length) }
{
    let offsets = zero_offsets::<O>(alloc, length)?;
    let values = Buffer::new(Vec::new(alloc))?;
    let validity = unset_bits(alloc, length)?;
    match Utf8Array::try_new(data_type, offsets, values, Some(validity)) {
        Ok(array) => Ok(array),
        Err(_) => unreachable!(),
    }
}

// Null byte strings of `size` bytes each.
pub(crate) fn null_fixed_size_binary(
    alloc: Global,
    size: usize,
    data_type: DataType,
    length: usize,
) -> Result<AnyArray, NullError>
    requires { logical (type_view data_type) ≡ plain (fixed_binary size) }
    ensures { MatchResult result
        (λ a. AreNulls (type_view data_type) length (layout_of a))
        (NoNulls (type_view data_type) length) }
{
    let Some(count) = length.checked_mul(size) else {
        return Err(NullError::Length);
    };
    let values = Buffer::new(repeated::<u8>(alloc, 0, count)?)?;
    let validity = unset_bits(alloc, length)?;
    let array = FixedSizeBinaryArray::try_new(data_type, values, Some(validity))?;
    Ok(AnyArray::from(array))
}

// Null slots of a type with this layout.
fn null_flat(
    alloc: Global,
    physical_type: PhysicalType,
    data_type: DataType,
    length: usize,
) -> Result<AnyArray, NullError>
    requires lies { physical (type_view data_type) ≡ physical_type }
    requires flat { IsSimpleLayout physical_type }
    ensures { MatchResult result
        (λ a. AreNulls (type_view data_type) length (layout_of a))
        (NoNulls (type_view data_type) length) }
{
    match physical_type {
        PhysicalType::Null => null_nulls(data_type, length),
        PhysicalType::Boolean => null_booleans(alloc, data_type, length),
        PhysicalType::Primitive(number) => {
            Ok(AnyArray::from(null_primitive(alloc, number, data_type, length)?))
        }
        PhysicalType::Binary => {
            Ok(AnyArray::from(null_binary::<i32>(alloc, data_type, length)?))
        }
        PhysicalType::LargeBinary => {
            Ok(AnyArray::from(null_binary::<i64>(alloc, data_type, length)?))
        }
        PhysicalType::Utf8 => Ok(AnyArray::from(null_utf8::<i32>(alloc, data_type, length)?)),
        PhysicalType::LargeUtf8 => {
            Ok(AnyArray::from(null_utf8::<i64>(alloc, data_type, length)?))
        }
        PhysicalType::FixedSizeBinary
        | PhysicalType::List
        | PhysicalType::LargeList
        | PhysicalType::FixedSizeList
        | PhysicalType::Struct
        | PhysicalType::Union
        | PhysicalType::Map
        | PhysicalType::Dictionary(_) => unreachable!(),
    }
}

// Null slots of a type without children that is stored as `storage`.
pub(crate) fn null_plain(
    alloc: Global,
    storage: &DataType,
    data_type: DataType,
    length: usize,
) -> Result<AnyArray, NullError>
    requires plain { IsSimple (type_view storage.now) }
    requires stored { logical (type_view data_type) ≡ logical (type_view storage.now) }
    ensures { MatchResult result
        (λ a. AreNulls (type_view data_type) length (layout_of a))
        (NoNulls (type_view data_type) length) }
{
    let physical_type = storage.to_physical_type();
    null_flat(alloc, physical_type, data_type, length)
}
