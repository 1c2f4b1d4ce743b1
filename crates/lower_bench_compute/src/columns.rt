//! What tests of `filter`, `take` and `concatenate` share.

use lower::buffer::Buffer;
use lower::datatypes::{DataType, Field};
use lower::offset::OffsetsBuffer;
use lower_arrays::array::{AnyArray, BooleanArray};
use lower_builders::boolean::MutableBooleanArray;
use lower_builders::primitive::MutablePrimitiveArray;
use lower_builders::utf8::MutableUtf8Array;
use lower_compute::concatenate::concatenate;
use lower_compute::filter::filter;
use lower_compute::take::take;
use std::alloc::{AllocError, Global};
use std::test::Fail;

/// A column of numbers.
pub fn numbers(alloc: Global, slots: &[Option<i64>]) -> Result<AnyArray, AllocError> {
    let array = MutablePrimitiveArray::<i64>::from_options(alloc, slots)?;
    Ok(AnyArray::from(array.finish()?))
}

/// A column of texts.
pub fn texts(alloc: Global, slots: &[Option<&str>]) -> Result<AnyArray, Fail> {
    let array = MutableUtf8Array::<i32>::from_options(alloc, slots)?;
    Ok(AnyArray::from(array.finish()?))
}

/// A mask.
pub fn mask(alloc: Global, slots: &[Option<bool>]) -> Result<BooleanArray, AllocError> {
    MutableBooleanArray::from_options(alloc, slots)?.finish()
}

/// A field of this name and type that may be null.
pub fn field(alloc: Global, name: &str, data_type: DataType) -> Result<Field, AllocError> {
    Ok(Field::new(name.to_string(alloc)?, data_type, true))
}

/// Offsets.
pub fn offsets(alloc: Global, offsets: &[i32]) -> Result<OffsetsBuffer<i32>, Fail> {
    let offsets = Buffer::new(Vec::from_slice(alloc, offsets)?)?;
    Ok(OffsetsBuffer::try_new(offsets)?)
}

/// Whether the slots at these indices are those expected.
pub fn takes(
    alloc: Global,
    array: AnyArray,
    indices: &[usize],
    expected: AnyArray,
) -> Result<bool, Fail> {
    Ok(take(alloc, &array, indices)? == expected)
}

/// Whether the slots at which a mask is true are those expected.
pub fn filters(
    alloc: Global,
    array: AnyArray,
    slots: &[Option<bool>],
    expected: AnyArray,
) -> Result<bool, Fail> {
    let mask = mask(alloc, slots)?;
    Ok(filter(alloc, &array, &mask)? == expected)
}

/// Whether the slots of one column and then of another are those expected.
pub fn joins(
    alloc: Global,
    first: AnyArray,
    other: AnyArray,
    expected: AnyArray,
) -> Result<bool, Fail> {
    Ok(concatenate(alloc, &[&first, &other])? == expected)
}
