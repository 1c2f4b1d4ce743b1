//! Arrays of numbers whose numbers or validity are replaced.

use crate::bitmaps::has_validity;
use lower::bitmap::Bitmap;
use lower::buffer::Buffer;
use lower::datatypes::DataType;
use lower_arrays::array::PrimitiveArray;
use lower_builders::bitmap::MutableBitmap;
use std::alloc::{AllocError, Global};
use std::test::Fail;

// The dates 1, null and 3.
fn dates(alloc: Global) -> Result<PrimitiveArray<i32>, Fail> {
    let values = numbers(alloc, &[1, 2, 3])?;
    let validity = bits(alloc, &[true, false, true])?;
    Ok(PrimitiveArray::try_new(DataType::Date32, values, Some(validity))?)
}

fn numbers(alloc: Global, numbers: &[i32]) -> Result<Buffer<i32>, AllocError> {
    Buffer::new(Vec::from_slice(alloc, numbers)?)
}

fn bits(alloc: Global, bits: &[bool]) -> Result<Bitmap, AllocError> {
    MutableBitmap::from_slice(alloc, bits)?.finish()
}

// Whether an array has the dates 7, null and 9.
fn has_these(array: &PrimitiveArray<i32>) -> bool {
    array.values().as_slice() == [7, 8, 9].as_slice()
        && has_validity(array.validity(), Some("101"))
        && *array.data_type() == DataType::Date32
}

#[test]
fn numbers_are_replaced(rt: HostRuntime) -> Result<(), Fail> {
    let array = dates(rt.alloc())?.with_values(numbers(rt.alloc(), &[7, 8, 9])?);
    assert!(rt; array.is_some_and(|array| has_these(&array)));
    Ok(())
}

#[test]
fn other_counts_of_numbers_are_refused(rt: HostRuntime) -> Result<(), Fail> {
    let few = numbers(rt.alloc(), &[7, 8])?;
    assert!(rt; dates(rt.alloc())?.with_values(few).is_none());
    let many = numbers(rt.alloc(), &[7, 8, 9, 10])?;
    assert!(rt; dates(rt.alloc())?.with_values(many).is_none());
    Ok(())
}

#[test]
fn validity_is_replaced(rt: HostRuntime) -> Result<(), Fail> {
    let array = dates(rt.alloc())?.with_validity(None);
    assert!(rt; array.is_some_and(|array| array.null_count() == 0));
    let other = bits(rt.alloc(), &[false, true, false])?;
    let array = dates(rt.alloc())?.with_validity(Some(other));
    assert!(rt; array.is_some_and(|array| has_validity(array.validity(), Some("010"))));
    let short = bits(rt.alloc(), &[true, true])?;
    assert!(rt; dates(rt.alloc())?.with_validity(Some(short)).is_none());
    Ok(())
}
