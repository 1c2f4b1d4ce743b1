//! Columns of lists.

use crate::columns::{field, filters, numbers, offsets, takes};
use lower::bitmap::Bitmap;
use lower::buffer::Buffer;
use lower::datatypes::{DataType, Field};
use lower_arrays::array::{AnyArray, FixedSizeListArray, ListArray, ListOffsets};
use std::alloc::{AllocError, Global};
use std::test::Fail;

fn item(alloc: Global) -> Result<Box<Field>, AllocError> {
    let field = field(alloc, "item", DataType::Int64)?;
    Ok(Box::new(alloc, field)?)
}

// The first `length` bits of a byte.
fn bits(alloc: Global, byte: u8, length: usize) -> Result<Option<Bitmap>, Fail> {
    let bytes = Buffer::new(Vec::from_slice(alloc, &[byte])?)?;
    Ok(Some(Bitmap::try_new(bytes, length)?))
}

fn list(
    data_type: DataType,
    ends: ListOffsets,
    child: Box<AnyArray>,
    validity: Option<Bitmap>,
) -> Result<AnyArray, Fail> {
    Ok(AnyArray::from(ListArray::try_new(data_type, ends, child, validity)?))
}

// Lists of these numbers between these offsets, valid where the bits of the byte are set.
fn lists(alloc: Global, slots: &[Option<i64>], ends: &[i32], byte: u8) -> Result<AnyArray, Fail> {
    let validity = bits(alloc, byte, ends.len().saturating_sub(1))?;
    let ends = ListOffsets::Small(offsets(alloc, ends)?);
    let child = Box::new(alloc, numbers(alloc, slots)?)?;
    list(DataType::List(item(alloc)?), ends, child, validity)
}

// The lists [1, null], null with the slots 3 and 4 behind it, and [5]. No list has 0 and 6.
fn null_with_slots(alloc: Global) -> Result<AnyArray, Fail> {
    let slots = [Some(0), Some(1), None, Some(3), Some(4), Some(5), Some(6)];
    lists(alloc, &slots, &[1, 3, 5, 6], 0b101)
}

#[test]
fn lists_are_taken(rt: HostRuntime) -> Result<(), Fail> {
    let alloc = rt.alloc();
    let slots = [Some(5), Some(1), None, Some(1), None];
    let expected = lists(alloc, &slots, &[0, 1, 1, 3, 5], 0b1101)?;
    assert!(rt; takes(alloc, null_with_slots(alloc)?, &[2, 1, 0, 0], expected)?);
    Ok(())
}

#[test]
fn lists_are_filtered(rt: HostRuntime) -> Result<(), Fail> {
    let alloc = rt.alloc();
    let bits = [Some(false), Some(true), Some(true)];
    let expected = lists(alloc, &[Some(5)], &[0, 0, 1], 0b10)?;
    assert!(rt; filters(alloc, null_with_slots(alloc)?, &bits, expected)?);
    Ok(())
}

// Lists of two numbers each.
fn pairs(alloc: Global, slots: &[Option<i64>]) -> Result<AnyArray, Fail> {
    let child = Box::new(alloc, numbers(alloc, slots)?)?;
    let data_type = DataType::FixedSizeList(item(alloc)?, 2);
    Ok(AnyArray::from(FixedSizeListArray::try_new(data_type, child, None)?))
}

#[test]
fn lists_of_one_length_are_taken(rt: HostRuntime) -> Result<(), Fail> {
    let alloc = rt.alloc();
    let slots = [Some(1), Some(2), None, Some(4), Some(5), Some(6)];
    let array = pairs(alloc, &slots)?;
    let slots = [Some(5), Some(6), None, Some(4), None, Some(4)];
    assert!(rt; takes(alloc, array, &[2, 1, 1], pairs(alloc, &slots)?)?);
    Ok(())
}
