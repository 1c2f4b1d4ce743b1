//! Parts of columns, whose validity begins within a byte.

use crate::columns::{filters, joins, numbers, takes};
use lower::bitmap::Bitmap;
use lower::buffer::Buffer;
use lower::datatypes::DataType;
use lower_arrays::array::{AnyArray, PrimitiveArray};
use std::alloc::Global;
use std::test::Fail;

// The numbers 0 to 11, of which those at 0, 3, 6 and 9 are null.
fn twelve(alloc: Global) -> Result<AnyArray, Fail> {
    let all = (0..12i64).collect(alloc)?;
    let bytes = Buffer::new(Vec::from_slice(alloc, &[0b1011_0110, 0b0000_1101])?)?;
    let validity = Bitmap::try_new(bytes, 12)?;
    let array = PrimitiveArray::try_new(DataType::Int64, Buffer::new(all)?, Some(validity))?;
    Ok(AnyArray::from(array))
}

// `length` slots from `offset`.
fn part(array: AnyArray, offset: usize, length: usize) -> Result<AnyArray, Fail> {
    match array.try_sliced(offset, length) {
        Some(part) => Ok(part),
        None => Err(Fail::new("no part")),
    }
}

// The slots 3 to 10.
fn from_bit_three(alloc: Global) -> Result<AnyArray, Fail> {
    part(twelve(alloc)?, 3, 8)
}

const FROM_BIT_THREE: [Option<i64>; 8] = [
    None,
    Some(4),
    Some(5),
    None,
    Some(7),
    Some(8),
    None,
    Some(10),
];

#[test]
fn validity_begins_within_a_byte(rt: HostRuntime) -> Result<(), Fail> {
    let alloc = rt.alloc();
    let empty = numbers(alloc, &[])?;
    let expected = numbers(alloc, &FROM_BIT_THREE)?;
    assert!(rt; joins(alloc, from_bit_three(alloc)?, empty, expected)?);
    Ok(())
}

#[test]
fn slots_of_a_part_are_taken(rt: HostRuntime) -> Result<(), Fail> {
    let alloc = rt.alloc();
    let expected = numbers(alloc, &[Some(10), None, Some(8), None])?;
    assert!(rt; takes(alloc, from_bit_three(alloc)?, &[7, 6, 5, 0], expected)?);
    Ok(())
}

#[test]
fn slots_of_a_part_of_a_part_are_filtered(rt: HostRuntime) -> Result<(), Fail> {
    let alloc = rt.alloc();
    let inner = part(from_bit_three(alloc)?, 2, 4)?;
    let bits = [Some(true), Some(true), Some(false), Some(true)];
    let expected = numbers(alloc, &[Some(5), None, Some(8)])?;
    assert!(rt; filters(alloc, inner, &bits, expected)?);
    Ok(())
}
