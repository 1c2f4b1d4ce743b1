//! A push that was refused memory is made again.
//!
//! In an ordinary run no allocation fails. `make refused` runs the tests with each of their
//! allocations failing in turn: the refused push must leave the slots as they were.

use crate::bitmaps::{has_bits, has_validity};
use crate::offsets::are_offsets;
use lower_builders::binary::MutableBinaryArray;
use lower_builders::bitmap::MutableBitmap;
use lower_builders::boolean::MutableBooleanArray;
use lower_builders::error::BuildError;
use lower_builders::fixed_size_binary::MutableFixedSizeBinaryArray;
use lower_builders::offsets::Offsets;
use lower_builders::primitive::MutablePrimitiveArray;
use lower_builders::utf8::MutableUtf8Array;
use std::alloc::AllocError;
use std::test::Fail;

// Nine slots, of which the fifth and the last are null.
const SLOTS: [bool; 9] = [true, true, true, true, false, true, true, true, false];

const VALIDITY: &str = "111101110";

fn push_bit(bits: &mut MutableBitmap, bit: bool) -> Result<(), AllocError> {
    match bits.push(bit) {
        Err(_) => bits.push(bit),
        pushed => pushed,
    }
}

#[test]
fn bit_is_pushed_again(rt: HostRuntime) -> Result<(), Fail> {
    let mut bits = MutableBitmap::new(rt.alloc());
    for bit in SLOTS {
        push_bit(&mut bits, bit)?;
    }
    let bits = bits.finish()?;
    assert!(rt; has_bits(&bits, VALIDITY), "{bits:?}");
    Ok(())
}

fn push_number(array: &mut MutablePrimitiveArray<i64>, slot: bool) -> Result<(), AllocError> {
    let slot = if slot { Some(7) } else { None };
    match array.push(slot) {
        Err(_) => array.push(slot),
        pushed => pushed,
    }
}

#[test]
fn number_is_pushed_again(rt: HostRuntime) -> Result<(), Fail> {
    let mut array = MutablePrimitiveArray::new(rt.alloc());
    for slot in SLOTS {
        push_number(&mut array, slot)?;
    }
    let array = array.finish()?;
    assert!(rt; array.values().as_slice() == [7, 7, 7, 7, 0, 7, 7, 7, 0].as_slice());
    assert!(rt; has_validity(array.validity(), Some(VALIDITY)));
    Ok(())
}

fn push_boolean(array: &mut MutableBooleanArray, slot: bool) -> Result<(), AllocError> {
    let slot = if slot { Some(true) } else { None };
    match array.push(slot) {
        Err(_) => array.push(slot),
        pushed => pushed,
    }
}

#[test]
fn boolean_is_pushed_again(rt: HostRuntime) -> Result<(), Fail> {
    let mut array = MutableBooleanArray::new(rt.alloc());
    for slot in SLOTS {
        push_boolean(&mut array, slot)?;
    }
    let array = array.finish()?;
    assert!(rt; has_bits(array.values(), VALIDITY));
    assert!(rt; has_validity(array.validity(), Some(VALIDITY)));
    Ok(())
}

fn push_bytes(array: &mut MutableBinaryArray<i32>, slot: bool) -> Result<(), BuildError> {
    let slot: Option<&[u8]> = if slot { Some(b"ab") } else { None };
    match array.push(slot) {
        Err(_) => array.push(slot),
        pushed => pushed,
    }
}

#[test]
fn byte_string_is_pushed_again(rt: HostRuntime) -> Result<(), Fail> {
    let mut array = MutableBinaryArray::new(rt.alloc())?;
    for slot in SLOTS {
        push_bytes(&mut array, slot)?;
    }
    let array = array.finish()?;
    assert!(rt; are_offsets(array.offsets(), &[0, 2, 4, 6, 8, 8, 10, 12, 14, 14]));
    assert!(rt; array.values().as_slice() == b"ababababababab".as_slice());
    assert!(rt; has_validity(array.validity(), Some(VALIDITY)));
    Ok(())
}

fn push_text(array: &mut MutableUtf8Array<i64>, slot: bool) -> Result<(), BuildError> {
    let slot = if slot { Some("é") } else { None };
    match array.push(slot) {
        Err(_) => array.push(slot),
        pushed => pushed,
    }
}

#[test]
fn text_is_pushed_again(rt: HostRuntime) -> Result<(), Fail> {
    let mut array = MutableUtf8Array::new(rt.alloc())?;
    for slot in SLOTS {
        push_text(&mut array, slot)?;
    }
    let array = array.finish()?;
    assert!(rt; are_offsets(array.offsets(), &[0, 2, 4, 6, 8, 8, 10, 12, 14, 14]));
    assert!(rt; array.values().as_slice() == "ééééééé".as_bytes());
    assert!(rt; has_validity(array.validity(), Some(VALIDITY)));
    Ok(())
}

fn push_fixed(array: &mut MutableFixedSizeBinaryArray, slot: bool) -> Result<(), BuildError> {
    let slot: Option<&[u8]> = if slot { Some(b"ab") } else { None };
    match array.push(slot) {
        Err(_) => array.push(slot),
        pushed => pushed,
    }
}

#[test]
fn byte_string_of_fixed_size_is_pushed_again(rt: HostRuntime) -> Result<(), Fail> {
    let mut array = MutableFixedSizeBinaryArray::new(rt.alloc(), 2)?;
    for slot in SLOTS {
        push_fixed(&mut array, slot)?;
    }
    let array = array.finish()?;
    assert!(rt; array.values().as_slice() == b"abababab\0\0ababab\0\0".as_slice());
    assert!(rt; has_validity(array.validity(), Some(VALIDITY)));
    Ok(())
}

fn push_offset(offsets: &mut Offsets<i32>, len: usize) -> Result<(), BuildError> {
    match offsets.try_push_usize(len) {
        Err(_) => offsets.try_push_usize(len),
        pushed => pushed,
    }
}

#[test]
fn offset_is_pushed_again(rt: HostRuntime) -> Result<(), Fail> {
    let mut offsets = Offsets::new(rt.alloc())?;
    for len in [1, 2, 3, 4, 5, 6] {
        push_offset(&mut offsets, len)?;
    }
    assert!(rt; are_offsets(&offsets.finish()?, &[0, 1, 3, 6, 10, 15, 21]));
    Ok(())
}
