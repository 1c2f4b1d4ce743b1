//! Each slot of an array compared with a value. A null slot stays null.

use lower_aggregate::comparison::{binary, boolean, primitive, utf8};
use lower_arrays::array::{BinaryArray, BooleanArray, PrimitiveArray, Utf8Array};
use lower_builders::binary::MutableBinaryArray;
use lower_builders::boolean::MutableBooleanArray;
use lower_builders::primitive::MutablePrimitiveArray;
use lower_builders::utf8::MutableUtf8Array;
use std::alloc::{AllocError, Global};
use std::test::Fail;

// Whether a comparison gave these slots, with `-` for a null.
fn gives(compared: Result<BooleanArray, AllocError>, slots: &str) -> Result<bool, AllocError> {
    Ok(has(&compared?, slots))
}

fn has(array: &BooleanArray, slots: &str) -> bool {
    if array.len() != slots.len() {
        return false;
    }
    for (slot, mark) in array.iter().zip(slots.as_bytes()) {
        if slot != slot_of(*mark) {
            return false;
        }
    }
    true
}

fn slot_of(mark: u8) -> Option<bool> {
    match mark {
        b'1' => Some(true),
        b'0' => Some(false),
        _ => None,
    }
}

fn numbers(alloc: Global) -> Result<PrimitiveArray<i32>, AllocError> {
    let slots = [Some(-1), Some(0), None, Some(7), Some(0)];
    MutablePrimitiveArray::from_options(alloc, &slots)?.finish()
}

#[test]
fn numbers_are_compared(rt: HostRuntime) -> Result<(), Fail> {
    let alloc = rt.alloc();
    let array = numbers(alloc)?;
    assert!(rt; gives(primitive::eq_scalar(alloc, &array, 0), "01-01")?);
    assert!(rt; gives(primitive::neq_scalar(alloc, &array, 0), "10-10")?);
    assert!(rt; gives(primitive::lt_scalar(alloc, &array, 0), "10-00")?);
    assert!(rt; gives(primitive::lt_eq_scalar(alloc, &array, 0), "11-01")?);
    assert!(rt; gives(primitive::gt_scalar(alloc, &array, 0), "00-10")?);
    assert!(rt; gives(primitive::gt_eq_scalar(alloc, &array, 0), "01-11")?);
    Ok(())
}

#[test]
fn numbers_above_the_signed_range_are_compared(rt: HostRuntime) -> Result<(), Fail> {
    let alloc = rt.alloc();
    let array = MutablePrimitiveArray::<u8>::from_slice(alloc, &[0, 127, 128, 255])?.finish()?;
    assert!(rt; gives(primitive::lt_scalar(alloc, &array, 128), "1100")?);
    assert!(rt; gives(primitive::gt_eq_scalar(alloc, &array, 255), "0001")?);
    Ok(())
}

fn booleans(alloc: Global) -> Result<BooleanArray, AllocError> {
    MutableBooleanArray::from_options(alloc, &[Some(true), Some(false), None])?.finish()
}

#[test]
fn booleans_are_compared(rt: HostRuntime) -> Result<(), Fail> {
    let alloc = rt.alloc();
    let array = booleans(alloc)?;
    assert!(rt; gives(boolean::eq_scalar(alloc, &array, true), "10-")?);
    assert!(rt; gives(boolean::neq_scalar(alloc, &array, true), "01-")?);
    assert!(rt; gives(boolean::lt_scalar(alloc, &array, true), "01-")?);
    assert!(rt; gives(boolean::lt_eq_scalar(alloc, &array, false), "01-")?);
    assert!(rt; gives(boolean::gt_scalar(alloc, &array, false), "10-")?);
    assert!(rt; gives(boolean::gt_eq_scalar(alloc, &array, true), "10-")?);
    Ok(())
}

// The first byte of "é" is 0xC3.
fn texts(alloc: Global) -> Result<Utf8Array<i32>, Fail> {
    let slots = [Some("b"), Some(""), None, Some("ab"), Some("é"), Some("ba")];
    Ok(MutableUtf8Array::from_options(alloc, &slots)?.finish()?)
}

#[test]
fn texts_are_compared(rt: HostRuntime) -> Result<(), Fail> {
    let alloc = rt.alloc();
    let array = texts(alloc)?;
    assert!(rt; gives(utf8::eq_scalar(alloc, &array, "b"), "10-000")?);
    assert!(rt; gives(utf8::neq_scalar(alloc, &array, "b"), "01-111")?);
    assert!(rt; gives(utf8::lt_scalar(alloc, &array, "b"), "01-100")?);
    assert!(rt; gives(utf8::lt_eq_scalar(alloc, &array, "b"), "11-100")?);
    assert!(rt; gives(utf8::gt_scalar(alloc, &array, "b"), "00-011")?);
    assert!(rt; gives(utf8::gt_eq_scalar(alloc, &array, "b"), "10-011")?);
    Ok(())
}

fn bytes(alloc: Global) -> Result<BinaryArray<i64>, Fail> {
    let slots: [Option<&[u8]>; 5] = [
        Some(&[0x80]),
        Some(&[]),
        None,
        Some(&[0x7F, 0xFF]),
        Some(&[0x80, 0]),
    ];
    Ok(MutableBinaryArray::from_options(alloc, &slots)?.finish()?)
}

#[test]
fn byte_strings_are_compared(rt: HostRuntime) -> Result<(), Fail> {
    let alloc = rt.alloc();
    let array = bytes(alloc)?;
    assert!(rt; gives(binary::eq_scalar(alloc, &array, &[0x80]), "10-00")?);
    assert!(rt; gives(binary::neq_scalar(alloc, &array, &[0x80]), "01-11")?);
    assert!(rt; gives(binary::lt_scalar(alloc, &array, &[0x80]), "01-10")?);
    assert!(rt; gives(binary::lt_eq_scalar(alloc, &array, &[0x80]), "11-10")?);
    assert!(rt; gives(binary::gt_scalar(alloc, &array, &[0x80]), "00-01")?);
    assert!(rt; gives(binary::gt_eq_scalar(alloc, &array, &[0x80]), "10-01")?);
    Ok(())
}

#[test]
fn no_slots_give_no_results(rt: HostRuntime) -> Result<(), Fail> {
    let alloc = rt.alloc();
    let numbers = MutablePrimitiveArray::<i64>::new(alloc).finish()?;
    assert!(rt; gives(primitive::eq_scalar(alloc, &numbers, 0), "")?);
    Ok(())
}
