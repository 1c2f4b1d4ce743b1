//! Arrays of booleans that are built slot by slot.

use crate::bitmaps::{has_bits, has_validity};
use lower::datatypes::DataType;
use lower_arrays::array::BooleanArray;
use lower_builders::boolean::MutableBooleanArray;
use std::alloc::{AllocError, Global};
use std::test::Fail;

// Slots, with `-` for a null, the bits of their array, and its validity bitmap.
const CASES: [(&str, &str, Option<&str>); 7] = [
    ("", "", None),
    ("10", "10", None),
    ("-", "0", Some("0")),
    ("---", "000", Some("000")),
    ("1-0", "100", Some("101")),
    ("10110010-", "101100100", Some("111111110")),
    (
        "-11111111111111-",
        "0111111111111110",
        Some("0111111111111110"),
    ),
];

fn slot_of(mark: u8) -> Option<bool> {
    match mark {
        b'1' => Some(true),
        b'0' => Some(false),
        _ => None,
    }
}

fn pushed(alloc: Global, slots: &str) -> Result<MutableBooleanArray, AllocError> {
    let mut array = MutableBooleanArray::new(alloc);
    for mark in slots.as_bytes() {
        array.push(slot_of(*mark))?;
    }
    Ok(array)
}

// Whether an array has these bits and this validity bitmap.
fn is_built(array: &BooleanArray, bits: &str, validity: Option<&str>) -> bool {
    has_bits(array.values(), bits)
        && has_validity(array.validity(), validity)
        && *array.data_type() == DataType::Boolean
}

#[test]
fn booleans_are_pushed(rt: HostRuntime) -> Result<(), Fail> {
    for (slots, bits, validity) in CASES {
        let array = pushed(rt.alloc(), slots)?;
        assert_eq!(rt; array.len(), slots.len());
        let array = array.finish()?;
        assert!(rt; is_built(&array, bits, validity), "{slots}: {array:?}");
    }
    Ok(())
}

// Booleans and a null, between which memory is reserved.
fn reserved(alloc: Global) -> Result<MutableBooleanArray, AllocError> {
    let mut array = MutableBooleanArray::with_capacity(alloc, 9)?;
    array.push(Some(true))?;
    array.reserve(9)?;
    array.push_null()?;
    Ok(array)
}

#[test]
fn reserved_memory_has_no_booleans(rt: HostRuntime) -> Result<(), Fail> {
    let array = reserved(rt.alloc())?;
    assert_eq!(rt; array.len(), 2);
    assert!(rt; is_built(&array.finish()?, "10", Some("10")));
    Ok(())
}

#[test]
fn slices_of_booleans_are_copied(rt: HostRuntime) -> Result<(), Fail> {
    let alloc = rt.alloc();
    let array = MutableBooleanArray::from_slice(alloc, &[true, false, true])?.finish()?;
    assert!(rt; is_built(&array, "101", None));
    let slots = [Some(true), None, Some(false)];
    let array = MutableBooleanArray::from_options(alloc, &slots)?.finish()?;
    assert!(rt; is_built(&array, "100", Some("101")));
    Ok(())
}
