//! Arrays of byte strings of one length that are built slot by slot.

use crate::bitmaps::has_validity;
use lower::datatypes::DataType;
use lower_arrays::array::FixedSizeBinaryArray;
use lower_builders::error::BuildError;
use lower_builders::fixed_size_binary::MutableFixedSizeBinaryArray;
use std::alloc::Global;
use std::test::Fail;

// Slots of two bytes, the bytes of their array, and its validity bitmap.
#[derive(Clone, Copy)]
struct Case {
    slots: &'static [Option<&'static [u8]>],
    bytes: &'static [u8],
    validity: Option<&'static str>,
}

// The bytes of a null are 0.
const CASES: [Case; 5] = [
    Case {
        slots: &[],
        bytes: &[],
        validity: None,
    },
    Case {
        slots: &[Some(b"ab"), Some(b"cd")],
        bytes: b"abcd",
        validity: None,
    },
    Case {
        slots: &[None, None],
        bytes: &[0, 0, 0, 0],
        validity: Some("00"),
    },
    Case {
        slots: &[Some(b"ab"), None, Some(b"cd")],
        bytes: b"ab\0\0cd",
        validity: Some("101"),
    },
    Case {
        slots: &[
            Some(b"ab"),
            Some(b"ab"),
            Some(b"ab"),
            Some(b"ab"),
            Some(b"ab"),
            Some(b"ab"),
            Some(b"ab"),
            Some(b"ab"),
            None,
        ],
        bytes: b"abababababababab\0\0",
        validity: Some("111111110"),
    },
];

fn pushed(
    alloc: Global,
    slots: &[Option<&[u8]>],
) -> Result<MutableFixedSizeBinaryArray, BuildError> {
    let mut array = MutableFixedSizeBinaryArray::new(alloc, 2)?;
    for slot in slots {
        array.push(*slot)?;
    }
    Ok(array)
}

fn is_built(array: &FixedSizeBinaryArray, bytes: &[u8], validity: Option<&str>) -> bool {
    array.values().as_slice() == bytes
        && has_validity(array.validity(), validity)
        && *array.data_type() == DataType::FixedSizeBinary(2)
}

#[test]
fn slots_of_two_bytes_are_pushed(rt: HostRuntime) -> Result<(), Fail> {
    for case in CASES {
        let array = pushed(rt.alloc(), case.slots)?;
        assert!(rt; array.size() == 2 && array.len() == case.slots.len());
        let array = array.finish()?;
        assert!(rt; is_built(&array, case.bytes, case.validity), "{array:?}");
    }
    Ok(())
}

#[test]
fn slots_have_at_least_a_byte(rt: HostRuntime) -> Result<(), Fail> {
    let made = MutableFixedSizeBinaryArray::new(rt.alloc(), 0);
    assert!(rt; matches!(made, Err(BuildError::Length)));
    Ok(())
}

// Whether a value is refused for its length.
fn is_refused(array: &mut MutableFixedSizeBinaryArray, value: &[u8]) -> Result<bool, BuildError> {
    match array.push(Some(value)) {
        Err(BuildError::Memory) => Err(BuildError::Memory),
        Err(BuildError::Length) => Ok(true),
        _ => Ok(false),
    }
}

// The array of two values, between which values of other lengths are refused.
fn refusing(alloc: Global) -> Result<Option<FixedSizeBinaryArray>, BuildError> {
    let mut array = pushed(alloc, &[Some(b"ab")])?;
    let empty = is_refused(&mut array, b"")?;
    let short = is_refused(&mut array, b"c")?;
    let long = is_refused(&mut array, b"cde")?;
    if !empty || !short || !long || array.len() != 1 {
        return Ok(None);
    }
    array.reserve(99)?;
    array.push_null()?;
    array.push(Some(b"fg"))?;
    Ok(Some(array.finish()?))
}

#[test]
fn value_of_another_length_is_refused(rt: HostRuntime) -> Result<(), Fail> {
    let Some(array) = refusing(rt.alloc())? else {
        assert!(rt; false, "a value of another length is pushed");
        return Ok(());
    };
    assert!(rt; is_built(&array, b"ab\0\0fg", Some("101")), "{array:?}");
    Ok(())
}

#[test]
fn reserved_memory_has_no_slots(rt: HostRuntime) -> Result<(), Fail> {
    let mut array = MutableFixedSizeBinaryArray::with_capacity(rt.alloc(), 2, 9)?;
    assert!(rt; array.size() == 2 && array.len() == 0);
    array.push(Some(b"ab"))?;
    let array = array.finish()?;
    assert!(rt; is_built(&array, b"ab", None), "{array:?}");
    let made = MutableFixedSizeBinaryArray::with_capacity(rt.alloc(), 0, 9);
    assert!(rt; matches!(made, Err(BuildError::Length)));
    Ok(())
}
