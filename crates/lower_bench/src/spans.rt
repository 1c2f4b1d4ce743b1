//! Arrays of byte strings and of texts that are built slot by slot.

use crate::bitmaps::has_validity;
use crate::offsets::are_offsets;
use lower::datatypes::DataType;
use lower::offset::Offset;
use lower_arrays::array::{BinaryArray, Utf8Array};
use lower_builders::binary::MutableBinaryArray;
use lower_builders::error::BuildError;
use lower_builders::utf8::MutableUtf8Array;
use std::alloc::Global;
use std::test::Fail;

// Slots, and the parts of their array.
#[derive(Clone, Copy)]
struct Case {
    slots: &'static [Option<&'static str>],
    offsets: &'static [usize],
    bytes: &'static str,
    validity: Option<&'static str>,
}

// A null has no bytes.
const CASES: [Case; 8] = [
    Case {
        slots: &[],
        offsets: &[0],
        bytes: "",
        validity: None,
    },
    Case {
        slots: &[Some("")],
        offsets: &[0, 0],
        bytes: "",
        validity: None,
    },
    Case {
        slots: &[None],
        offsets: &[0, 0],
        bytes: "",
        validity: Some("0"),
    },
    Case {
        slots: &[None, None],
        offsets: &[0, 0, 0],
        bytes: "",
        validity: Some("00"),
    },
    Case {
        slots: &[Some("a"), None, Some("bc"), Some("")],
        offsets: &[0, 1, 1, 3, 3],
        bytes: "abc",
        validity: Some("1011"),
    },
    // characters of two, three and four bytes
    Case {
        slots: &[Some("é"), Some("日本"), Some("🦀")],
        offsets: &[0, 2, 8, 12],
        bytes: "é日本🦀",
        validity: None,
    },
    Case {
        slots: &[
            Some("a"),
            Some("b"),
            Some("c"),
            Some("d"),
            Some("e"),
            Some("f"),
            Some("g"),
            Some("h"),
            None,
        ],
        offsets: &[0, 1, 2, 3, 4, 5, 6, 7, 8, 8],
        bytes: "abcdefgh",
        validity: Some("111111110"),
    },
    Case {
        slots: &[
            None,
            Some("b"),
            Some("c"),
            Some("d"),
            Some("e"),
            Some("f"),
            Some("g"),
            Some("h"),
            Some("i"),
            Some("j"),
            Some("k"),
            Some("l"),
            Some("m"),
            Some("n"),
            Some("o"),
            None,
        ],
        offsets: &[0, 0, 1, 2, 3, 4, 5, 6, 7, 8, 9, 10, 11, 12, 13, 14, 14],
        bytes: "bcdefghijklmno",
        validity: Some("0111111111111110"),
    },
];

// Whether an array of byte strings is that of a case.
fn is_binary<O: Offset>(array: &BinaryArray<O>, case: &Case) -> bool {
    are_offsets(array.offsets(), case.offsets)
        && array.values().as_slice() == case.bytes.as_bytes()
        && has_validity(array.validity(), case.validity)
}

fn push_bytes<O: Offset>(alloc: Global, case: &Case) -> Result<BinaryArray<O>, BuildError> {
    let mut array = MutableBinaryArray::new(alloc)?;
    for slot in case.slots {
        match slot {
            Some(text) => array.push(Some(text.as_bytes()))?,
            None => array.push(None)?,
        }
    }
    Ok(array.finish()?)
}

#[test]
fn byte_strings_are_pushed(rt: HostRuntime) -> Result<(), Fail> {
    for case in CASES {
        let array = push_bytes::<i32>(rt.alloc(), &case)?;
        assert!(rt; is_binary(&array, &case), "{array:?}");
        assert!(rt; *array.data_type() == DataType::Binary);
    }
    Ok(())
}

#[test]
fn byte_strings_have_offsets_of_64_bits(rt: HostRuntime) -> Result<(), Fail> {
    for case in CASES {
        let array = push_bytes::<i64>(rt.alloc(), &case)?;
        assert!(rt; is_binary(&array, &case), "{array:?}");
        assert!(rt; *array.data_type() == DataType::LargeBinary);
    }
    Ok(())
}

// Whether an array of texts is that of a case.
fn is_texts<O: Offset>(array: &Utf8Array<O>, case: &Case) -> bool {
    are_offsets(array.offsets(), case.offsets)
        && array.values().as_slice() == case.bytes.as_bytes()
        && has_validity(array.validity(), case.validity)
}

fn push_texts<O: Offset>(alloc: Global, case: &Case) -> Result<Utf8Array<O>, BuildError> {
    let mut array = MutableUtf8Array::new(alloc)?;
    for slot in case.slots {
        array.push(*slot)?;
    }
    Ok(array.finish()?)
}

#[test]
fn texts_are_pushed(rt: HostRuntime) -> Result<(), Fail> {
    for case in CASES {
        let array = push_texts::<i32>(rt.alloc(), &case)?;
        assert!(rt; is_texts(&array, &case), "{array:?}");
        assert!(rt; *array.data_type() == DataType::Utf8);
    }
    Ok(())
}

#[test]
fn texts_have_offsets_of_64_bits(rt: HostRuntime) -> Result<(), Fail> {
    for case in CASES {
        let array = push_texts::<i64>(rt.alloc(), &case)?;
        assert!(rt; is_texts(&array, &case), "{array:?}");
        assert!(rt; *array.data_type() == DataType::LargeUtf8);
    }
    Ok(())
}

// Byte strings that are no texts, and a null, between which memory is reserved.
fn reserved_bytes(alloc: Global) -> Result<MutableBinaryArray<i32>, BuildError> {
    let mut array = MutableBinaryArray::with_capacity(alloc, 3)?;
    array.push(Some(&[0xFF, 0]))?;
    array.reserve(9, 99)?;
    array.push_null()?;
    array.push(Some(&[0x80]))?;
    Ok(array)
}

#[test]
fn reserved_memory_has_no_byte_strings(rt: HostRuntime) -> Result<(), Fail> {
    let array = reserved_bytes(rt.alloc())?;
    assert_eq!(rt; array.len(), 3);
    let array = array.finish()?;
    assert!(rt; are_offsets(array.offsets(), &[0, 2, 2, 3]));
    assert!(rt; array.values().as_slice() == [0xFF, 0, 0x80].as_slice());
    assert!(rt; has_validity(array.validity(), Some("101")));
    Ok(())
}

// Texts and a null, between which memory is reserved.
fn reserved_texts(alloc: Global) -> Result<MutableUtf8Array<i64>, BuildError> {
    let mut array = MutableUtf8Array::with_capacity(alloc, 3)?;
    array.push(Some("é"))?;
    array.reserve(9, 99)?;
    array.push_null()?;
    Ok(array)
}

#[test]
fn reserved_memory_has_no_texts(rt: HostRuntime) -> Result<(), Fail> {
    let array = reserved_texts(rt.alloc())?;
    assert_eq!(rt; array.len(), 2);
    let array = array.finish()?;
    assert!(rt; are_offsets(array.offsets(), &[0, 2, 2]));
    assert!(rt; array.values().as_slice() == [0xC3, 0xA9].as_slice());
    assert!(rt; has_validity(array.validity(), Some("10")));
    Ok(())
}

#[test]
fn texts_are_built_of_options(rt: HostRuntime) -> Result<(), Fail> {
    for case in CASES {
        let array = MutableUtf8Array::<i32>::from_options(rt.alloc(), case.slots)?.finish()?;
        assert!(rt; is_texts(&array, &case), "{array:?}");
    }
    Ok(())
}

#[test]
fn texts_are_built_of_a_slice(rt: HostRuntime) -> Result<(), Fail> {
    let array = MutableUtf8Array::<i64>::from_slice(rt.alloc(), &["é", "", "abc"])?.finish()?;
    assert!(rt; are_offsets(array.offsets(), &[0, 2, 2, 5]));
    assert!(rt; array.values().as_slice() == "éabc".as_bytes());
    assert!(rt; has_validity(array.validity(), None));
    Ok(())
}

#[test]
fn byte_strings_are_built_of_options(rt: HostRuntime) -> Result<(), Fail> {
    let slots: [Option<&[u8]>; 4] = [Some(&[0xFF, 0]), None, Some(&[]), Some(&[0x80])];
    let array = MutableBinaryArray::<i32>::from_options(rt.alloc(), &slots)?.finish()?;
    assert!(rt; are_offsets(array.offsets(), &[0, 2, 2, 2, 3]));
    assert!(rt; array.values().as_slice() == [0xFF, 0, 0x80].as_slice());
    assert!(rt; has_validity(array.validity(), Some("1011")));
    Ok(())
}

#[test]
fn byte_strings_are_built_of_a_slice(rt: HostRuntime) -> Result<(), Fail> {
    let values: [&[u8]; 3] = [&[0xFF, 0], &[], &[0x80]];
    let array = MutableBinaryArray::<i64>::from_slice(rt.alloc(), &values)?.finish()?;
    assert!(rt; are_offsets(array.offsets(), &[0, 2, 2, 3]));
    assert!(rt; array.values().as_slice() == [0xFF, 0, 0x80].as_slice());
    assert!(rt; has_validity(array.validity(), None));
    Ok(())
}
