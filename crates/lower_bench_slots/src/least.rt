//! The least and the greatest value of arrays.

use lower::bitmap::Bitmap;
use lower::buffer::Buffer;
use lower::datatypes::DataType;
use lower_aggregate::aggregate::{
    max_binary, max_boolean, max_primitive, max_string, min_binary, min_boolean, min_primitive,
    min_string,
};
use lower_arrays::array::PrimitiveArray;
use lower_builders::binary::MutableBinaryArray;
use lower_builders::boolean::MutableBooleanArray;
use lower_builders::primitive::MutablePrimitiveArray;
use lower_builders::utf8::MutableUtf8Array;
use std::alloc::Global;
use std::test::Fail;

// Slots, and their least and greatest number.
const NUMBERS: [(&[Option<i32>], Option<i32>, Option<i32>); 6] = [
    (&[], None, None),
    (&[None, None], None, None),
    (&[Some(5)], Some(5), Some(5)),
    (&[None, Some(3), Some(-2)], Some(-2), Some(3)),
    (
        &[Some(3), Some(-2), Some(3), Some(-2), None],
        Some(-2),
        Some(3),
    ),
    (&[Some(4), Some(4), Some(4)], Some(4), Some(4)),
];

#[test]
fn numbers_have_a_least_and_a_greatest(rt: HostRuntime) -> Result<(), Fail> {
    for (slots, least, greatest) in NUMBERS {
        let array = MutablePrimitiveArray::from_options(rt.alloc(), slots)?.finish()?;
        assert_eq!(rt; min_primitive(&array), least);
        assert_eq!(rt; max_primitive(&array), greatest);
    }
    Ok(())
}

#[test]
fn numbers_above_the_signed_range_are_greater(rt: HostRuntime) -> Result<(), Fail> {
    let array = MutablePrimitiveArray::<u8>::from_slice(rt.alloc(), &[127, 128, 255, 0])?.finish()?;
    assert_eq!(rt; min_primitive(&array), Some(0));
    assert_eq!(rt; max_primitive(&array), Some(255));
    Ok(())
}

// The numbers -9, 3, 4 and 9, of which the first and the last are below nulls.
fn masked(alloc: Global) -> Result<PrimitiveArray<i64>, Fail> {
    let numbers = Buffer::new(vec![in alloc; -9, 3, 4, 9]?)?;
    let validity = Bitmap::try_new(Buffer::new(vec![in alloc; 0b0000_0110]?)?, 4)?;
    Ok(PrimitiveArray::try_new(DataType::Int64, numbers, Some(validity))?)
}

#[test]
fn numbers_below_nulls_do_not_count(rt: HostRuntime) -> Result<(), Fail> {
    let array = masked(rt.alloc())?;
    assert_eq!(rt; min_primitive(&array), Some(3));
    assert_eq!(rt; max_primitive(&array), Some(4));
    Ok(())
}

// Slots, and their least and greatest boolean.
const BOOLEANS: [(&[Option<bool>], Option<bool>, Option<bool>); 6] = [
    (&[], None, None),
    (&[None], None, None),
    (&[None, Some(true)], Some(true), Some(true)),
    (&[Some(true), None, Some(false)], Some(false), Some(true)),
    (&[Some(false), Some(false)], Some(false), Some(false)),
    (&[Some(false), Some(true)], Some(false), Some(true)),
];

#[test]
fn booleans_have_a_least_and_a_greatest(rt: HostRuntime) -> Result<(), Fail> {
    for (slots, least, greatest) in BOOLEANS {
        let array = MutableBooleanArray::from_options(rt.alloc(), slots)?.finish()?;
        assert_eq!(rt; min_boolean(&array), least);
        assert_eq!(rt; max_boolean(&array), greatest);
    }
    Ok(())
}

// Slots, and their least and greatest text.
const TEXTS: [(&[Option<&str>], Option<&str>, Option<&str>); 6] = [
    (&[], None, None),
    (&[None, None], None, None),
    (
        &[None, Some("b"), Some("é"), Some("ba")],
        Some("b"),
        Some("é"),
    ),
    (
        &[Some("b"), Some("ab"), Some("a"), None],
        Some("a"),
        Some("b"),
    ),
    (&[Some("a"), Some("")], Some(""), Some("a")),
    (&[Some("a"), Some("a")], Some("a"), Some("a")),
];

#[test]
fn texts_have_a_least_and_a_greatest(rt: HostRuntime) -> Result<(), Fail> {
    for (slots, least, greatest) in TEXTS {
        let array = MutableUtf8Array::<i32>::from_options(rt.alloc(), slots)?.finish()?;
        assert_eq!(rt; min_string(&array), least);
        assert_eq!(rt; max_string(&array), greatest);
    }
    Ok(())
}

// Slots, and their least and greatest byte string.
const BYTES: [(&[Option<&[u8]>], Option<&[u8]>, Option<&[u8]>); 5] = [
    (&[], None, None),
    (&[None], None, None),
    (
        &[None, Some(&[0x80]), Some(&[0x7F, 0xFF])],
        Some(&[0x7F, 0xFF]),
        Some(&[0x80]),
    ),
    (
        &[Some(&[1]), Some(&[1, 0]), Some(&[])],
        Some(&[]),
        Some(&[1, 0]),
    ),
    (&[Some(&[2]), Some(&[2])], Some(&[2]), Some(&[2])),
];

#[test]
fn byte_strings_have_a_least_and_a_greatest(rt: HostRuntime) -> Result<(), Fail> {
    for (slots, least, greatest) in BYTES {
        let array = MutableBinaryArray::<i64>::from_options(rt.alloc(), slots)?.finish()?;
        assert_eq!(rt; min_binary(&array), least);
        assert_eq!(rt; max_binary(&array), greatest);
    }
    Ok(())
}
