//! Columns of booleans, texts and byte strings.

use crate::columns::{joins, takes, texts};
use lower::datatypes::DataType;
use lower_arrays::array::AnyArray;
use lower_builders::binary::MutableBinaryArray;
use lower_builders::boolean::MutableBooleanArray;
use lower_builders::fixed_size_binary::MutableFixedSizeBinaryArray;
use lower_builders::utf8::MutableUtf8Array;
use std::alloc::{AllocError, Global};
use std::test::Fail;

fn booleans(alloc: Global, slots: &[Option<bool>]) -> Result<AnyArray, AllocError> {
    let array = MutableBooleanArray::from_options(alloc, slots)?;
    Ok(AnyArray::from(array.finish()?))
}

#[test]
fn booleans_are_copied(rt: HostRuntime) -> Result<(), Fail> {
    let alloc = rt.alloc();
    let array = booleans(alloc, &[Some(true), None, Some(false)])?;
    let expected = booleans(alloc, &[Some(false), None, Some(true), Some(false)])?;
    assert!(rt; takes(alloc, array, &[2, 1, 0, 2], expected)?);
    Ok(())
}

#[test]
fn texts_are_copied(rt: HostRuntime) -> Result<(), Fail> {
    let alloc = rt.alloc();
    let array = texts(alloc, &[Some("a"), Some("bcd"), None, Some("")])?;
    let expected = texts(
        alloc,
        &[None, Some(""), Some("bcd"), Some("a"), Some("bcd")],
    )?;
    assert!(rt; takes(alloc, array, &[2, 3, 1, 0, 1], expected)?);
    Ok(())
}

fn large_texts(alloc: Global, slots: &[Option<&str>]) -> Result<AnyArray, Fail> {
    let array = MutableUtf8Array::<i64>::from_options(alloc, slots)?;
    Ok(AnyArray::from(array.finish()?))
}

#[test]
fn large_texts_are_joined(rt: HostRuntime) -> Result<(), Fail> {
    let alloc = rt.alloc();
    let first = large_texts(alloc, &[Some("a"), Some("bc")])?;
    let other = large_texts(alloc, &[None, Some("d")])?;
    let expected = large_texts(alloc, &[Some("a"), Some("bc"), None, Some("d")])?;
    assert!(rt; joins(alloc, first, other, expected)?);
    Ok(())
}

fn bytes(alloc: Global, slots: &[Option<&[u8]>]) -> Result<AnyArray, Fail> {
    let array = MutableBinaryArray::<i32>::from_options(alloc, slots)?;
    Ok(AnyArray::from(array.finish()?))
}

#[test]
fn bytes_are_joined(rt: HostRuntime) -> Result<(), Fail> {
    let alloc = rt.alloc();
    let first = bytes(alloc, &[Some(b"\x00\xff"), None])?;
    let other = bytes(alloc, &[Some(b""), Some(b"\x7f")])?;
    let expected = bytes(alloc, &[Some(b"\x00\xff"), None, Some(b""), Some(b"\x7f")])?;
    assert!(rt; joins(alloc, first, other, expected)?);
    Ok(())
}

fn large_bytes(alloc: Global, slots: &[Option<&[u8]>]) -> Result<AnyArray, Fail> {
    let array = MutableBinaryArray::<i64>::from_options(alloc, slots)?;
    Ok(AnyArray::from(array.finish()?))
}

#[test]
fn large_bytes_are_copied(rt: HostRuntime) -> Result<(), Fail> {
    let alloc = rt.alloc();
    let array = large_bytes(alloc, &[Some(b"ab"), None, Some(b"c")])?;
    let expected = large_bytes(alloc, &[Some(b"c"), Some(b"ab"), None])?;
    assert!(rt; takes(alloc, array, &[2, 0, 1], expected)?);
    Ok(())
}

// Byte strings of two bytes each.
fn pairs(alloc: Global, slots: &[Option<&[u8]>]) -> Result<AnyArray, Fail> {
    let mut array = MutableFixedSizeBinaryArray::new(alloc, 2)?;
    for slot in slots {
        array.push(*slot)?;
    }
    Ok(AnyArray::from(array.finish()?))
}

#[test]
fn byte_strings_of_one_length_are_copied(rt: HostRuntime) -> Result<(), Fail> {
    let alloc = rt.alloc();
    let array = pairs(alloc, &[Some(b"ab"), None, Some(b"ef")])?;
    let expected = pairs(alloc, &[Some(b"ef"), Some(b"ef"), None])?;
    assert!(rt; takes(alloc, array, &[2, 2, 1], expected)?);
    Ok(())
}
