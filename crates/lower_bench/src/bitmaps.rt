//! Bitmaps that are built bit by bit.

use lower::bitmap::Bitmap;
use lower_builders::bitmap::MutableBitmap;
use std::alloc::{AllocError, Global};
use std::test::Fail;

/// Whether a bitmap has these bits, written as `1` and `0` in order.
pub fn has_bits(bits: &Bitmap, text: &str) -> bool {
    if bits.len() != text.len() {
        return false;
    }
    for (bit, mark) in bits.iter().zip(text.as_bytes()) {
        if bit != (*mark == b'1') {
            return false;
        }
    }
    true
}

/// Whether a validity bitmap has these bits. Without a text there must be none.
pub fn has_validity(validity: Option<&Bitmap>, text: Option<&str>) -> bool {
    match (validity, text) {
        (None, None) => true,
        (Some(bits), Some(text)) => has_bits(bits, text),
        _ => false,
    }
}

// Bits in order, and their bytes: bit `i` is bit `i % 8` of byte `i / 8`, and bit 0 is the lowest.
const BITMAPS: [(&str, &[u8]); 9] = [
    ("", &[]),
    ("0", &[0]),
    ("1", &[0b0000_0001]),
    ("1011", &[0b0000_1101]),
    ("00000001", &[0b1000_0000]),
    ("101100101", &[0b0100_1101, 0b0000_0001]),
    ("000000000", &[0, 0]),
    ("0000000011111111", &[0, 255]),
    ("10000000000000001", &[1, 0, 1]),
];

// Pushes these bits.
fn push_all(bits: &mut MutableBitmap, text: &str) -> Result<(), AllocError> {
    for mark in text.as_bytes() {
        bits.push(*mark == b'1')?;
    }
    Ok(())
}

fn pushed(alloc: Global, text: &str) -> Result<Bitmap, AllocError> {
    let mut bits = MutableBitmap::new(alloc);
    push_all(&mut bits, text)?;
    bits.finish()
}

// Whether a bitmap of `len` bits has these bytes.
fn has_bytes(bits: &Bitmap, bytes: &[u8], len: usize) -> bool {
    let (all, start, count) = bits.as_slice();
    all == bytes && start == 0 && count == len
}

#[test]
fn bits_are_pushed_from_the_lowest(rt: HostRuntime) -> Result<(), Fail> {
    for (text, bytes) in BITMAPS {
        let bits = pushed(rt.alloc(), text)?;
        assert!(rt; has_bytes(&bits, bytes, text.len()), "{text}: {bits:?}");
    }
    Ok(())
}

// A bitmap of nine bits, of which room for eight was reserved before and between.
fn nine_bits(alloc: Global) -> Result<MutableBitmap, AllocError> {
    let mut bits = MutableBitmap::with_capacity(alloc, 8)?;
    push_all(&mut bits, "101")?;
    bits.reserve(8)?;
    push_all(&mut bits, "100101")?;
    Ok(bits)
}

#[test]
fn reserved_memory_has_no_bits(rt: HostRuntime) -> Result<(), Fail> {
    let alloc = rt.alloc();
    assert_eq!(rt; MutableBitmap::with_capacity(alloc, 9)?.len(), 0);
    assert_eq!(rt; MutableBitmap::new(alloc).len(), 0);
    let bits = nine_bits(alloc)?;
    assert_eq!(rt; bits.len(), 9);
    assert!(rt; has_bytes(&bits.finish()?, &[0b0100_1101, 0b0000_0001], 9));
    Ok(())
}

const NINE_BITS: [bool; 9] = [true, false, true, true, false, false, true, false, true];

#[test]
fn slices_of_bits_are_copied(rt: HostRuntime) -> Result<(), Fail> {
    let bits = MutableBitmap::from_slice(rt.alloc(), &NINE_BITS)?.finish()?;
    assert!(rt; has_bytes(&bits, &[0b0100_1101, 0b0000_0001], 9));
    let none = MutableBitmap::from_slice(rt.alloc(), &[])?.finish()?;
    assert!(rt; has_bytes(&none, &[], 0));
    Ok(())
}

// How many bits are set at first, and all bits after one more that isn't.
const SET_BITS: [(usize, &str); 6] = [
    (0, "0"),
    (1, "10"),
    (7, "11111110"),
    (8, "111111110"),
    (9, "1111111110"),
    (16, "11111111111111110"),
];

fn set_and_unset(alloc: Global, len: usize) -> Result<Bitmap, AllocError> {
    let mut bits = MutableBitmap::from_len_set(alloc, len)?;
    bits.push(false)?;
    bits.finish()
}

#[test]
fn unset_bit_follows_set_bits(rt: HostRuntime) -> Result<(), Fail> {
    for (len, text) in SET_BITS {
        let bits = set_and_unset(rt.alloc(), len)?;
        assert!(rt; has_bits(&bits, text), "{text}: {bits:?}");
    }
    Ok(())
}
