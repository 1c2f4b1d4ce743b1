//! Optional validity bitmaps of arrays (Arrow columnar format, "Validity bitmaps").
ghost use Rattle.std.specs.Prelude.{◌≡◌, ◌↔◌, ◌+◌, ◌-◌, ◌*◌, ◌^◌, ◌<◌, ◌≤◌, IsTrue, IfOk, not, length};
ghost use Rattle.std.specs.List.{count_by, sum_by};
ghost use Rattle.lower.specs.Bits.{has_bit};
ghost use Rattle.lower_flat_arrays.specs.Validities.{part, unset_along, null_count_of, is_valid, ValidityFits, ValidityHolds, cut_validity};

use lower::bitmap::Bitmap;
use std::alloc::{AllocError, Global};

/// Returns whether there is no bitmap, or one of `len` bits.
pub fn fits(validity: &Option<Bitmap>, len: usize) -> bool
    ensures { IsTrue result ↔ ValidityFits validity.now len }
{
    match validity {
        None => true,
        Some(bits) => bits.len() == len,
    }
}

/// Returns the number of bits that aren't set.
pub fn unset_bits(validity: &Option<Bitmap>) -> usize
    ensures { result ≡ null_count_of validity.now }
{
    match validity {
        None => 0,
        Some(bits) => count_unset(bits),
    }
}

// The number of bits that aren't set: bit by bit in the first and the last byte, and many at once
// in the bytes between.
fn count_unset(bits: &Bitmap) -> usize
    ensures { result ≡ count_by (λ bit. not bit) bits.now }
{
    let (bytes, start, len) = bits.as_slice();
    if bytes.len() <= 2 {
        return unset_between(bits, 0, len);
    }
    let inner = &bytes[1..bytes.len() - 1];
    let head = 8 - start;
    let tail = head + 8 * inner.len();
    unset_between(bits, 0, head) + unset_in(inner) + unset_between(bits, tail, len)
}

// The number of bits that aren't set, counted eight bytes at once.
fn unset_in(bytes: &[u8]) -> usize
    requires { 8 * length bytes.now < 2 ^ 64 }
    ensures count { result ≡ unset_along (has_bit bytes.now) 0 (8 * length bytes.now) }
    ensures bound { result ≤ 8 * length bytes.now }
{
    let (words, rest) = bytes.as_chunks::<8>();
    unset_in_words(words) + unset_in_bytes(rest)
}

// The number of bits that aren't set.
fn unset_in_words(words: &[[u8; 8]]) -> usize
    requires { 64 * length words.now < 2 ^ 64 }
    ensures count { result ≡ sum_by (λ word. unset_along (has_bit word) 0 64) words.now }
    ensures bound { result ≤ 64 * length words.now }
{
    let mut count = 0;
    for word in words {
        count += unset_in_word(*word);
    }
    count
}

// The number of bits of eight bytes that aren't set, counted by one machine instruction.
fn unset_in_word(word: [u8; 8]) -> usize
    ensures count { result ≡ unset_along (has_bit word) 0 64 }
    ensures bound { result ≤ 64 }
{
    u64::from_le_bytes(word).count_zeros() as usize
}

// The number of bits that aren't set, counted byte by byte.
fn unset_in_bytes(bytes: &[u8]) -> usize
    requires { 8 * length bytes.now < 2 ^ 64 }
    ensures count { result ≡ unset_along (has_bit bytes.now) 0 (8 * length bytes.now) }
    ensures bound { result ≤ 8 * length bytes.now }
{
    let mut count = 0;
    for byte in bytes {
        count += byte.count_zeros() as usize;
    }
    count
}

// The number of bits from `from` to `to` that aren't set.
fn unset_between(bits: &Bitmap, from: usize, to: usize) -> usize
    requires order { from ≤ to }
    requires inside { to ≤ length bits.now }
    ensures count { result ≡ count_by (λ bit. not bit) (part from (to - from) bits.now) }
    ensures bound { result ≤ to - from }
{
    let mut count = 0;
    for i in from..to {
        if !bits.get_bit(i) {
            count += 1;
        }
    }
    count
}

/// Returns whether the slot at `index` is valid.
pub fn is_valid_at(validity: &Option<Bitmap>, index: usize) -> bool
    requires { ValidityHolds validity.now (index + 1) }
    ensures { result ≡ is_valid validity.now index }
{
    match validity {
        None => true,
        Some(bits) => bits.get_bit(index),
    }
}

/// Returns the validity of the `len` slots from `offset`, in the same memory.
pub fn sliced_validity(validity: Option<Bitmap>, offset: usize, len: usize) -> Option<Bitmap>
    requires { ValidityHolds validity (offset + len) }
    ensures { result ≡ cut_validity offset len validity }
{
    match validity {
        None => None,
        Some(bits) => Some(bits.sliced(offset, len)),
    }
}

/// Returns the same bits, in the same memory.
///
/// It fails only if the count of owners can't grow.
pub fn clone_validity(validity: &Option<Bitmap>) -> Result<Option<Bitmap>, AllocError>
    ensures { IfOk result (λ copy. copy ≡ validity.now) }
{
    match validity {
        None => Ok(None),
        Some(bits) => Ok(Some(bits.clone()?)),
    }
}

/// Returns the same bits in memory of their own.
pub fn compact_validity(
    alloc: Global,
    validity: &Option<Bitmap>,
) -> Result<Option<Bitmap>, AllocError>
    ensures { IfOk result (λ copy. copy ≡ validity.now) }
{
    match validity {
        None => Ok(None),
        Some(bits) => Ok(Some(bits.compact(alloc)?)),
    }
}

/// Returns the number of bytes that the bits retain, as
/// [`Buffer::retained_bytes`](lower::buffer::Buffer::retained_bytes).
pub fn validity_bytes(validity: &Option<Bitmap>) -> usize {
    match validity {
        None => 0,
        Some(bits) => bits.retained_bytes(),
    }
}
