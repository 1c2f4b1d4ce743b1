//! Bits, packed into bytes that several owners may share.
//!
//! Arrow columnar format, "Validity bitmaps": bit `i` is bit `i % 8` of byte `i / 8`, and bit 0 of
//! a byte is its lowest.
ghost use Rattle.std.specs.Prelude.{◌≡◌, ◌+◌, ◌-◌, ◌*◌, ◌/◌, ◌%◌, ◌<◌, ◌≤◌, length, take, drop, IfOk, MatchResult, IsErrOf, List, get_or, false, map, IsTrue, ◌↔◌, []};
ghost use Rattle.std.specs.Iterator.{YieldsFirst, item_count};
ghost use Rattle.std.specs.List.{range_with_len};
ghost use Rattle.lower.specs.Bits.{has_bit};
ghost use Rattle.lower.specs.declared.error.Error.{Error};
ghost use Rattle.lower.specs.declared.error.Rule.{Rule};

use crate::buffer::Buffer;
use crate::error::{Error, Rule};
use std::alloc::{AllocError, Global};
use std::fmt;
use std::marker::Model;

/// A sequence of bits in a shared buffer of bytes. Clones and slices share the memory.
#[derive(Drop)]
pub struct Bitmap {
    bytes: Buffer<u8>,
    offset: usize,
    len: usize,
}

impl Model for Bitmap {
    ghost use Rattle.std.specs.Prelude.{ℕ, ◌+◌, ◌*◌, ◌^◌, ◌<◌, ◌≤◌, List, Bool, map, length};
    ghost use Rattle.std.specs.List.{range_with_len};
    ghost use Rattle.lower.specs.Bits.{has_bit};

    ghost Value = { List Bool };

    ghost view = { λ a. map (has_bit a.bytes) (range_with_len a.offset a.len) };

    ghost invariant = { λ a. (a.offset + a.len ≤ 8 * length a.bytes) × (a.offset + a.len < 2 ^ 64) };
}

impl Clone for Bitmap {
    ghost is_clone = { λ a b. b ≡ a };

    fn clone(&self) -> Result<Bitmap, AllocError> {
        Ok(Bitmap {
            bytes: self.bytes.clone()?,
            offset: self.offset,
            len: self.len,
        })
    }
}

impl Bitmap {
    /// Returns the first `len` bits of `bytes`.
    ///
    /// The error is `Error::OutOfSpec(Rule::BitmapLength)`, exactly if `len` is more than 8 times
    /// the number of bytes.
    pub fn try_new(bytes: Buffer<u8>, len: usize) -> Result<Bitmap, Error>
        ensures bits { MatchResult result
            (λ b. (b ≡ map (has_bit bytes) (range_with_len 0 len)) × (len ≤ 8 * length bytes))
            (λ e. (e ≡ Error.OutOfSpec Rule.BitmapLength) × (8 * length bytes < len)) }
    {
        if len.div_ceil(8) > bytes.len() {
            return Err(Error::OutOfSpec(Rule::BitmapLength));
        }
        Ok(Bitmap {
            bytes,
            offset: 0,
            len,
        })
    }

    /// Returns the number of bits.
    #[tactic(auto, using(crate::proofs::BitLists::bit_lists))]
    pub fn len(&self) -> usize
        ensures { result ≡ length self.now }
    {
        self.len
    }

    /// Returns bit `i`.
    #[tactic(auto, using(crate::proofs::BitLists::bit_lists))]
    pub fn get_bit(&self, i: usize) -> bool
        requires { i < length self.now }
        ensures { result ≡ get_or self.now i false }
    {
        let k = self.offset + i;
        (self.bytes.as_slice()[k / 8] >> (k % 8)) & 1 == 1
    }

    /// Returns the `len` bits from bit `offset`, in the same memory.
    #[tactic(auto, using(crate::proofs::BitLists::bit_lists))]
    pub fn sliced(self, offset: usize, len: usize) -> Self
        requires { offset + len ≤ length self }
        ensures { result ≡ take len (drop offset self) }
    {
        let Bitmap {
            bytes,
            offset: start,
            ..
        } = self;
        Bitmap {
            bytes,
            offset: start + offset,
            len,
        }
    }

    /// Keeps only the `len` bits from bit `offset`.
    #[tactic(auto, using(crate::proofs::BitLists::bit_lists))]
    pub fn slice(&mut self, offset: usize, len: usize)
        requires { offset + len ≤ length self.old }
        ensures { self.new ≡ take len (drop offset self.old) }
    {
        self.offset += offset;
        self.len = len;
    }

    /// Returns the bytes, the first bit's position in them, and the number of bits.
    ///
    /// The position is below 8. The slice has only the bytes that these bits need.
    #[tactic(auto, using(crate::proofs::BitLists::bit_lists))]
    pub fn as_slice(&self) -> (&[u8], usize, usize)
        ensures start { result.1 < 8 }
        ensures len { result.2 ≡ length self.now }
        ensures whole { length result.0.now ≡ (result.1 + result.2 + 7) / 8 }
        ensures bits { map (has_bit result.0.now) (range_with_len result.1 result.2) ≡ self.now }
    {
        let first = self.offset / 8;
        let start = self.offset % 8;
        let count = (start + self.len).div_ceil(8);
        (
            &self.bytes.as_slice()[first..first + count],
            start,
            self.len,
        )
    }

    /// Returns whether there is no bit.
    #[tactic(auto, using(crate::proofs::BitLists::bit_lists))]
    pub fn is_empty(&self) -> bool
        ensures { IsTrue result ↔ self.now ≡ [] }
    {
        self.len() == 0
    }

    /// Returns the number of bytes that stay allocated as long as this bitmap exists, as
    /// [`Buffer::retained_bytes`].
    #[tactic(auto, using(crate::proofs::BitLists::bit_lists))]
    pub fn retained_bytes(&self) -> usize
        ensures { length self.now ≤ 8 * result }
    {
        self.bytes.retained_bytes()
    }

    /// Returns the same bits in memory of their own, which has only the bytes that they need.
    #[tactic(auto, using(crate::proofs::BitLists::bit_lists))]
    pub fn compact(&self, alloc: Global) -> Result<Self, AllocError>
        ensures { IfOk result (λ b. b ≡ self.now) }
    {
        let first = self.offset / 8;
        let shift = self.offset % 8;
        let needed = (shift + self.len).div_ceil(8);
        let part = self.bytes.part(first, needed)?;
        let bytes = part.compact(alloc)?;
        Ok(Bitmap {
            bytes,
            offset: shift,
            len: self.len,
        })
    }

    /// Iterates over the bits, in order.
    pub fn iter(&self) -> BitmapIter<'_>
        ensures { result ≡ self.now }
    {
        BitmapIter {
            bitmap: self,
            index: 0,
        }
    }
}

/// An iterator over the bits of a bitmap. Its model is the list of those that are left.
#[derive(Drop)]
pub struct BitmapIter<'a> {
    bitmap: &'a Bitmap,
    index: usize,
}

impl<'a> Model for BitmapIter<'a> {
    ghost use Rattle.std.specs.Prelude.{List, Bool, drop};

    ghost Value = { List Bool };

    ghost view = { λ a. drop a.index a.bitmap.now };
}

impl<'a> Iterator for BitmapIter<'a> {
    type Item = bool;

    ghost next_gives = { YieldsFirst (λ rest. rest) };

    ghost remaining = { item_count (λ rest. rest) };

    fn next(&mut self) -> Option<bool> {
        let index = self.index;
        if index >= self.bitmap.len() {
            return None;
        }
        self.index += 1;
        Some(self.bitmap.get_bit(index))
    }
}

impl<'a> IntoIterator for &'a Bitmap {
    type Item = bool;

    type IntoIter = BitmapIter<'a>;

    ghost into_iter_gives = { λ bitmap rest. rest ≡ bitmap.now };

    fn into_iter(self) -> BitmapIter<'a> {
        self.iter()
    }
}

/// Prints the bits as a list.
impl fmt::Debug for Bitmap {
    fn fmt<W: fmt::Write>(&self, f: &mut fmt::Formatter<W>) -> fmt::Result {
        f.debug_list().entries(self.iter()).finish()
    }
}
