//! Bits that are pushed one by one.
//!
//! Arrow columnar format, "Validity bitmaps": bit `i` is bit `i % 8` of byte `i / 8`, and bit 0 of
//! a byte is its lowest.
ghost use Rattle.std.specs.Prelude.{◌≡◌, ◌≢◌, ℕ, ◌<◌, ◌≤◌, [], IfOk, nat_eq, length, take, replicate, true};
ghost use Rattle.std.specs.Int.{bit_at};
ghost use Rattle.lower_builders.specs.Pushes.{Pushes};

use lower::bitmap::Bitmap;
use lower::buffer::Buffer;
use std::alloc::{AllocError, Global};
use std::marker::Model;

/// A bitmap that grows bit by bit.
#[derive(Drop)]
pub struct MutableBitmap {
    bytes: Vec<u8>,
    len: usize,
}

impl Model for MutableBitmap {
    ghost use Rattle.std.specs.Prelude.{◌≡◌, ◌+◌, ◌/◌, ℕ, List, Bool, map, vec_len};
    ghost use Rattle.std.specs.List.{range_with_len};
    ghost use Rattle.lower.specs.Bits.{has_bit};

    ghost Value = { List Bool };

    ghost view = { λ a. map (has_bit a.bytes.items) (range_with_len 0 a.len) };

    ghost invariant = { λ a. vec_len a.bytes ≡ (a.len + 7) / 8 };
}

impl MutableBitmap {
    /// Returns a builder of no bits. It allocates nothing.
    pub fn new(alloc: Global) -> Self
        ensures { result ≡ [] }
    {
        MutableBitmap {
            bytes: Vec::new(alloc),
            len: 0,
        }
    }

    /// Returns a builder of no bits with memory for `capacity` bits.
    pub fn with_capacity(alloc: Global, capacity: usize) -> Result<Self, AllocError>
        ensures { IfOk result (λ b. b ≡ []) }
    {
        Ok(MutableBitmap {
            bytes: Vec::with_capacity(alloc, capacity.div_ceil(8))?,
            len: 0,
        })
    }

    /// Returns a builder of `len` bits that are all set.
    #[tactic(auto, using(crate::proofs::BitPushes::bit_runs))]
    pub fn from_len_set(alloc: Global, len: usize) -> Result<Self, AllocError>
        ensures { IfOk result (λ b. b ≡ replicate len true) }
    {
        Ok(MutableBitmap {
            bytes: vec![in alloc; 255; len.div_ceil(8)]?,
            len,
        })
    }

    /// Returns a builder of these bits.
    #[tactic(auto, using(lower::proofs::BitLists::bit_lists))]
    pub fn from_slice(alloc: Global, bits: &[bool]) -> Result<Self, AllocError>
        ensures { IfOk result (λ b. b ≡ bits.now) }
    {
        let mut all = MutableBitmap::with_capacity(alloc, bits.len())?;
        for bit in bits {
            all.push(*bit)?;
        }
        Ok(all)
    }

    /// Allocates memory for `additional` more bits.
    pub fn reserve(&mut self, additional: usize) -> Result<(), AllocError>
        ensures { self.new ≡ self.old }
    {
        self.bytes.reserve(additional.div_ceil(8))
    }

    /// Returns the number of bits.
    #[tactic(auto, using(lower::proofs::BitLists::bit_lists))]
    pub fn len(&self) -> usize
        ensures { result ≡ length self.now }
    {
        self.len
    }

    /// Appends a bit. If memory is missing, the bits stay as they were.
    #[tactic(auto, using(crate::proofs::BitPushes::bit_pushes))]
    pub fn push(&mut self, bit: bool) -> Result<(), AllocError>
        ensures { Pushes result self.old bit self.new }
    {
        let Some(len) = self.len.checked_add(1) else {
            return Err(AllocError);
        };
        let last = self.len / 8;
        if last < self.bytes.len() {
            self.bytes[last] = with_bit(self.bytes[last], self.len % 8, bit);
            self.len = len;
            return Ok(());
        }
        self.bytes.push(u8::from(bit))?;
        self.len = len;
        Ok(())
    }

    // Keeps only the first `len` bits.
    #[tactic(auto, using(crate::proofs::BitPushes::bit_runs))]
    pub(crate) fn truncate(&mut self, len: usize)
        requires { len ≤ length self.old }
        ensures { self.new ≡ take len self.old }
    {
        prove!(len <= self.len);
        self.bytes.truncate(len.div_ceil(8));
        self.len = len;
    }

    /// Returns the bits as a bitmap. No bit is copied.
    pub fn finish(self) -> Result<Bitmap, AllocError>
        ensures { IfOk result (λ bits. bits ≡ self) }
    {
        let MutableBitmap { bytes, len } = self;
        match Bitmap::try_new(Buffer::new(bytes)?, len) {
            Ok(bits) => Ok(bits),
            Err(_) => unreachable!(),
        }
    }
}

// The byte with bit `k` set or not, and its other bits as they were.
fn with_bit(byte: u8, k: usize, bit: bool) -> u8
    requires { k < 8 }
    ensures there { nat_eq (bit_at result k) 1 ≡ bit }
    ensures others { (i : ℕ) → i < 8 → i ≢ k → bit_at result i ≡ bit_at byte i }
{
    if bit { byte | 1 << k } else { byte & !(1 << k) }
}
