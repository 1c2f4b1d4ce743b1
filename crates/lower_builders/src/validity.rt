//! The validity of slots that are pushed one by one (Arrow columnar format, "Validity bitmaps").
ghost use Rattle.std.specs.Prelude.{◌≡◌, ◌∷◌, ◌++◌, [], IfOk, length, replicate, true, false};
ghost use Rattle.lower_builders.specs.Pushes.{Pushes};
ghost use Rattle.lower_builders.specs.Validity.{as_validity};

use crate::bitmap::MutableBitmap;
use lower::bitmap::Bitmap;
use std::alloc::{AllocError, Global};
use std::marker::Model;

/// A bit for each slot. The bitmap is empty before the first null.
#[derive(Drop)]
pub(crate) struct MutableValidity {
    alloc: Global,
    len: usize,
    bits: MutableBitmap,
}

impl Model for MutableValidity {
    ghost use Rattle.std.specs.Prelude.{List, Bool};
    ghost use Rattle.lower_builders.specs.Validity.{kept_bits, BitsKept};

    ghost Value = { List Bool };

    ghost view = { λ a. kept_bits a.len a.bits };

    ghost invariant = { λ a. BitsKept a.len a.bits };
}

impl MutableValidity {
    /// Returns the validity of no slots. It allocates nothing.
    pub(crate) fn new(alloc: Global) -> Self
        ensures { result ≡ [] }
    {
        MutableValidity {
            alloc,
            len: 0,
            bits: MutableBitmap::new(alloc),
        }
    }

    /// Returns the number of slots.
    #[tactic(auto, using(crate::proofs::Slots::bit_counts))]
    pub(crate) fn len(&self) -> usize
        ensures { result ≡ length self.now }
    {
        self.len
    }

    /// Appends the bit of a slot. If memory is missing, the bits stay as they were.
    #[tactic(auto, using(crate::proofs::Slots::bit_counts))]
    pub(crate) fn push(&mut self, is_valid: bool) -> Result<(), AllocError>
        ensures { Pushes result self.old is_valid self.new }
    {
        let Some(len) = self.len.checked_add(1) else {
            return Err(AllocError);
        };
        if self.bits.len() > 0 {
            self.bits.push(is_valid)?;
            self.len = len;
            return Ok(());
        }
        if is_valid {
            self.len = len;
            return Ok(());
        }
        self.bits = first_null(self.alloc, self.len)?;
        self.len = len;
        Ok(())
    }

    /// Returns the validity, which is `None` if there is no null. No bit is copied.
    #[tactic(auto, using(crate::proofs::Slots::bit_counts))]
    pub(crate) fn finish(self) -> Result<Option<Bitmap>, AllocError>
        ensures { IfOk result (λ validity. validity ≡ as_validity self) }
    {
        if self.bits.len() == 0 {
            return Ok(None);
        }
        Ok(Some(self.bits.finish()?))
    }
}

// The bits of `len` slots with values, and of a null.
fn first_null(alloc: Global, len: usize) -> Result<MutableBitmap, AllocError>
    ensures { IfOk result (λ bits. bits ≡ replicate len true ++ false ∷ []) }
{
    let mut bits = MutableBitmap::from_len_set(alloc, len)?;
    bits.push(false)?;
    Ok(bits)
}
