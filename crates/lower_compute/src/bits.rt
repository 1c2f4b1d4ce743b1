//! Copies of bits, run by run.
ghost use Rattle.std.specs.Prelude.{◌≡◌, ◌+◌, ◌++◌, ◌≤◌, take, drop, replicate, true, None, Some, map, length, IfOk, OnOk, IsTrue};
ghost use Rattle.std.specs.List.{All};
ghost use Rattle.std.specs.Option.{option_copied};
ghost use Rattle.lower_compute.specs.Runs.{BitsFit, bits_of_runs, IsValidityOf};

use crate::runs::Run;
use lower::bitmap::Bitmap;
use lower_builders::bitmap::MutableBitmap;
use std::alloc::{AllocError, Global};

/// Appends the `len` bits from `offset`.
fn append_part(
    out: &mut MutableBitmap,
    bits: &Bitmap,
    offset: usize,
    len: usize,
) -> Result<(), AllocError>
    requires { offset + len ≤ length bits.now }
    ensures { OnOk result (out.new ≡ out.old ++ take len (drop offset bits.now)) }
{
    prove!(len <= bits.len());
    for i in 0..len {
        out.push(bits.get_bit(offset + i))?;
    }
    Ok(())
}

/// Appends `len` bits that are set.
fn append_set(out: &mut MutableBitmap, len: usize) -> Result<(), AllocError>
    ensures { OnOk result (out.new ≡ out.old ++ replicate len true) }
{
    for i in 0..len {
        out.push(true)?;
    }
    Ok(())
}

/// Returns the bits of each run, in order. All bits are set where there is no bitmap.
pub(crate) fn copy_bits(
    alloc: Global,
    bitmaps: &[Option<&Bitmap>],
    runs: &[Run],
) -> Result<Bitmap, AllocError>
    requires { All (BitsFit (map option_copied bitmaps.now)) runs.now }
    ensures bits { IfOk result
        (λ bits. bits ≡ bits_of_runs (map option_copied bitmaps.now) runs.now) }
    ensures each { IfOk result
        (λ bits. IsValidityOf (map option_copied bitmaps.now) runs.now (Some bits)) }
{
    let mut all = MutableBitmap::new(alloc);
    for run in runs {
        match bitmaps[run.array] {
            None => append_set(&mut all, run.len)?,
            Some(bits) => append_part(&mut all, bits, run.offset, run.len)?,
        }
    }
    all.finish()
}

// Whether there is no bitmap.
fn has_none(bitmaps: &[Option<&Bitmap>]) -> bool
    ensures { IsTrue result → All (λ b. b ≡ None) bitmaps.now }
{
    for bitmap in bitmaps {
        if bitmap.is_some() {
            return false;
        }
    }
    true
}

/// Returns the validity of the slots of each run, which is `None` if there is no bitmap.
pub(crate) fn copy_validity(
    alloc: Global,
    bitmaps: &[Option<&Bitmap>],
    runs: &[Run],
) -> Result<Option<Bitmap>, AllocError>
    requires { All (BitsFit (map option_copied bitmaps.now)) runs.now }
    ensures { IfOk result (IsValidityOf (map option_copied bitmaps.now) runs.now) }
{
    if has_none(bitmaps) {
        return Ok(None);
    }
    Ok(Some(copy_bits(alloc, bitmaps, runs)?))
}
