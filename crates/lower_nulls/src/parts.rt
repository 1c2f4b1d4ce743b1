//! The bitmaps and offsets of null slots.
ghost use Rattle.std.specs.Prelude.{◌≡◌, ◌+◌, ◌<◌, false, replicate, IfOk};
ghost use Rattle.lower.specs.Physical.{physical_single};
ghost use Rattle.lower_validation.specs.AnyOffsets.{list_places, list_width};
ghost use Rattle.lower_validation.specs.ListTypes.{list_with};
ghost use Rattle.lower_nulls.specs.Storage.{list_form};

use lower::bitmap::Bitmap;
use lower::buffer::Buffer;
use lower::offset::{Offset, OffsetsBuffer};
use lower_validation::offsets::ListOffsets;
use std::alloc::{AllocError, Global};

// A vector of `len` equal items.
pub(crate) fn repeated<T: Copy>(alloc: Global, item: T, len: usize) -> Result<Vec<T>, AllocError>
    ensures { IfOk result (λ all. all.items ≡ replicate len item) }
{
    let mut all = Vec::with_capacity(alloc, len)?;
    all.resize(len, item)?;
    Ok(all)
}

// A bitmap of `len` bits that aren't set.
#[tactic(auto, using(crate::proofs::Replicas::bit_runs))]
pub(crate) fn unset_bits(alloc: Global, len: usize) -> Result<Bitmap, AllocError>
    ensures { IfOk result (λ bits. bits ≡ replicate len false) }
{
    let bytes = Buffer::new(repeated::<u8>(alloc, 0, len.div_ceil(8))?)?;
    match Bitmap::try_new(bytes, len) {
        Ok(bits) => Ok(bits),
        Err(_) => unreachable!(),
    }
}

// The offsets of `len` slots without values.
pub(crate) fn zero_offsets<O: Offset>(
    alloc: Global,
    len: usize,
) -> Result<OffsetsBuffer<O>, AllocError>
    requires { 0 < O.limit }
    ensures { IfOk result (λ offsets. offsets ≡ replicate (len + 1) 0) }
{
    let Some(count) = len.checked_add(1) else {
        return Err(AllocError);
    };
    let Some(zero) = O::from_usize(0) else {
        unreachable!();
    };
    let offsets = Buffer::new(repeated(alloc, zero, count)?)?;
    match OffsetsBuffer::try_new(offsets) {
        Ok(offsets) => Ok(offsets),
        Err(_) => unreachable!(),
    }
}

// The offsets of `len` lists without values, of 64 bits for large lists.
pub(crate) fn list_offsets(
    alloc: Global,
    is_large: bool,
    len: usize,
) -> Result<ListOffsets, AllocError>
    ensures places { IfOk result (λ offsets. list_places offsets ≡ replicate (len + 1) 0) }
    ensures width { IfOk result
        (λ offsets. list_with (list_width offsets) ≡ physical_single (list_form is_large)) }
{
    if is_large {
        return Ok(ListOffsets::Large(zero_offsets::<i64>(alloc, len)?));
    }
    Ok(ListOffsets::Small(zero_offsets::<i32>(alloc, len)?))
}
