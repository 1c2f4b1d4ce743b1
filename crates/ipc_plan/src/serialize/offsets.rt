//! Plans buffers of offsets, and finds where slots begin.
//!
//! Arrow columnar format, "Variable-size Binary Layout" and "Variable-size List Layout".
ghost use Rattle.std.specs.Prelude.{◌≡◌, ◌-◌, slice_index, ◌+◌, ◌*◌, ◌^◌, ◌<◌, ◌≤◌, [], ◌∷◌, length, All, OnOk};
ghost use Rattle.std.specs.Int.{w32, w64};
ghost use Rattle.std.specs.Int.RustNames.{FitsSigned};
ghost use Rattle.lower_types.specs.declared.Endianness.{Endianness};
ghost use Rattle.lower_types.specs.declared.PrimitiveType.TheVariants as Named;
ghost use Rattle.std.specs.Option.{option_copied};
ghost use Rattle.lower_flat_arrays.specs.Validities.{part, cut_validity, ValidityHolds};
ghost use Rattle.lower.specs.Offsets.{IsOffsets};
ghost use Rattle.ipc_plan.specs.OffsetViews.{places_of, type_of_offsets};
ghost use Rattle.ipc_plan.specs.Pieces.{offset_bytes, piece_bytes};
ghost use Rattle.lower_validation.specs.AnyOffsets.{list_places, list_width};
ghost use Rattle.ipc_model.specs.Offers.{offsets_length, validity_length};
ghost use Rattle.ipc_plan.specs.Taking.{TakesBuffers, TakesLevel};
ghost use Rattle.ipc_plan.specs.Plans.{AddsHead, AddsOffsets};

use super::numbers::read_ranges;
use super::validity::plan_start;
use crate::pieces::{NumberSlice, Piece};
use crate::plan::{Plan, PlanFault, push_buffer};
use lower::bitmap::Bitmap;
use lower::offset::OffsetsBuffer;
use lower_arrays::array::ListOffsets;

// Offsets of 32 or 64 bits.
#[derive(Clone, Copy)]
pub(crate) enum Offsets<'a> {
    Small(&'a OffsetsBuffer<i32>),
    Large(&'a OffsetsBuffer<i64>),
}

// The offsets of lists.
pub(crate) fn list_offsets(offsets: &ListOffsets) -> Offsets<'_>
    ensures places { places_of result ≡ list_places offsets.now }
    ensures width { type_of_offsets result ≡ list_width offsets.now }
{
    match offsets {
        ListOffsets::Small(offsets) => Offsets::Small(offsets),
        ListOffsets::Large(offsets) => Offsets::Large(offsets),
    }
}

// Plans the node, the validity and the offsets of some slots.
pub(crate) fn plan_head<'a>(
    plan: &mut Plan<'a>,
    validity: Option<&'a Bitmap>,
    offsets: Offsets<'a>,
    offset: usize,
    len: usize,
) -> Result<(), PlanFault>
    requires small { plan.old.end < 2 ^ 63 }
    requires inside { offset + len < length (places_of offsets) }
    requires validity { ValidityHolds (option_copied validity) (offset + len) }
    ensures grows { OnOk result (AddsHead plan.old plan.new len (type_of_offsets offsets.entry) (part offset (len + 1) (places_of offsets.entry)) (cut_validity offset len (option_copied validity.entry))) }
    ensures takes { TakesLevel result len (validity_length (cut_validity offset len (option_copied validity.entry)) len ∷ offsets_length (type_of_offsets offsets.entry) len ∷ []) plan.old.end plan.new.end }
{
    plan_start(plan, validity, offset, len)?;
    match offsets {
        Offsets::Small(offsets) => plan_small_offsets(plan, offsets, offset, len),
        Offsets::Large(offsets) => plan_large_offsets(plan, offsets, offset, len),
    }
}

// Offsets, each minus the first one. If that is 0, they are sent as they are.
fn small_piece(offsets: &[i32]) -> Piece<'_>
    requires { 0 < length offsets.now }
    ensures bytes { (order : Endianness) → piece_bytes order result ≡ offset_bytes w32 (2 ^ 32) order offsets.now }
    ensures range { All (FitsSigned w32) offsets.now }
{
    read_ranges(offsets);
    if offsets[0] == 0 {
        Piece::Numbers(NumberSlice::Int32(offsets))
    } else {
        Piece::SmallOffsets(offsets)
    }
}

// Plans the offsets of `len` slots from slot `offset`, one more than slots, each minus the first
// one.
fn plan_small_offsets<'a>(
    plan: &mut Plan<'a>,
    offsets: &'a OffsetsBuffer<i32>,
    offset: usize,
    len: usize,
) -> Result<(), PlanFault>
    requires small { plan.old.end < 2 ^ 63 }
    requires inside { offset + len < length offsets.now }
    ensures grows { OnOk result (AddsOffsets plan.old plan.new Named.Int32 (part offset (len + 1) offsets.now)) }
    ensures takes { TakesBuffers result (offsets_length Named.Int32 len ∷ []) plan.old.end plan.new.end }
{
    // The call makes the invariant of the offsets known to the proof.
    let _ = offsets.len();
    let part = &offsets.as_slice()[offset..offset + len + 1];
    let piece = small_piece(part);
    let Some(count) = part.len().checked_mul(4) else {
        return Err(PlanFault::Large);
    };
    push_buffer(plan, piece, count)
}

// Offsets, each minus the first one. If that is 0, they are sent as they are.
fn large_piece(offsets: &[i64]) -> Piece<'_>
    requires { 0 < length offsets.now }
    ensures bytes { (order : Endianness) → piece_bytes order result ≡ offset_bytes w64 (2 ^ 64) order offsets.now }
    ensures range { All (FitsSigned w64) offsets.now }
{
    read_ranges(offsets);
    if offsets[0] == 0 {
        Piece::Numbers(NumberSlice::Int64(offsets))
    } else {
        Piece::LargeOffsets(offsets)
    }
}

// Plans the offsets of `len` slots from slot `offset`, one more than slots, each minus the first
// one.
fn plan_large_offsets<'a>(
    plan: &mut Plan<'a>,
    offsets: &'a OffsetsBuffer<i64>,
    offset: usize,
    len: usize,
) -> Result<(), PlanFault>
    requires small { plan.old.end < 2 ^ 63 }
    requires inside { offset + len < length offsets.now }
    ensures grows { OnOk result (AddsOffsets plan.old plan.new Named.Int64 (part offset (len + 1) offsets.now)) }
    ensures takes { TakesBuffers result (offsets_length Named.Int64 len ∷ []) plan.old.end plan.new.end }
{
    // The call makes the invariant of the offsets known to the proof.
    let _ = offsets.len();
    let part = &offsets.as_slice()[offset..offset + len + 1];
    let piece = large_piece(part);
    let Some(count) = part.len().checked_mul(8) else {
        return Err(PlanFault::Large);
    };
    push_buffer(plan, piece, count)
}

// The start and the end of `len` slots from slot `offset`.
pub(crate) fn range_of(offsets: &Offsets<'_>, offset: usize, len: usize) -> (usize, usize)
    requires inside { offset + len < length (places_of offsets.now) }
    ensures from { result.0 ≡ slice_index (places_of offsets.now) offset }
    ensures to { result.1 ≡ slice_index (places_of offsets.now) (offset + len) }
    ensures order { result.0 ≤ result.1 }
    ensures within { result.1 ≤ slice_index (places_of offsets.now) (length (places_of offsets.now) - 1) }
{
    let count = offset_count(offsets);
    prove!(offset < count);
    prove!(len < count);
    (place_at(offsets, offset), place_at(offsets, offset + len))
}

// The offset at an index.
fn place_at(offsets: &Offsets<'_>, index: usize) -> usize
    requires { index < length (places_of offsets.now) }
    ensures { result ≡ slice_index (places_of offsets.now) index }
{
    match offsets {
        Offsets::Small(offsets) => offsets.get(index),
        Offsets::Large(offsets) => offsets.get(index),
    }
}

// The number of offsets, one more than slots.
fn offset_count(offsets: &Offsets<'_>) -> usize
    ensures len { result ≡ length (places_of offsets.now) }
    ensures offsets { IsOffsets (places_of offsets.now) }
{
    match offsets {
        Offsets::Small(offsets) => offsets.len(),
        Offsets::Large(offsets) => offsets.len(),
    }
}

// The start of slot `place` of `count` slots with `size` items each, of `total` items.
pub(crate) fn scaled(place: usize, size: usize, count: usize, total: usize) -> usize
    requires inside { place ≤ count }
    requires all { total ≡ count * size }
    ensures value { result ≡ place * size }
    ensures within { result ≤ total }
{
    // Only the clauses use these.
    let _ = (count, total);
    place * size
}
