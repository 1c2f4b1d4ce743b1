//! Plans the start of most levels: a node and a validity bitmap.
//!
//! Arrow columnar format, "Validity bitmaps".
ghost use Rattle.std.specs.Prelude.{◌≡◌, ℕ, slice_index, ◌+◌, ◌^◌, ◌<◌, ◌≤◌, [], ◌∷◌, length, IfErr, IfOk, OnOk};
ghost use Rattle.std.specs.Option.{option_copied};
ghost use Rattle.lower_flat_arrays.specs.Validities.{part, cut_validity, null_count_of, ValidityHolds};
ghost use Rattle.ipc_plan.specs.declared.plan.PlanFault.TheVariants.{NoMemory};
ghost use Rattle.ipc_model.specs.Entries.{bytes_for};
ghost use Rattle.ipc_model.specs.Offers.{validity_length};
ghost use Rattle.ipc_plan.specs.Taking.{TakesBuffers, TakesLevel};
ghost use Rattle.ipc_plan.specs.Plans.{AddsBits, AddsClear, AddsStart, AddsValidity};

use crate::pieces::Piece;
use crate::plan::{Plan, PlanFault, push_buffer, push_node};
use lower::bitmap::Bitmap;
use lower_flat_arrays::validity::unset_bits;

// Plans the node and the validity of some slots.
pub(crate) fn plan_start<'a>(
    plan: &mut Plan<'a>,
    validity: Option<&'a Bitmap>,
    offset: usize,
    len: usize,
) -> Result<(), PlanFault>
    requires small { plan.old.end < 2 ^ 63 }
    requires validity { ValidityHolds (option_copied validity) (offset + len) }
    ensures grows { OnOk result (AddsStart plan.old plan.new len (cut_validity offset len (option_copied validity.entry))) }
    ensures takes { TakesLevel result len (validity_length (cut_validity offset len (option_copied validity.entry)) len ∷ []) plan.old.end plan.new.end }
{
    let nulls = nulls_in(validity, offset, len)?;
    push_node(plan, len, nulls)?;
    plan_validity(plan, validity, offset, len)?;
    Ok(())
}

// The number of null slots among some. A clone of a bitmap copies no bits and allocates nothing; it
// fails only if the count of owners can't grow.
fn nulls_in(validity: Option<&Bitmap>, offset: usize, len: usize) -> Result<usize, PlanFault>
    requires inside { ValidityHolds (option_copied validity) (offset + len) }
    ensures count { IfOk result (λ n. n ≡ null_count_of (cut_validity offset len (option_copied validity.entry))) }
    ensures few { IfOk result (λ n. n ≤ len) }
    ensures only { IfErr result (λ e. e ≡ NoMemory) }
{
    match validity {
        None => Ok(0),
        Some(bits) => {
            let bits = bits.clone()?;
            Ok(unset_bits(&Some(bits.sliced(offset, len))))
        }
    }
}

// Plans the validity of some slots: its bits, or an empty buffer if there is none.
fn plan_validity<'a>(
    plan: &mut Plan<'a>,
    validity: Option<&'a Bitmap>,
    offset: usize,
    len: usize,
) -> Result<(), PlanFault>
    requires small { plan.old.end < 2 ^ 63 }
    requires inside { ValidityHolds (option_copied validity) (offset + len) }
    ensures grows { OnOk result (AddsValidity plan.old plan.new (cut_validity offset len (option_copied validity.entry))) }
    ensures takes { TakesBuffers result (validity_length (cut_validity offset len (option_copied validity.entry)) len ∷ []) plan.old.end plan.new.end }
{
    match validity {
        None => push_buffer(plan, Piece::Bytes(&[]), 0),
        Some(bits) => plan_bits(plan, bits, offset, len),
    }
}

// Plans bits of a bitmap. They are sent as they are if the first is bit 0 of a byte; otherwise they
// are shifted, with zeros after the last.
pub(crate) fn plan_bits<'a>(
    plan: &mut Plan<'a>,
    bits: &'a Bitmap,
    offset: usize,
    len: usize,
) -> Result<(), PlanFault>
    requires small { plan.old.end < 2 ^ 63 }
    requires inside { offset + len ≤ length bits.now }
    ensures grows { OnOk result (AddsBits plan.old plan.new (part offset len bits.now)) }
    ensures takes { TakesBuffers result (bytes_for len ∷ []) plan.old.end plan.new.end }
    ensures clear { OnOk result (AddsClear plan.old plan.new len) }
{
    let (bytes, start, _) = bits.as_slice();
    let place = start + offset % 8;
    let first = offset / 8 + place / 8;
    let bit = place % 8;
    let count = len.div_ceil(8);
    if bit == 0 {
        push_buffer(plan, Piece::Bytes(&bytes[first..first + count]), count)
    } else {
        are_bytes(bytes);
        push_buffer(plan, Piece::Bits(&bytes[first..], bit, len), count)
    }
}

// Each byte of a slice is below 256. That is known of a parameter, so nothing has to be done.
fn are_bytes(bytes: &[u8])
    ensures { (k : ℕ) → slice_index bytes.now k < 256 }
{
    let _ = bytes;
}
