//! Plans arrays of byte strings (Arrow columnar format, "Variable-size Binary Layout").
ghost use Rattle.std.specs.Prelude.{◌+◌, ◌^◌, ◌<◌, ◌≤◌, [], ◌∷◌, length, OnOk};
ghost use Rattle.lower_types.specs.declared.PrimitiveType.TheVariants as Named;
ghost use Rattle.std.specs.Option.{option_copied};
ghost use Rattle.lower_flat_arrays.specs.Validities.{part, cut_validity, ValidityHolds};
ghost use Rattle.ipc_plan.specs.OffsetViews.{places_of, type_of_offsets};
ghost use Rattle.lower_flat_arrays.specs.Spans.{EndsWithin, span_count};
ghost use Rattle.lower_arrays.specs.Flat.{bytes_layout};
ghost use Rattle.ipc_model.specs.Offers.{cut_length, offsets_length, validity_length, written_levels};
ghost use Rattle.ipc_plan.specs.Taking.{TakesLevel, TakesLevels};
ghost use Rattle.ipc_plan.specs.Plans.{Adds, AddsSpans};

use super::offsets::{Offsets, plan_head, range_of};
use crate::pieces::Piece;
use crate::plan::{Plan, PlanFault, push_buffer};
use lower::bitmap::Bitmap;
use lower_arrays::array::BinaryArray;

// Plans an array of byte strings with 32-bit offsets.
pub(crate) fn plan_small_binary<'a>(
    plan: &mut Plan<'a>,
    array: &'a BinaryArray<i32>,
    offset: usize,
    len: usize,
) -> Result<(), PlanFault>
    requires small { plan.old.end < 2 ^ 63 }
    requires inside { offset + len ≤ span_count array.now.offsets }
    ensures grows { OnOk result (Adds plan.old plan.new (written_levels (bytes_layout Named.Int32 array.now) offset len)) }
    ensures takes { TakesLevels result (written_levels (bytes_layout Named.Int32 array.now) offset len) plan.old.end plan.new.end }
{
    let offsets = Offsets::Small(array.offsets());
    plan_cut_out(
        plan,
        array.validity(),
        offsets,
        array.values().as_slice(),
        offset,
        len,
    )
}

// Plans an array of byte strings with 64-bit offsets.
pub(crate) fn plan_large_binary<'a>(
    plan: &mut Plan<'a>,
    array: &'a BinaryArray<i64>,
    offset: usize,
    len: usize,
) -> Result<(), PlanFault>
    requires small { plan.old.end < 2 ^ 63 }
    requires inside { offset + len ≤ span_count array.now.offsets }
    ensures grows { OnOk result (Adds plan.old plan.new (written_levels (bytes_layout Named.Int64 array.now) offset len)) }
    ensures takes { TakesLevels result (written_levels (bytes_layout Named.Int64 array.now) offset len) plan.old.end plan.new.end }
{
    let offsets = Offsets::Large(array.offsets());
    plan_cut_out(
        plan,
        array.validity(),
        offsets,
        array.values().as_slice(),
        offset,
        len,
    )
}

// Plans slots of any length: node, validity, offsets, and the bytes between the first and the last
// offset.
pub(crate) fn plan_cut_out<'a>(
    plan: &mut Plan<'a>,
    validity: Option<&'a Bitmap>,
    offsets: Offsets<'a>,
    values: &'a [u8],
    offset: usize,
    len: usize,
) -> Result<(), PlanFault>
    requires small { plan.old.end < 2 ^ 63 }
    requires inside { offset + len < length (places_of offsets) }
    requires validity { ValidityHolds (option_copied validity) (offset + len) }
    requires within { EndsWithin (places_of offsets) values.now }
    ensures grows { OnOk result (AddsSpans plan.old plan.new len (type_of_offsets offsets.entry) (part offset (len + 1) (places_of offsets.entry)) values.now (cut_validity offset len (option_copied validity.entry))) }
    ensures takes { TakesLevel result len (validity_length (cut_validity offset len (option_copied validity.entry)) len ∷ offsets_length (type_of_offsets offsets.entry) len ∷ cut_length (part offset (len + 1) (places_of offsets.entry)) len ∷ []) plan.old.end plan.new.end }
{
    let (from, to) = range_of(&offsets, offset, len);
    plan_head(plan, validity, offsets, offset, len)?;
    push_buffer(plan, Piece::Bytes(&values[from..to]), to - from)
}
