//! Plans arrays of texts (Arrow columnar format, "Variable-size Binary Layout").
ghost use Rattle.std.specs.Prelude.{◌+◌, ◌^◌, ◌<◌, ◌≤◌, OnOk};
ghost use Rattle.lower_types.specs.declared.PrimitiveType.TheVariants as Named;
ghost use Rattle.lower_flat_arrays.specs.Spans.{span_count};
ghost use Rattle.lower_arrays.specs.Flat.{texts_layout};
ghost use Rattle.ipc_model.specs.Offers.{written_levels};
ghost use Rattle.ipc_plan.specs.Taking.{TakesLevels};
ghost use Rattle.ipc_plan.specs.Plans.{Adds};

use super::binary::plan_cut_out;
use super::offsets::Offsets;
use crate::plan::{Plan, PlanFault};
use lower_arrays::array::Utf8Array;

// Plans an array of texts with 32-bit offsets.
pub(crate) fn plan_small_utf8<'a>(
    plan: &mut Plan<'a>,
    array: &'a Utf8Array<i32>,
    offset: usize,
    len: usize,
) -> Result<(), PlanFault>
    requires small { plan.old.end < 2 ^ 63 }
    requires inside { offset + len ≤ span_count array.now.offsets }
    ensures grows { OnOk result (Adds plan.old plan.new (written_levels (texts_layout Named.Int32 array.now) offset len)) }
    ensures takes { TakesLevels result (written_levels (texts_layout Named.Int32 array.now) offset len) plan.old.end plan.new.end }
{
    let offsets = Offsets::Small(array.offsets());
    plan_cut_out(
        plan,
        array.validity(),
        offsets,
        array.values().as_slice(),
        offset,
        len,
    )
}

// Plans an array of texts with 64-bit offsets.
pub(crate) fn plan_large_utf8<'a>(
    plan: &mut Plan<'a>,
    array: &'a Utf8Array<i64>,
    offset: usize,
    len: usize,
) -> Result<(), PlanFault>
    requires small { plan.old.end < 2 ^ 63 }
    requires inside { offset + len ≤ span_count array.now.offsets }
    ensures grows { OnOk result (Adds plan.old plan.new (written_levels (texts_layout Named.Int64 array.now) offset len)) }
    ensures takes { TakesLevels result (written_levels (texts_layout Named.Int64 array.now) offset len) plan.old.end plan.new.end }
{
    let offsets = Offsets::Large(array.offsets());
    plan_cut_out(
        plan,
        array.validity(),
        offsets,
        array.values().as_slice(),
        offset,
        len,
    )
}
