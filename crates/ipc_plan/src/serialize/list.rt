//! Plans arrays of lists (Arrow columnar format, "Variable-size List Layout").
ghost use Rattle.std.specs.Prelude.{◌+◌, ◌^◌, ◌<◌, ◌≤◌, OnOk};
ghost use Rattle.lower_types.specs.declared.PrimitiveType.TheVariants.{Int32, Int64};
ghost use Rattle.lower_flat_arrays.specs.Spans.{span_count};
ghost use Rattle.lower_arrays.specs.Lists.{list_layout, list_layout_as};
ghost use Rattle.ipc_model.specs.Offers.{written_levels};
ghost use Rattle.ipc_plan.specs.Taking.{TakesLevels};
ghost use Rattle.ipc_plan.specs.Plans.{Adds};

use super::offsets::{list_offsets, plan_head, range_of};
use super::plan_array;
use crate::plan::{Plan, PlanFault};
use lower_arrays::array::ListArray;

// Plans lists: their own level, and the slots of the child between the first and the last offset.
// The variant of `AnyArray` doesn't count.
#[cycle(plans)]
pub(crate) fn plan_list<'a>(
    plan: &mut Plan<'a>,
    array: &'a ListArray,
    offset: usize,
    len: usize,
) -> Result<(), PlanFault>
    requires small { plan.old.end < 2 ^ 63 }
    requires inside { offset + len ≤ span_count array.now.offsets }
    ensures small { OnOk result (Adds plan.old plan.new
        (written_levels (list_layout_as Int32 array.now) offset len)) }
    ensures large { OnOk result (Adds plan.old plan.new
        (written_levels (list_layout_as Int64 array.now) offset len)) }
    ensures takes { TakesLevels result (written_levels (list_layout array.now) offset len) plan.old.end plan.new.end }
{
    let offsets = list_offsets(array.offsets());
    let (from, to) = range_of(&offsets, offset, len);
    plan_head(plan, array.validity(), offsets, offset, len)?;
    plan_array(plan, array.values(), from, to - from)
}
