//! Plans arrays of maps (Arrow columnar format, "Map Layout").
ghost use Rattle.std.specs.Prelude.{◌+◌, ◌^◌, ◌<◌, ◌≤◌, OnOk};
ghost use Rattle.lower_flat_arrays.specs.Spans.{span_count};
ghost use Rattle.lower_arrays.specs.Maps.{map_layout};
ghost use Rattle.ipc_model.specs.Offers.{written_levels};
ghost use Rattle.ipc_plan.specs.Taking.{TakesLevels};
ghost use Rattle.ipc_plan.specs.Plans.{Adds};

use super::offsets::{Offsets, plan_head, range_of};
use super::plan_array;
use crate::plan::{Plan, PlanFault};
use lower_arrays::array::MapArray;

// Plans maps: their own level, and the pairs between the first and the last offset.
#[cycle(plans)]
pub(crate) fn plan_map<'a>(
    plan: &mut Plan<'a>,
    array: &'a MapArray,
    offset: usize,
    len: usize,
) -> Result<(), PlanFault>
    requires small { plan.old.end < 2 ^ 63 }
    requires inside { offset + len ≤ span_count array.now.offsets }
    ensures grows { OnOk result (Adds plan.old plan.new (written_levels (map_layout array.now) offset len)) }
    ensures takes { TakesLevels result (written_levels (map_layout array.now) offset len) plan.old.end plan.new.end }
{
    let offsets = Offsets::Small(array.offsets());
    let (from, to) = range_of(&offsets, offset, len);
    plan_head(plan, array.validity(), offsets, offset, len)?;
    plan_array(plan, array.field(), from, to - from)
}
