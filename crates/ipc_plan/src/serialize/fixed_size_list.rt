//! Plans arrays of lists of one length (Arrow columnar format, "Fixed-Size List Layout").
ghost use Rattle.std.specs.Prelude.{◌+◌, ◌^◌, ◌<◌, ◌≤◌, OnOk};
ghost use Rattle.lower_arrays.specs.FixedLists.{fixed_list_layout};
ghost use Rattle.ipc_model.specs.Offers.{written_levels};
ghost use Rattle.ipc_plan.specs.Taking.{TakesLevels};
ghost use Rattle.ipc_plan.specs.Plans.{Adds};

use super::offsets::scaled;
use super::plan_array;
use super::validity::plan_start;
use crate::plan::{Plan, PlanFault};
use lower_arrays::array::FixedSizeListArray;

// Plans lists of one length: their own level, and their slots of the child.
#[cycle(plans)]
pub(crate) fn plan_fixed_size_list<'a>(
    plan: &mut Plan<'a>,
    array: &'a FixedSizeListArray,
    offset: usize,
    len: usize,
) -> Result<(), PlanFault>
    requires small { plan.old.end < 2 ^ 63 }
    requires inside { offset + len ≤ array.now.len }
    ensures grows { OnOk result (Adds plan.old plan.new (written_levels (fixed_list_layout array.now) offset len)) }
    ensures takes { TakesLevels result (written_levels (fixed_list_layout array.now) offset len) plan.old.end plan.new.end }
{
    let count = array.len();
    prove!(len <= count);
    let total = array.values().len();
    let from = scaled(offset, array.size(), count, total);
    let to = scaled(offset + len, array.size(), count, total);
    plan_start(plan, array.validity(), offset, len)?;
    plan_array(plan, array.values(), from, to - from)
}
