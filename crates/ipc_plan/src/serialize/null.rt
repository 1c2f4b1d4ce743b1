//! Plans arrays of nulls (Arrow columnar format, "Null Layout").
ghost use Rattle.std.specs.Prelude.{◌^◌, ◌<◌, OnOk};
ghost use Rattle.lower_arrays.specs.Flat.{null_layout};
ghost use Rattle.ipc_model.specs.Offers.{written_levels};
ghost use Rattle.ipc_plan.specs.Taking.{TakesLevels};
ghost use Rattle.ipc_plan.specs.Plans.{Adds};

use crate::plan::{Plan, PlanFault, push_node};
use lower_arrays::array::NullArray;

// Plans an array of nulls, which is only a node.
pub(crate) fn plan_null(
    plan: &mut Plan<'_>,
    array: &NullArray,
    offset: usize,
    len: usize,
) -> Result<(), PlanFault>
    requires small { plan.old.end < 2 ^ 63 }
    ensures grows { OnOk result (Adds plan.old plan.new (written_levels (null_layout array.now) offset len)) }
    ensures takes { TakesLevels result (written_levels (null_layout array.now) offset len) plan.old.end plan.new.end }
{
    // The call makes the array's invariant known to the proof.
    let _ = array.len();
    push_node(plan, len, len)
}
