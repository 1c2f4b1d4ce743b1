//! Plans arrays of structs (Arrow columnar format, "Struct Layout").
ghost use Rattle.std.specs.Prelude.{◌+◌, ◌^◌, ◌<◌, ◌≤◌, OnOk};
ghost use Rattle.lower_arrays.specs.Structs.{struct_layout};
ghost use Rattle.ipc_model.specs.Offers.{written_levels};
ghost use Rattle.ipc_plan.specs.Taking.{TakesLevels};
ghost use Rattle.ipc_plan.specs.Plans.{Adds};

use super::plan_beside;
use super::validity::plan_start;
use crate::plan::{Plan, PlanFault};
use lower_arrays::array::StructArray;

// Plans structs: their own level, and the same slots of each child.
#[cycle(plans)]
pub(crate) fn plan_struct<'a>(
    plan: &mut Plan<'a>,
    array: &'a StructArray,
    offset: usize,
    len: usize,
) -> Result<(), PlanFault>
    requires small { plan.old.end < 2 ^ 63 }
    requires inside { offset + len ≤ array.now.len }
    ensures grows { OnOk result (Adds plan.old plan.new (written_levels (struct_layout array.now) offset len)) }
    ensures takes { TakesLevels result (written_levels (struct_layout array.now) offset len) plan.old.end plan.new.end }
{
    plan_start(plan, array.validity(), offset, len)?;
    plan_beside(plan, array.values(), offset, len)
}
