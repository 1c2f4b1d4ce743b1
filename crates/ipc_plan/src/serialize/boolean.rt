//! Plans arrays of booleans (Arrow columnar format, "Fixed-size Primitive Layout").
ghost use Rattle.std.specs.Prelude.{◌+◌, ◌^◌, ◌<◌, ◌≤◌, length, OnOk};
ghost use Rattle.lower_arrays.specs.Flat.{boolean_layout};
ghost use Rattle.ipc_model.specs.Offers.{written_levels};
ghost use Rattle.ipc_plan.specs.Taking.{TakesLevels};
ghost use Rattle.ipc_plan.specs.Plans.{Adds};

use super::validity::{plan_bits, plan_start};
use crate::plan::{Plan, PlanFault};
use lower_arrays::array::BooleanArray;

// Plans an array of booleans.
pub(crate) fn plan_boolean<'a>(
    plan: &mut Plan<'a>,
    array: &'a BooleanArray,
    offset: usize,
    len: usize,
) -> Result<(), PlanFault>
    requires small { plan.old.end < 2 ^ 63 }
    requires inside { offset + len ≤ length array.now.values }
    ensures grows { OnOk result (Adds plan.old plan.new (written_levels (boolean_layout array.now) offset len)) }
    ensures takes { TakesLevels result (written_levels (boolean_layout array.now) offset len) plan.old.end plan.new.end }
{
    plan_start(plan, array.validity(), offset, len)?;
    plan_bits(plan, array.values(), offset, len)
}
