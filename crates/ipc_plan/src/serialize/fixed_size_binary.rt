//! Plans arrays of byte strings of one length.
//!
//! Arrow columnar format, "Fixed-size Primitive Layout".
ghost use Rattle.std.specs.Prelude.{◌+◌, ◌^◌, ◌<◌, ◌≤◌, OnOk};
ghost use Rattle.lower_arrays.specs.Flat.{fixed_layout};
ghost use Rattle.ipc_model.specs.Offers.{written_levels};
ghost use Rattle.ipc_plan.specs.Taking.{TakesLevels};
ghost use Rattle.ipc_plan.specs.Plans.{Adds};

use super::offsets::scaled;
use super::validity::plan_start;
use crate::pieces::Piece;
use crate::plan::{Plan, PlanFault, push_buffer};
use lower_arrays::array::FixedSizeBinaryArray;

// Plans an array of byte strings of one length.
pub(crate) fn plan_fixed_size_binary<'a>(
    plan: &mut Plan<'a>,
    array: &'a FixedSizeBinaryArray,
    offset: usize,
    len: usize,
) -> Result<(), PlanFault>
    requires small { plan.old.end < 2 ^ 63 }
    requires inside { offset + len ≤ array.now.len }
    ensures grows { OnOk result (Adds plan.old plan.new (written_levels (fixed_layout array.now) offset len)) }
    ensures takes { TakesLevels result (written_levels (fixed_layout array.now) offset len) plan.old.end plan.new.end }
{
    let count = array.len();
    prove!(len <= count);
    let values = array.values().as_slice();
    let from = scaled(offset, array.size(), count, values.len());
    let to = scaled(offset + len, array.size(), count, values.len());
    plan_start(plan, array.validity(), offset, len)?;
    push_buffer(plan, Piece::Bytes(&values[from..to]), to - from)
}
