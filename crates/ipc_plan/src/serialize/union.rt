//! Plans arrays of unions (Arrow columnar format, "Union Layout").
ghost use Rattle.std.specs.Prelude.{◌+◌, ◌^◌, ◌<◌, ◌≤◌, [], ◌∷◌, length, OnOk};
ghost use Rattle.lower_arrays.specs.Cuts.{cut_level};
ghost use Rattle.lower_arrays.specs.Layouts.{level};
ghost use Rattle.lower_arrays.specs.Unions.{union_layout};
ghost use Rattle.ipc_model.specs.Offers.{written_levels};
ghost use Rattle.ipc_plan.specs.Taking.{TakesLevels};
ghost use Rattle.ipc_plan.specs.Plans.{Adds};

use super::numbers::{plan_numbers, slice_in};
use super::{plan_beside, plan_whole};
use crate::pieces::NumberSlice;
use crate::plan::{Plan, PlanFault, push_node};
use lower_arrays::array::UnionArray;

// Plans unions: their own level, and the same slots of each child, or all slots if the union is
// dense.
#[cycle(plans)]
pub(crate) fn plan_union<'a>(
    plan: &mut Plan<'a>,
    array: &'a UnionArray,
    offset: usize,
    len: usize,
) -> Result<(), PlanFault>
    requires small { plan.old.end < 2 ^ 63 }
    requires inside { offset + len ≤ length array.now.types }
    ensures grows { OnOk result (Adds plan.old plan.new (written_levels (union_layout array.now) offset len)) }
    ensures takes { TakesLevels result (written_levels (union_layout array.now) offset len) plan.old.end plan.new.end }
{
    plan_union_level(plan, array, offset, len)?;
    match array.offsets() {
        None => plan_beside(plan, array.fields(), offset, len),
        Some(_places) => plan_whole(plan, array.fields()),
    }
}

// Plans the level of a union alone: its node, the type id of each slot, and for a dense union the
// offset of each slot in its whole child. It has no validity.
fn plan_union_level<'a>(
    plan: &mut Plan<'a>,
    array: &'a UnionArray,
    offset: usize,
    len: usize,
) -> Result<(), PlanFault>
    requires small { plan.old.end < 2 ^ 63 }
    requires inside { offset + len ≤ length array.now.types }
    ensures grows { OnOk result (Adds plan.old plan.new (cut_level offset len (level (union_layout array.now)) ∷ [])) }
    ensures takes { TakesLevels result (cut_level offset len (level (union_layout array.now)) ∷ []) plan.old.end plan.new.end }
{
    push_node(plan, len, 0)?;
    plan_numbers(
        plan,
        NumberSlice::Int8(slice_in(array.types(), offset, len)),
    )?;
    match array.offsets() {
        None => Ok(()),
        Some(places) => plan_numbers(plan, NumberSlice::Int32(slice_in(places, offset, len))),
    }
}
