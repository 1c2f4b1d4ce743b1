//! Plans arrays of numbers (Arrow columnar format, "Fixed-size Primitive Layout").
ghost use Rattle.std.specs.Prelude.{◌≡◌, ◌+◌, ◌^◌, ◌<◌, ◌≤◌, length, OnOk};
ghost use Rattle.lower_validation.specs.AnyNumbers.{numbers_seen};
ghost use Rattle.lower_arrays.specs.Layouts.{numbers};
ghost use Rattle.ipc_plan.specs.Pieces.{slice_numbers, slice_type};
ghost use Rattle.lower_flat_arrays.specs.Validities.{part};
ghost use Rattle.lower_arrays.specs.AnyLayouts.{any_primitive_layout};
ghost use Rattle.ipc_model.specs.Offers.{written_levels};
ghost use Rattle.ipc_plan.specs.Taking.{TakesLevels};
ghost use Rattle.ipc_plan.specs.Plans.{Adds, IsSpelt};

use super::numbers::{plan_numbers, values_in};
use super::validity::plan_start;
use crate::pieces::NumberSlice;
use crate::plan::{Plan, PlanFault};
use lower_arrays::array::AnyPrimitive;

// Plans an array of numbers.
pub(crate) fn plan_primitive<'a>(
    plan: &mut Plan<'a>,
    array: &'a AnyPrimitive,
    offset: usize,
    len: usize,
) -> Result<(), PlanFault>
    requires small { plan.old.end < 2 ^ 63 }
    requires inside { offset + len ≤ (numbers_seen array.now).len }
    ensures grows { OnOk result (Adds plan.old plan.new (written_levels (any_primitive_layout array.now) offset len)) }
    ensures takes { TakesLevels result (written_levels (any_primitive_layout array.now) offset len) plan.old.end plan.new.end }
{
    plan_start(plan, array.validity(), offset, len)?;
    plan_numbers(plan, numbers_in(array, offset, len))?;
    Ok(())
}

// The numbers of `len` slots from slot `offset`.
#[tactic(auto, using(crate::proofs::Numbers::number_slices))]
fn numbers_in<'a>(array: &'a AnyPrimitive, offset: usize, len: usize) -> NumberSlice<'a>
    requires { offset + len ≤ (numbers_seen array.now).len }
    ensures form { slice_type result ≡ (numbers_seen array.now).number }
    ensures numbers { slice_numbers result ≡ part offset len (numbers_seen array.now).numbers }
    ensures len { length (slice_numbers result) ≡ len }
    ensures spelt { IsSpelt result }
{
    match array {
        AnyPrimitive::Int8(array) => NumberSlice::Int8(values_in(array, offset, len)),
        AnyPrimitive::Int16(array) => NumberSlice::Int16(values_in(array, offset, len)),
        AnyPrimitive::Int32(array) => NumberSlice::Int32(values_in(array, offset, len)),
        AnyPrimitive::Int64(array) => NumberSlice::Int64(values_in(array, offset, len)),
        AnyPrimitive::Int128(array) => NumberSlice::Int128(values_in(array, offset, len)),
        AnyPrimitive::Int256(array) => NumberSlice::Int256(values_in(array, offset, len)),
        AnyPrimitive::UInt8(array) => NumberSlice::UInt8(values_in(array, offset, len)),
        AnyPrimitive::UInt16(array) => NumberSlice::UInt16(values_in(array, offset, len)),
        AnyPrimitive::UInt32(array) => NumberSlice::UInt32(values_in(array, offset, len)),
        AnyPrimitive::UInt64(array) => NumberSlice::UInt64(values_in(array, offset, len)),
        AnyPrimitive::DaysMs(array) => NumberSlice::DaysMs(values_in(array, offset, len)),
        AnyPrimitive::MonthDayNano(array) => {
            NumberSlice::MonthDayNano(values_in(array, offset, len))
        }
    }
}
