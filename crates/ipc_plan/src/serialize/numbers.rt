//! Plans buffers of numbers.
ghost use Rattle.std.specs.Prelude.{◌≡◌, ◌+◌, ◌*◌, ◌^◌, ◌<◌, ◌≤◌, [], ◌∷◌, length, All, IfSome, IfNone, OnOk};
ghost use Rattle.lower_types.specs.NumberTypes.{width_of};
ghost use Rattle.lower_arrays.specs.Layouts.{numbers};
ghost use Rattle.ipc_plan.specs.Pieces.{slice_numbers, slice_type};
ghost use Rattle.lower_flat_arrays.specs.Validities.{part};
ghost use Rattle.ipc_plan.specs.Taking.{TakesBuffers};
ghost use Rattle.ipc_plan.specs.Plans.{AddsNumbers, AreSpelt, IsSpelt};

use crate::pieces::{NumberSlice, Piece};
use crate::plan::{Plan, PlanFault, push_buffer};
use lower::buffer::Buffer;
use lower::types::NativeType;
use lower_arrays::array::PrimitiveArray;

// Plans a buffer of numbers.
pub(crate) fn plan_numbers<'a>(
    plan: &mut Plan<'a>,
    numbers: NumberSlice<'a>,
) -> Result<(), PlanFault>
    requires small { plan.old.end < 2 ^ 63 }
    requires spelt { IsSpelt numbers }
    ensures grows { OnOk result (AddsNumbers plan.old plan.new (slice_type numbers.entry) (slice_numbers numbers.entry)) }
    ensures takes { TakesBuffers result (width_of (slice_type numbers.entry) * length (slice_numbers numbers.entry) ∷ []) plan.old.end plan.new.end }
{
    let Some(len) = bytes_of(&numbers) else {
        return Err(PlanFault::Large);
    };
    push_buffer(plan, Piece::Numbers(numbers), len)
}

// The length of numbers in bytes, or None if it is 2^64 or more.
#[tactic(auto, using(crate::proofs::Numbers::number_lengths))]
fn bytes_of(numbers: &NumberSlice<'_>) -> Option<usize>
    ensures value { IfSome result (λ n. n ≡ width_of (slice_type numbers.now) * length (slice_numbers numbers.now)) }
    ensures large { IfNone result (2 ^ 64 ≤ width_of (slice_type numbers.now) * length (slice_numbers numbers.now)) }
{
    match numbers {
        NumberSlice::Int8(values) => values.len().checked_mul(1),
        NumberSlice::Int16(values) => values.len().checked_mul(2),
        NumberSlice::Int32(values) => values.len().checked_mul(4),
        NumberSlice::Int64(values) => values.len().checked_mul(8),
        NumberSlice::Int128(values) => values.len().checked_mul(16),
        NumberSlice::Int256(values) => values.len().checked_mul(32),
        NumberSlice::UInt8(values) => values.len().checked_mul(1),
        NumberSlice::UInt16(values) => values.len().checked_mul(2),
        NumberSlice::UInt32(values) => values.len().checked_mul(4),
        NumberSlice::UInt64(values) => values.len().checked_mul(8),
        NumberSlice::DaysMs(values) => values.len().checked_mul(8),
        NumberSlice::MonthDayNano(values) => values.len().checked_mul(16),
    }
}

// The `len` values of a buffer from index `offset`.
pub(crate) fn slice_in<T: NativeType>(values: &Buffer<T>, offset: usize, len: usize) -> &[T]
    requires { offset + len ≤ length values.now }
    ensures values { result.now ≡ part offset len values.now }
    ensures len { length result.now ≡ len }
    ensures spelt { AreSpelt T.primitive T.number T.spelt result.now }
{
    let values = &values.as_slice()[offset..offset + len];
    are_spelt(values);
    values
}

// The values of `len` slots from slot `offset`.
pub(crate) fn values_in<T: NativeType>(array: &PrimitiveArray<T>, offset: usize, len: usize) -> &[T]
    requires { offset + len ≤ length array.now.values }
    ensures values { result.now ≡ part offset len array.now.values }
    ensures len { length result.now ≡ len }
    ensures spelt { AreSpelt T.primitive T.number T.spelt result.now }
{
    slice_in(array.values(), offset, len)
}

// Shows that each number reads back from its bytes, in either byte order.
fn are_spelt<T: NativeType>(values: &[T])
    ensures { AreSpelt T.primitive T.number T.spelt values.now }
{
    read_ranges(values);
}

// Shows that each number is in the range of its type, by reading it. The compiler removes the loop.
pub(crate) fn read_ranges<T: NativeType>(values: &[T])
    ensures { All T.fits values.now }
{
    for value in values {
        let _ = value.is_same(*value);
    }
}
