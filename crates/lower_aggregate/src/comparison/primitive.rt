//! Comparisons of numbers with a number.
ghost use Rattle.std.specs.Prelude.{◌≡◌, IfOk};
ghost use Rattle.std.specs.Ordering.{is_eq, is_ne, is_lt, is_le, is_gt, is_ge};
ghost use Rattle.lower_aggregate.specs.Compared.{compared, passes};

use crate::comparison::array::booleans;
use crate::comparison::operator::Operator;
use lower::types::NativeType;
use lower_builders::bitmap::MutableBitmap;
use lower_flat_arrays::{BooleanArray, PrimitiveArray};
use std::alloc::{AllocError, Global};

// Whether each slot passes.
fn compare_scalar<T: NativeType + Ord>(
    alloc: Global,
    lhs: &PrimitiveArray<T>,
    rhs: T,
    operator: Operator,
) -> Result<BooleanArray, AllocError>
    ensures { let seen = compared (passes operator) T.cmp lhs.now.values rhs lhs.now.validity in
        IfOk result (λ a. a ≡ seen) }
{
    let mut bits = MutableBitmap::with_capacity(alloc, lhs.len())?;
    let values = lhs.values().as_slice();
    for value in values {
        bits.push(operator.passes(value.cmp(&rhs)))?;
    }
    booleans(bits, lhs.validity())
}

/// Returns for each slot whether it is equal to `rhs`. It is null where the slot is.
///
/// It fails only if an allocation fails.
pub fn eq_scalar<T: NativeType + Ord>(
    alloc: Global,
    lhs: &PrimitiveArray<T>,
    rhs: T,
) -> Result<BooleanArray, AllocError>
    ensures { let seen = compared is_eq T.cmp lhs.now.values rhs lhs.now.validity in
        IfOk result (λ a. a ≡ seen) }
{
    compare_scalar(alloc, lhs, rhs, Operator::Eq)
}

/// Returns for each slot whether it isn't equal to `rhs`. It is null where the slot is.
///
/// It fails only if an allocation fails.
pub fn neq_scalar<T: NativeType + Ord>(
    alloc: Global,
    lhs: &PrimitiveArray<T>,
    rhs: T,
) -> Result<BooleanArray, AllocError>
    ensures { let seen = compared is_ne T.cmp lhs.now.values rhs lhs.now.validity in
        IfOk result (λ a. a ≡ seen) }
{
    compare_scalar(alloc, lhs, rhs, Operator::Neq)
}

/// Returns for each slot whether it is less than `rhs`. It is null where the slot is.
///
/// It fails only if an allocation fails.
pub fn lt_scalar<T: NativeType + Ord>(
    alloc: Global,
    lhs: &PrimitiveArray<T>,
    rhs: T,
) -> Result<BooleanArray, AllocError>
    ensures { let seen = compared is_lt T.cmp lhs.now.values rhs lhs.now.validity in
        IfOk result (λ a. a ≡ seen) }
{
    compare_scalar(alloc, lhs, rhs, Operator::Lt)
}

/// Returns for each slot whether it is less than or equal to `rhs`. It is null where the slot is.
///
/// It fails only if an allocation fails.
pub fn lt_eq_scalar<T: NativeType + Ord>(
    alloc: Global,
    lhs: &PrimitiveArray<T>,
    rhs: T,
) -> Result<BooleanArray, AllocError>
    ensures { let seen = compared is_le T.cmp lhs.now.values rhs lhs.now.validity in
        IfOk result (λ a. a ≡ seen) }
{
    compare_scalar(alloc, lhs, rhs, Operator::LtEq)
}

/// Returns for each slot whether it is greater than `rhs`. It is null where the slot is.
///
/// It fails only if an allocation fails.
pub fn gt_scalar<T: NativeType + Ord>(
    alloc: Global,
    lhs: &PrimitiveArray<T>,
    rhs: T,
) -> Result<BooleanArray, AllocError>
    ensures { let seen = compared is_gt T.cmp lhs.now.values rhs lhs.now.validity in
        IfOk result (λ a. a ≡ seen) }
{
    compare_scalar(alloc, lhs, rhs, Operator::Gt)
}

/// Returns for each slot whether it is greater than or equal to `rhs`. It is null where the slot
/// is.
///
/// It fails only if an allocation fails.
pub fn gt_eq_scalar<T: NativeType + Ord>(
    alloc: Global,
    lhs: &PrimitiveArray<T>,
    rhs: T,
) -> Result<BooleanArray, AllocError>
    ensures { let seen = compared is_ge T.cmp lhs.now.values rhs lhs.now.validity in
        IfOk result (λ a. a ≡ seen) }
{
    compare_scalar(alloc, lhs, rhs, Operator::GtEq)
}
