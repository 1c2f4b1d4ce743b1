//! Comparisons of booleans with a boolean: `false` is less than `true`.
ghost use Rattle.std.specs.Prelude.{◌≡◌, IfOk};
ghost use Rattle.std.specs.Ordering.{bool_cmp, is_eq, is_ne, is_lt, is_le, is_gt, is_ge};
ghost use Rattle.lower_aggregate.specs.Compared.{compared, passes};

use crate::comparison::array::booleans;
use crate::comparison::operator::Operator;
use lower_builders::bitmap::MutableBitmap;
use lower_flat_arrays::BooleanArray;
use std::alloc::{AllocError, Global};

// Whether each slot passes.
fn compare_scalar(
    alloc: Global,
    lhs: &BooleanArray,
    rhs: bool,
    operator: Operator,
) -> Result<BooleanArray, AllocError>
    ensures { let seen = compared (passes operator) bool_cmp lhs.now.values rhs lhs.now.validity in
        IfOk result (λ a. a ≡ seen) }
{
    let mut bits = MutableBitmap::with_capacity(alloc, lhs.len())?;
    for index in 0..lhs.len() {
        bits.push(operator.passes(lhs.value(index).cmp(&rhs)))?;
    }
    booleans(bits, lhs.validity())
}

/// Returns for each slot whether it is equal to `rhs`. It is null where the slot is.
///
/// It fails only if an allocation fails.
pub fn eq_scalar(alloc: Global, lhs: &BooleanArray, rhs: bool) -> Result<BooleanArray, AllocError>
    ensures { let seen = compared is_eq bool_cmp lhs.now.values rhs lhs.now.validity in
        IfOk result (λ a. a ≡ seen) }
{
    compare_scalar(alloc, lhs, rhs, Operator::Eq)
}

/// Returns for each slot whether it isn't equal to `rhs`. It is null where the slot is.
///
/// It fails only if an allocation fails.
pub fn neq_scalar(alloc: Global, lhs: &BooleanArray, rhs: bool) -> Result<BooleanArray, AllocError>
    ensures { let seen = compared is_ne bool_cmp lhs.now.values rhs lhs.now.validity in
        IfOk result (λ a. a ≡ seen) }
{
    compare_scalar(alloc, lhs, rhs, Operator::Neq)
}

/// Returns for each slot whether it is less than `rhs`. It is null where the slot is.
///
/// It fails only if an allocation fails.
pub fn lt_scalar(alloc: Global, lhs: &BooleanArray, rhs: bool) -> Result<BooleanArray, AllocError>
    ensures { let seen = compared is_lt bool_cmp lhs.now.values rhs lhs.now.validity in
        IfOk result (λ a. a ≡ seen) }
{
    compare_scalar(alloc, lhs, rhs, Operator::Lt)
}

/// Returns for each slot whether it is less than or equal to `rhs`. It is null where the slot is.
///
/// It fails only if an allocation fails.
pub fn lt_eq_scalar(
    alloc: Global,
    lhs: &BooleanArray,
    rhs: bool,
) -> Result<BooleanArray, AllocError>
    ensures { let seen = compared is_le bool_cmp lhs.now.values rhs lhs.now.validity in
        IfOk result (λ a. a ≡ seen) }
{
    compare_scalar(alloc, lhs, rhs, Operator::LtEq)
}

/// Returns for each slot whether it is greater than `rhs`. It is null where the slot is.
///
/// It fails only if an allocation fails.
pub fn gt_scalar(alloc: Global, lhs: &BooleanArray, rhs: bool) -> Result<BooleanArray, AllocError>
    ensures { let seen = compared is_gt bool_cmp lhs.now.values rhs lhs.now.validity in
        IfOk result (λ a. a ≡ seen) }
{
    compare_scalar(alloc, lhs, rhs, Operator::Gt)
}

/// Returns for each slot whether it is greater than or equal to `rhs`. It is null where the slot
/// is.
///
/// It fails only if an allocation fails.
pub fn gt_eq_scalar(
    alloc: Global,
    lhs: &BooleanArray,
    rhs: bool,
) -> Result<BooleanArray, AllocError>
    ensures { let seen = compared is_ge bool_cmp lhs.now.values rhs lhs.now.validity in
        IfOk result (λ a. a ≡ seen) }
{
    compare_scalar(alloc, lhs, rhs, Operator::GtEq)
}
