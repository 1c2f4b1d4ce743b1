//! Comparisons of byte strings with a byte string, byte by byte.
ghost use Rattle.std.specs.Prelude.{◌≡◌, IfOk};
ghost use Rattle.std.specs.Cmp.Lexicographic.{slice_cmp};
ghost use Rattle.std.specs.Ordering.{nat_cmp, is_eq, is_ne, is_lt, is_le, is_gt, is_ge};
ghost use Rattle.lower_flat_arrays.specs.Options.{spans};
ghost use Rattle.lower_aggregate.specs.Compared.{compared, passes};

use crate::comparison::array::booleans;
use crate::comparison::operator::Operator;
use lower::offset::Offset;
use lower_builders::bitmap::MutableBitmap;
use lower_flat_arrays::{BinaryArray, BooleanArray};
use std::alloc::{AllocError, Global};

// Whether each slot passes.
fn compare_scalar<O: Offset>(
    alloc: Global,
    lhs: &BinaryArray<O>,
    rhs: &[u8],
    operator: Operator,
) -> Result<BooleanArray, AllocError>
    ensures { let slots = spans lhs.now in
        let seen = compared (passes operator) (slice_cmp nat_cmp) slots rhs.now lhs.now.validity in
        IfOk result (λ a. a ≡ seen) }
{
    let mut bits = MutableBitmap::with_capacity(alloc, lhs.len())?;
    for index in 0..lhs.len() {
        bits.push(operator.passes(lhs.value(index).cmp(rhs)))?;
    }
    booleans(bits, lhs.validity())
}

/// Returns for each slot whether it is equal to `rhs`. It is null where the slot is.
///
/// It fails only if an allocation fails.
pub fn eq_scalar<O: Offset>(
    alloc: Global,
    lhs: &BinaryArray<O>,
    rhs: &[u8],
) -> Result<BooleanArray, AllocError>
    ensures { let slots = spans lhs.now in
        let seen = compared is_eq (slice_cmp nat_cmp) slots rhs.now lhs.now.validity in
        IfOk result (λ a. a ≡ seen) }
{
    compare_scalar(alloc, lhs, rhs, Operator::Eq)
}

/// Returns for each slot whether it isn't equal to `rhs`. It is null where the slot is.
///
/// It fails only if an allocation fails.
pub fn neq_scalar<O: Offset>(
    alloc: Global,
    lhs: &BinaryArray<O>,
    rhs: &[u8],
) -> Result<BooleanArray, AllocError>
    ensures { let slots = spans lhs.now in
        let seen = compared is_ne (slice_cmp nat_cmp) slots rhs.now lhs.now.validity in
        IfOk result (λ a. a ≡ seen) }
{
    compare_scalar(alloc, lhs, rhs, Operator::Neq)
}

/// Returns for each slot whether it is less than `rhs`. It is null where the slot is.
///
/// It fails only if an allocation fails.
pub fn lt_scalar<O: Offset>(
    alloc: Global,
    lhs: &BinaryArray<O>,
    rhs: &[u8],
) -> Result<BooleanArray, AllocError>
    ensures { let slots = spans lhs.now in
        let seen = compared is_lt (slice_cmp nat_cmp) slots rhs.now lhs.now.validity in
        IfOk result (λ a. a ≡ seen) }
{
    compare_scalar(alloc, lhs, rhs, Operator::Lt)
}

/// Returns for each slot whether it is less than or equal to `rhs`. It is null where the slot is.
///
/// It fails only if an allocation fails.
pub fn lt_eq_scalar<O: Offset>(
    alloc: Global,
    lhs: &BinaryArray<O>,
    rhs: &[u8],
) -> Result<BooleanArray, AllocError>
    ensures { let slots = spans lhs.now in
        let seen = compared is_le (slice_cmp nat_cmp) slots rhs.now lhs.now.validity in
        IfOk result (λ a. a ≡ seen) }
{
    compare_scalar(alloc, lhs, rhs, Operator::LtEq)
}

/// Returns for each slot whether it is greater than `rhs`. It is null where the slot is.
///
/// It fails only if an allocation fails.
pub fn gt_scalar<O: Offset>(
    alloc: Global,
    lhs: &BinaryArray<O>,
    rhs: &[u8],
) -> Result<BooleanArray, AllocError>
    ensures { let slots = spans lhs.now in
        let seen = compared is_gt (slice_cmp nat_cmp) slots rhs.now lhs.now.validity in
        IfOk result (λ a. a ≡ seen) }
{
    compare_scalar(alloc, lhs, rhs, Operator::Gt)
}

/// Returns for each slot whether it is greater than or equal to `rhs`. It is null where the slot
/// is.
///
/// It fails only if an allocation fails.
pub fn gt_eq_scalar<O: Offset>(
    alloc: Global,
    lhs: &BinaryArray<O>,
    rhs: &[u8],
) -> Result<BooleanArray, AllocError>
    ensures { let slots = spans lhs.now in
        let seen = compared is_ge (slice_cmp nat_cmp) slots rhs.now lhs.now.validity in
        IfOk result (λ a. a ≡ seen) }
{
    compare_scalar(alloc, lhs, rhs, Operator::GtEq)
}
