//! The least and the greatest number of an array.
ghost use Rattle.std.specs.Prelude.{MatchOption};
ghost use Rattle.lower_flat_arrays.specs.Options.{options};
ghost use Rattle.lower_aggregate.specs.Firsts.{turned, AreAllNull, IsFirst};

use crate::aggregate::first::{greater, lesser};
use lower::types::NativeType;
use lower_flat_arrays::PrimitiveArray;

/// Returns the least number of the array, or `None` if no slot is valid.
pub fn min_primitive<T: NativeType + Ord>(array: &PrimitiveArray<T>) -> Option<T>
    ensures { let slots = options array.now.validity array.now.values in
        MatchOption result (AreAllNull slots) (λ m. IsFirst T.cmp slots m) }
{
    let mut least = None;
    for index in 0..array.len() {
        least = lesser(least, array.get(index));
    }
    least
}

/// Returns the greatest number of the array, or `None` if no slot is valid.
pub fn max_primitive<T: NativeType + Ord>(array: &PrimitiveArray<T>) -> Option<T>
    ensures { let slots = options array.now.validity array.now.values in
        MatchOption result (AreAllNull slots) (λ m. IsFirst (turned T.cmp) slots m) }
{
    let mut greatest = None;
    for index in 0..array.len() {
        greatest = greater(greatest, array.get(index));
    }
    greatest
}
