//! The least and the greatest boolean of an array: `false` is less than `true`.
ghost use Rattle.std.specs.Prelude.{MatchOption};
ghost use Rattle.std.specs.Ordering.{bool_cmp};
ghost use Rattle.lower_flat_arrays.specs.Options.{options};
ghost use Rattle.lower_aggregate.specs.Firsts.{turned, AreAllNull, IsFirst};

use crate::aggregate::first::{greater, lesser};
use lower_flat_arrays::BooleanArray;

/// Returns the least boolean of the array, or `None` if no slot is valid.
pub fn min_boolean(array: &BooleanArray) -> Option<bool>
    ensures { let slots = options array.now.validity array.now.values in
        MatchOption result (AreAllNull slots) (λ m. IsFirst bool_cmp slots m) }
{
    let mut least = None;
    for index in 0..array.len() {
        least = lesser(least, array.get(index));
    }
    least
}

/// Returns the greatest boolean of the array, or `None` if no slot is valid.
pub fn max_boolean(array: &BooleanArray) -> Option<bool>
    ensures { let slots = options array.now.validity array.now.values in
        MatchOption result (AreAllNull slots) (λ m. IsFirst (turned bool_cmp) slots m) }
{
    let mut greatest = None;
    for index in 0..array.len() {
        greatest = greater(greatest, array.get(index));
    }
    greatest
}
