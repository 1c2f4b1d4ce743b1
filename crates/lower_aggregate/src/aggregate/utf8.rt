//! The least and the greatest text of an array, byte by byte.
ghost use Rattle.std.specs.Prelude.{MatchOption};
ghost use Rattle.std.specs.Cmp.Lexicographic.{slice_cmp};
ghost use Rattle.std.specs.Ordering.{nat_cmp};
ghost use Rattle.lower_flat_arrays.specs.Options.{options, spans};
ghost use Rattle.lower_aggregate.specs.Firsts.{turned, AreAllNull, IsFirst};

use crate::aggregate::first::{greater, lesser};
use lower::offset::Offset;
use lower_flat_arrays::Utf8Array;

/// Returns the least text of the array, or `None` if no slot is valid.
pub fn min_string<O: Offset>(array: &Utf8Array<O>) -> Option<&str>
    ensures { let slots = options array.now.validity (spans array.now) in
        MatchOption result (AreAllNull slots) (λ m. IsFirst (slice_cmp nat_cmp) slots m.now) }
{
    let mut least = None;
    for index in 0..array.len() {
        least = lesser(least, array.get(index));
    }
    least
}

/// Returns the greatest text of the array, or `None` if no slot is valid.
pub fn max_string<O: Offset>(array: &Utf8Array<O>) -> Option<&str>
    ensures { let slots = options array.now.validity (spans array.now) in
        let order = turned (slice_cmp nat_cmp) in
        MatchOption result (AreAllNull slots) (λ m. IsFirst order slots m.now) }
{
    let mut greatest = None;
    for index in 0..array.len() {
        greatest = greater(greatest, array.get(index));
    }
    greatest
}
