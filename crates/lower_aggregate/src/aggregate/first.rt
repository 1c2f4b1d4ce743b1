//! The first of two values, by an order.
ghost use Rattle.std.specs.Prelude.{◌≡◌};
ghost use Rattle.lower_aggregate.specs.Firsts.{turned, first_of};

// The lesser of two values that may be absent; the first if they are equal.
pub(crate) fn lesser<T: Copy + Ord>(least: Option<T>, slot: Option<T>) -> Option<T>
    ensures { result ≡ first_of T.cmp least slot }
{
    match (least, slot) {
        (Some(old), Some(value)) => if value.cmp(&old).is_lt() { slot } else { least },
        (None, _) => slot,
        (_, None) => least,
    }
}

// The greater of two values that may be absent; the first if they are equal.
pub(crate) fn greater<T: Copy + Ord>(most: Option<T>, slot: Option<T>) -> Option<T>
    ensures { result ≡ first_of (turned T.cmp) most slot }
{
    match (most, slot) {
        (Some(old), Some(value)) => if old.cmp(&value).is_lt() { slot } else { most },
        (None, _) => slot,
        (_, None) => most,
    }
}
