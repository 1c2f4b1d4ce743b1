//! Theorems about the number of bytes that arrays retain. The functions do nothing.
ghost use Rattle.lower_arrays.specs.Held.{HeldLaw};

/// A slice of an array retains no more bytes than the array.
#[tactic(auto, using(crate::proofs::HeldBytes::held_law))]
pub fn held_by_slices()
    ensures { HeldLaw }
{}
