//! Whether slots of any length have the same bytes.
ghost use Rattle.std.specs.Prelude.{◌≡◌, ◌-◌, ◌<◌, ◌↔◌, length, IsTrue, slice_index};
ghost use Rattle.lower_flat_arrays.specs.Spans.{EndsWithin};
ghost use Rattle.lower_flat_arrays.specs.SameValues.{HasSameBytes, HasSameSteps, HasSameSpans, held, step};

use lower::offset::{Offset, OffsetsBuffer};

/// Returns whether each slot has the same bytes in both.
///
/// It compares the offsets once, and the bytes from the first slot to the last once.
pub(crate) fn has_same_spans<O: Offset>(
    lhs: &OffsetsBuffer<O>,
    lhs_values: &[u8],
    rhs: &OffsetsBuffer<O>,
    rhs_values: &[u8],
) -> bool
    requires count { length lhs.now ≡ length rhs.now }
    requires lhs_ends { EndsWithin lhs.now lhs_values.now }
    requires rhs_ends { EndsWithin rhs.now rhs_values.now }
    ensures { IsTrue result ↔ HasSameSpans lhs.now lhs_values.now rhs.now rhs_values.now }
{
    prove!(lhs.len() == rhs.len());
    has_same_steps(lhs, rhs) && has_same_bytes(held(lhs, lhs_values), held(rhs, rhs_values))
}

// The bytes from the first slot to the last.
#[tactic(auto, using(crate::proofs::SpanPlaces::offset_last))]
fn held<'a, O: Offset>(offsets: &OffsetsBuffer<O>, values: &'a [u8]) -> &'a [u8]
    requires { EndsWithin offsets.now values.now }
    ensures { result.now ≡ held offsets.now values.now }
{
    let end = offsets.last();
    &values[offsets.get(0)..end]
}

// Whether the slots have the same bounds, relative to the first. The loop has no early exit, so
// that it is vectorized.
fn has_same_steps<O: Offset>(lhs: &OffsetsBuffer<O>, rhs: &OffsetsBuffer<O>) -> bool
    requires { length lhs.now ≡ length rhs.now }
    ensures { IsTrue result ↔ HasSameSteps lhs.now rhs.now (length lhs.now) }
{
    let mut are_same = true;
    for index in 0..lhs.len() {
        if step(lhs, index) != step(rhs, index) {
            are_same = false;
        }
    }
    are_same
}

// The distance of an offset from the first.
#[tactic(auto, using(crate::proofs::SpanPlaces::offset_first))]
fn step<O: Offset>(offsets: &OffsetsBuffer<O>, index: usize) -> usize
    requires { index < length offsets.now }
    ensures { result ≡ step offsets.now index }
{
    prove!(index < offsets.len());
    offsets.get(index) - offsets.get(0)
}

/// Returns whether the bytes are the same. The loop has no early exit, so that it is vectorized.
pub(crate) fn has_same_bytes(lhs: &[u8], rhs: &[u8]) -> bool
    ensures { IsTrue result ↔ (lhs.now ≡ rhs.now) }
{
    if lhs.len() != rhs.len() {
        return false;
    }
    let mut are_same = true;
    for index in 0..lhs.len() {
        if lhs[index] != rhs[index] {
            are_same = false;
        }
    }
    are_same
}
