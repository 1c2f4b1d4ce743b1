//! Ranges of slots.
ghost use Rattle.std.specs.Prelude.{◌↔◌, ◌+◌, ◌≤◌, IsTrue};

/// Returns whether the `len` slots from `offset` are among the first `count`.
pub fn is_range(offset: usize, len: usize, count: usize) -> bool
    ensures { IsTrue result ↔ (offset + len ≤ count) }
{
    match offset.checked_add(len) {
        Some(end) => end <= count,
        None => false,
    }
}
