//! Whether concatenated texts are UTF-8.
ghost use Rattle.std.specs.Prelude.{◌-◌, ◌<◌, ◌≤◌, ◌↔◌, length, drop, IsTrue};
ghost use Rattle.std.specs.Str.{IsAscii, IsUtf8};
ghost use Rattle.lower_flat_arrays.specs.Spans.{EndsWithin, AreTexts, IsCut, AreCut};

use lower::offset::{Offset, OffsetsBuffer};

/// Returns whether each text is UTF-8.
///
/// It checks the bytes from the first text to the last once, and then the first byte of each text.
pub(crate) fn are_texts<O: Offset>(offsets: &OffsetsBuffer<O>, values: &[u8]) -> bool
    requires { EndsWithin offsets.now values.now }
    ensures { IsTrue result ↔ AreTexts offsets.now values.now }
{
    let bytes = &values[..offsets.last()];
    if are_ascii(bytes) {
        return true;
    }
    is_utf8_from(bytes, offsets.get(0)) && are_cut(offsets, bytes)
}

// Whether all bytes are ASCII. The loop has no early exit, so that it is vectorized.
fn are_ascii(bytes: &[u8]) -> bool
    ensures { IsTrue result ↔ IsAscii bytes.now }
{
    let mut are_ascii = true;
    for byte in bytes {
        if *byte >= 128 {
            are_ascii = false;
        }
    }
    are_ascii
}

// Whether the bytes from `first` on are UTF-8.
fn is_utf8_from(bytes: &[u8], first: usize) -> bool
    requires { first ≤ length bytes.now }
    ensures { IsTrue result ↔ IsUtf8 (drop first bytes.now) }
{
    simdutf8::basic::from_utf8(&bytes[first..]).is_ok()
}

// Whether no text begins within a character.
fn are_cut<O: Offset>(offsets: &OffsetsBuffer<O>, bytes: &[u8]) -> bool
    ensures { IsTrue result ↔ AreCut offsets.now bytes.now (length offsets.now) }
{
    let mut are_cut = true;
    for index in 0..offsets.len() {
        if !is_cut(bytes, offsets.get(index)) {
            are_cut = false;
        }
    }
    are_cut
}

// Whether no character spans this offset.
fn is_cut(bytes: &[u8], at: usize) -> bool
    ensures { IsTrue result ↔ IsCut bytes.now at }
{
    match bytes.get(at) {
        None => true,
        Some(byte) => *byte < 128 || 192 <= *byte,
    }
}
