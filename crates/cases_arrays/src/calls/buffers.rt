//! The calls of bitmaps and offsets. A slice may be left out.
//!
//! - `"bits_of": {"bits": BITS, "slice": [OFFSET, LEN]}` gives the bits, the bytes that contain
//!   them, and the index of the first bit in these.
//! - `"offsets_of": {"offsets": [..], "slice": [OFFSET, LEN]}` gives offsets of 32 bits, and the
//!   last one.
//! - `"offset_of_length": ["int32", 9]` gives the offset for so many slots, or `null`.

use crate::arrays::{cut_of, offsets};
use crate::parts::{put_bits, put_each_offset};
use cases_notation::bytes::bits;
use cases_notation::decoder::Decoder;
use cases_notation::text::Text;
use lower::bitmap::Bitmap;
use lower::offset::{Offset, OffsetsBuffer};
use serde_json::Value;

/// Bits, and the bytes that contain them.
pub fn bits_of(d: &mut Decoder, out: &mut Text, value: &Value) {
    let part = d.member(value, "bits");
    if let Some(bits) = bits(d, part) {
        let bits = part_of_bits(d, bits, value);
        if let Some(copied) = d.take(bits.clone()) {
            put_stored(out, &copied);
        }
    }
}

fn part_of_bits(d: &mut Decoder, bits: Bitmap, value: &Value) -> Bitmap {
    match cut_of(d, value, "slice", bits.len()) {
        None => bits,
        Some((offset, len)) => bits.sliced(offset, len),
    }
}

fn put_stored(out: &mut Text, bits: &Bitmap) {
    let (bytes, start, len) = bits.as_slice();
    out.put("{\"len\":");
    out.show(&len);
    out.put(",\"bits\":");
    put_bits(out, bits);
    out.put(",\"start\":");
    out.show(&start);
    out.put(",\"bytes\":");
    out.hex(bytes);
    out.put("}");
}

/// Offsets, and the last one.
pub fn offsets_of(d: &mut Decoder, out: &mut Text, value: &Value) {
    if let Some(offsets) = offsets(d, value) {
        let offsets = part_of_offsets(d, offsets, value);
        out.put("{\"offsets\":[");
        put_each_offset(out, &offsets);
        out.put("],\"last\":");
        out.show(&offsets.last());
        out.put("}");
    }
}

fn part_of_offsets(
    d: &mut Decoder,
    offsets: OffsetsBuffer<i32>,
    value: &Value,
) -> OffsetsBuffer<i32> {
    let slots = offsets.len().saturating_sub(1);
    match cut_of(d, value, "slice", slots) {
        None => offsets,
        Some((offset, len)) => offsets.sliced(offset, len),
    }
}

// The types of offsets, by whether they have 64 bits.
const OFFSET_TYPES: [(&str, bool); 2] = [("int32", false), ("int64", true)];

/// The offset for so many slots or bytes, if it fits into its type.
pub fn offset_of_length(d: &mut Decoder, out: &mut Text, value: &Value) {
    let (offset_type, length) = d.both(value, "offset_of_length");
    let length = d.count(Some(length), "length");
    let is_long = d.choice(Some(offset_type), &OFFSET_TYPES, "type", false);
    match offset_of(length, is_long) {
        Some(offset) => out.show(&offset),
        None => out.put("null"),
    }
}

fn offset_of(length: usize, is_long: bool) -> Option<i64> {
    if is_long {
        return i64::from_usize(length);
    }
    match i32::from_usize(length) {
        Some(offset) => Some(i64::from(offset)),
        None => None,
    }
}
