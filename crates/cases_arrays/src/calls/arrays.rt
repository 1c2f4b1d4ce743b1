//! The calls of arrays.
//!
//! - `"slots_of": ARRAY` gives how many slots are null, and the slots.
//! - `"parts_of": ARRAY` gives the parts as they are stored.
//! - `"are_same": [ARRAY, ARRAY]` gives whether the arrays are equal.
//! - `"is_same_as_clone": ARRAY` gives whether an array is equal to its clone.
//! - `"is_dictionary": ARRAY` gives whether it is a dictionary.

use crate::arrays::array;
use crate::parts::put_parts;
use crate::slots::put_slots;
use cases_notation::decoder::Decoder;
use cases_notation::text::Text;
use cases_notation::types::LEVELS;
use lower_arrays::array::{AnyArray, is_dictionary};
use lower_arrays::equal;
use serde_json::Value;

// An array and its clone.
fn with_clone(d: &mut Decoder, value: &Value) -> Option<(AnyArray, AnyArray)> {
    let array = array(d, value, LEVELS)?;
    let copied = d.take(array.clone())?;
    Some((array, copied))
}

/// How many slots of an array are null, and the slots of its clone.
pub fn slots_of(d: &mut Decoder, out: &mut Text, value: &Value) {
    if let Some((array, copied)) = with_clone(d, value) {
        out.put("{\"nulls\":");
        out.show(&array.null_count());
        out.put(",\"slots\":");
        put_slots(out, &copied, LEVELS);
        out.put("}");
    }
}

/// The parts of an array, and those of its clone where they differ.
pub fn parts_of(d: &mut Decoder, out: &mut Text, value: &Value) {
    if let Some((array, copied)) = with_clone(d, value) {
        let own = shown_parts(d, &array);
        let copied = shown_parts(d, &copied);
        out.put(own.as_str());
        if own != copied {
            out.put(", and of its clone ");
            out.put(copied.as_str());
        }
    }
}

fn shown_parts(d: &mut Decoder, array: &AnyArray) -> String {
    let alloc = d.alloc();
    let mut out = Text::new(alloc);
    put_parts(&mut out, array, LEVELS);
    let shown = out.finish();
    match d.take(shown) {
        Some(shown) => shown,
        None => String::new(alloc),
    }
}

/// Whether two arrays are equal.
pub fn are_same(d: &mut Decoder, out: &mut Text, value: &Value) {
    let (first, second) = d.both(value, "are_same");
    let first = array(d, first, LEVELS);
    let second = array(d, second, LEVELS);
    if let (Some(first), Some(second)) = (first, second) {
        out.show(&equal(&first, &second));
    }
}

/// Whether an array is equal to its clone.
pub fn is_same_as_clone(d: &mut Decoder, out: &mut Text, value: &Value) {
    if let Some((array, copied)) = with_clone(d, value) {
        out.show(&equal(&array, &copied));
    }
}

/// Whether an array is a dictionary.
pub fn is_dictionary_array(d: &mut Decoder, out: &mut Text, value: &Value) {
    if let Some(array) = array(d, value, LEVELS) {
        out.show(&is_dictionary(&array));
    }
}
