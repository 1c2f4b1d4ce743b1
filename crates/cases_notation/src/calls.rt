//! The calls of this library, by their names.

mod types;
pub mod views;

use crate::decoder::Decoder;
use crate::text::Text;
use serde_json::Value;

/// Appends what the call of this name gives, and returns whether there is such a call here.
pub fn put_call(d: &mut Decoder, out: &mut Text, name: &str, parts: &Value) -> bool {
    types::put_call(d, out, name, parts) || views::put_call(d, out, name, parts)
}
