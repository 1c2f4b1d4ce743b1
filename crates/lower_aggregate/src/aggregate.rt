//! The least and the greatest value of an array. Nulls don't count.
mod binary;
mod boolean;
mod first;
mod primitive;
mod utf8;

pub use binary::{max_binary, min_binary};
pub use boolean::{max_boolean, min_boolean};
pub use primitive::{max_primitive, min_primitive};
pub use utf8::{max_string, min_string};
