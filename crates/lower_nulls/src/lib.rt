//! Arrays of null slots, and arrays without slots, of any data type.
#![tactic(auto)]

pub mod error;
mod flat;
mod keys;
mod nested;
mod numbers;
mod parts;
mod unions;

pub use nested::{new_empty_array, new_null_array};
