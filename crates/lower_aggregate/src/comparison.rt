//! Comparisons of each slot of an array with a value.
mod array;
pub mod binary;
pub mod boolean;
mod operator;
pub mod primitive;
pub mod utf8;
