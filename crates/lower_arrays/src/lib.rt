//! Arrays: columns in memory.
//!
//! The constructors check the rules of the Arrow columnar format, "Physical Memory Layout", so that
//! each array keeps them. A clone or a slice shares the memory and copies no slot; no clause says
//! so, but tests check it. Slicing allocates nothing: it has no error for that. There are no arrays
//! of floats.
#![tactic(auto)]

pub mod array;
mod equality;
pub mod held;
pub mod value;

pub use equality::{equal, has_same_range, has_same_slot};
