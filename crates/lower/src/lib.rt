//! Column types, and the memory of their values.
//!
//! No clause says that clones and slices share memory; tests check it. If a doc says that a call
//! allocates nothing, then the call can't fail for lack of memory.
#![tactic(auto)]

pub mod bitmap;
pub mod buffer;
pub mod datatypes;
pub mod error;
pub mod floats;
pub mod offset;
pub mod types;
