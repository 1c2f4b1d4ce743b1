//! Reads whole streams in memory, and states that what was written is read back.
#![tactic(auto)]

pub mod arrays;
pub mod columns;
pub mod read;
pub mod round_trip;
