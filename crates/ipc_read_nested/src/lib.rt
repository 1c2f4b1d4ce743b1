//! Reads the columns of record batches, by their types.
#![tactic(auto)]

pub mod read;
pub mod rows;
