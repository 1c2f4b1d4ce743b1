//! Reads the columns of Arrow's record batches.
#![tactic(auto)]

pub mod read;
