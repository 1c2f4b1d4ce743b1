//! Whole files in memory: what a file writer wrote is what a file reader reads.
#![tactic(auto)]

pub mod laws;
pub mod read;
pub mod round_trip;
