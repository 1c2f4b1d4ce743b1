//! Reads that refuse schemas and footers which cost more than a limit.
#![tactic(auto)]

pub mod file;
pub mod stream;
