//! Reads files.
#![tactic(auto)]

pub mod read;
