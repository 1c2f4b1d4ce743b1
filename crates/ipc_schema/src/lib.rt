//! Reads the schemas of streams and files.
#![tactic(auto)]

pub mod read;
