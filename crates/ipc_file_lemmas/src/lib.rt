//! What the bytes of a file writer mean.
#![tactic(auto)]

pub mod laws;
