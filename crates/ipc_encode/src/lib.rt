//! Encodes batches, appends arrays to batches, and pairs chunks with dictionary ids.
#![tactic(auto)]

pub mod batches;
pub mod common;
pub mod laws;
pub mod serialize;
