//! Encodes chunks as the messages of a stream.
#![tactic(auto)]

pub mod common;
pub mod laws;
pub mod lengths;
pub mod messages;
mod writable;
