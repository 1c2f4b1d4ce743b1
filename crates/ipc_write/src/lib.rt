//! Writes Arrow IPC streams.
#![tactic(auto)]

pub mod calls;
pub mod checks;
pub mod common;
pub mod common_sync;
pub mod stream;
