//! Writes files.
#![tactic(auto)]

pub mod append;
pub mod blocks;
pub mod calls;
pub mod file;
pub mod laws;
pub mod prepared;
pub mod sending;
pub mod writer;
