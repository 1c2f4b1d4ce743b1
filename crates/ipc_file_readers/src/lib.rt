//! Readers of files, which return the chunks of their blocks in order.
#![tactic(auto)]

pub mod read;
