//! The encoded batches, devices and streams of test cases.
#![tactic(auto)]

pub mod calls;
pub mod plain_streams;
pub mod written;
