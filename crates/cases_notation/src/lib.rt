//! The notation of test cases.
//!
//! JSON is decoded to types, tables and bytes, and results are built as text.
#![tactic(auto)]

pub mod bytes;
pub mod calls;
pub mod damages;
pub mod decoder;
pub mod failure;
pub mod runs;
pub mod tables;
pub mod text;
pub mod types;
