//! The files of test cases: built, written, appended to, and read.
#![tactic(auto)]

pub mod calls;
pub mod files;
pub mod written_files;
