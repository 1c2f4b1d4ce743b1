//! Devices that fail or that move few bytes, and fixtures of several test crates.
//!
//! The fixtures are chunks, a file, and traces of what calls return.
#![tactic(auto)]

pub mod column_kinds;
pub mod dictionary_chunks;
pub mod dictionary_file;
pub mod failing_runs;
pub mod faulty;
pub mod fixtures;
pub mod out_of_memory;
pub mod pieces;
pub mod single_message;
pub mod trace;
