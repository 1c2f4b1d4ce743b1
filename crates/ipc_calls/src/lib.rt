//! Lists of calls of a writer, each with its own arguments, and the bytes after them.
#![tactic(auto)]

pub mod files;
pub mod laws;
pub mod streams;
