//! Copies streams and files, in either format, and appends streams to files.
#![tactic(auto)]

pub mod append;
pub mod chunks;
pub mod files;
pub mod sinks;
pub mod sources;
pub mod streams;
