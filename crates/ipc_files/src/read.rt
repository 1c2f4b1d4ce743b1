//! Reads the Arrow IPC file format.
pub mod file;
