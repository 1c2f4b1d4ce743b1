//! Reads the Arrow IPC streaming format.
pub mod begun;
pub mod frame;
pub mod message;
pub mod stream;
