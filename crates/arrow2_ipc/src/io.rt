//! Data formats.
pub mod ipc;
