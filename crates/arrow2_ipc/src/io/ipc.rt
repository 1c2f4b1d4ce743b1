//! Arrow's IPC streams and files.
pub mod append;
pub mod fault;
pub mod format;
pub mod read;
pub mod write;

pub use ipc_base::ipc::{IpcField, IpcSchema, fits};
