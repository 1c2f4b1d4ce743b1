//! arrow2's `chunk` and `io::ipc`, and what they need, under arrow2's paths.
//!
//! `io::ipc::fault` and `io::ipc::format` are paths of this library. All items are re-exported from
//! the crates below, which have their contracts.
#![tactic(auto)]

pub mod array;
pub mod bitmap;
pub mod compute;
pub mod datatypes;
pub mod io;
pub mod offset;
pub mod types;

pub use ipc_base::chunk;
pub use lower::{buffer, error};
