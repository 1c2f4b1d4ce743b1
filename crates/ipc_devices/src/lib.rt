//! Errors, and devices.
//!
//! The devices specify when a call of theirs can fail and, if they are memory, which bytes they
//! have.
#![tactic(auto)]

pub mod device;
pub mod fault;
pub mod memory;
pub mod reading;
pub mod watched;

pub use device::{Failures, Reads, Seeks, Writes, itself};
pub use fault::{ArgFault, Fault, Nyi, OutOfSpecKind, Result, SchemaFault, StateFault, TableFault};
pub use memory::{Bytes, MemFile};
pub use reading::{fill, read_bytes, read_into};
pub use watched::Watched;
