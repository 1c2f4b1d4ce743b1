//! Types that the readers and the writers of the IPC format share.
//!
//! They are chunks of columns, and the ids of dictionaries of the fields of a schema.
#![tactic(auto)]

pub mod chunk;
pub mod ipc;

pub use ipc_devices::fault;
