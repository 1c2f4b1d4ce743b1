//! Selects columns of batches, and returns them in the requested order.
#![tactic(auto)]

pub mod read;

pub use ipc_devices::fault;
