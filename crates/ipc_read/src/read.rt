//! Reads columns from the entries of a batch.
pub mod common;
pub mod dictionaries;
pub mod header;

pub use ipc_read_flat::read::Dictionaries;
