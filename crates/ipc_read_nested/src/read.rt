//! Reads columns from the entries of a batch.
pub mod array;
pub mod deserialize;
pub mod ids;
