//! Reads schemas from their tables.

mod metadata;
pub mod pairs;
pub mod schema;
mod types;
