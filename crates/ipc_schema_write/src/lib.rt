//! Writes the schemas of streams and files.
#![tactic(auto)]

pub mod defaults;
pub mod dictionaries;
mod fields;
pub mod metadata;
pub mod schema;
mod types;
pub mod weights;
mod writable;
