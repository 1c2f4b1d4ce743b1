//! A plain reference program for schema messages, on views of their tables.
//!
//! Its contracts say that it computes the definition, for fields of integers, texts, lists and
//! structs at any depth. Tests compare the reader with it.
#![tactic(auto)]

mod field;
mod head;
mod metadata;
pub mod schema;
mod seen;
mod shape;
pub mod types;
