//! What the bytes of Arrow streams and files mean, as definitions (in `specs`).
//!
//! The functions here do nothing: each states a theorem on the definitions.
#![tactic(auto)]

pub mod batches;
pub mod columns;
pub mod dictionaries;
pub mod files;
pub mod frame;
pub mod streams;
