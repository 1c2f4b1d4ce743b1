//! The footers of files: which schemas and metadata they accept, and their encoding.
#![tactic(auto)]

pub mod footer;
pub mod laws;
pub mod weights;
