//! The record batches, dictionary batches and projections of test cases.
#![tactic(auto)]

pub mod calls;
pub mod plain;
pub mod projections;
pub mod records;
