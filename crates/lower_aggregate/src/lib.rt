//! The least and the greatest value of an array, and comparisons with a value.
#![tactic(auto)]

pub mod aggregate;
pub mod comparison;
