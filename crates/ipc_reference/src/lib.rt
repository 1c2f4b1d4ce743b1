//! A plain reference program for batches: slow, recursive, on whole lists.
//!
//! Its contracts say that it computes the definitions, for columns of integers, texts, lists and
//! structs. Tests compare the readers with it.
#![tactic(auto)]

pub mod batch;
pub mod entries;
pub mod kinds;
pub mod numbers;
pub mod record;
pub mod slots;
pub mod well;
