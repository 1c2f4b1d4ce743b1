//! The cost of reading a schema or a footer.
#![tactic(auto)]

pub mod cost;
