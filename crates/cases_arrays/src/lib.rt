//! The arrays, schemas and chunks of test cases, and their slots as text.
#![tactic(auto)]

pub mod arrays;
pub mod calls;
pub mod chunks;
pub mod numbers;
pub mod parts;
pub mod same_schemas;
pub mod schemas;
pub mod slots;
