//! Calls that make arrays of the slots of others: `filter`, `take` and `concatenate`.
#![tactic(auto)]

mod binary;
mod bits;
mod boolean;
mod children;
pub mod concatenate;
mod copies;
mod dictionaries;
pub mod error;
pub mod filter;
mod fixed_lists;
mod fixed_size_binary;
mod gather;
mod items;
mod keys;
mod kinds;
mod leaves;
mod lists;
mod offsets;
mod primitive;
pub mod runs;
mod select;
pub mod take;
mod unions;
mod utf8;
