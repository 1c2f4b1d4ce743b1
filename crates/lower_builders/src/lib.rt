//! Builders of buffers and arrays: slots are pushed one by one, and `finish` returns the array.
//!
//! A call that fails leaves its builder as it was.
#![tactic(auto)]

pub mod binary;
pub mod bitmap;
pub mod boolean;
pub mod error;
pub mod fixed_size_binary;
pub mod offsets;
pub mod primitive;
pub mod utf8;
mod validity;
pub mod zero;
