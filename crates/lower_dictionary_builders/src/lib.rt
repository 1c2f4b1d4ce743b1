//! Builders of dictionary-encoded arrays: slots are pushed one by one, and equal values have one
//! key.
//!
//! A call that fails leaves its builder as it was.
#![tactic(auto)]

pub mod key;
pub mod primitive;
pub mod utf8;
pub mod value;
