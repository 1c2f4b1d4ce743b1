//! Worked examples of the definitions of `ipc_model`: bytes that are written out, and what they
//! mean. The functions here do nothing: each states some examples, which the checker computes. No
//! crate depends on this one, so that a new example has no other crate proved again.
#![tactic(auto)]

pub mod edges;
pub mod numbers;
pub mod rows;
