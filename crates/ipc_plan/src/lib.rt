//! Plans the message of a chunk, and sends the planned body to a device.
//!
//! One pass over the columns gives the nodes, the buffers, and the pieces of the body, which borrow
//! the arrays. The body is never built in memory.
#![tactic(auto)]

pub mod laws;
pub mod pieces;
pub mod plan;
pub mod sending;
pub mod serialize;
