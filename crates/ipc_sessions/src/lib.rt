//! Files that are created, and then appended to in sessions.
//!
//! Each session has its own writer.
#![tactic(auto)]

pub mod created;
pub mod laws;
pub mod sessions;
