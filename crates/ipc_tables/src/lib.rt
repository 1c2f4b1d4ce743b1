//! The tables in the metadata of Arrow messages and files, as values that are encoded.
//!
//! There is one module for each schema file of the Arrow format: `Schema.fbs` ([`schema`] and
//! [`types`]), `Message.fbs` ([`message`]) and `File.fbs` ([`file`]). The views in
//! `ipc_table_views` read the bytes.
#![tactic(auto)]

mod elements;
pub mod file;
pub mod message;
pub mod schema;
mod slots;
pub mod types;
