//! The reader of a file's chunks.
pub mod reader;
