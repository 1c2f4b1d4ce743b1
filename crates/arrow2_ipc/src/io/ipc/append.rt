//! Prepares to append, by only reading the file.
//!
//! `FileWriter::resume` then makes the writer.
pub use ipc_file_write::append::{Prepared, prepare};
pub use ipc_sessions::sessions::prepare_session;
