//! Writing of streams and files.
//!
//! - `StreamWriter` and `FileWriter` write chunk by chunk, to any device.
//! - `create_file` and `append_session` write a file in sessions.
//! - The other calls write a schema, a chunk, an array or a message.
pub use ipc_chunks::common::{encode_chunk, encode_chunk_amortized};
pub use ipc_encode::common::{EncodedData, Record, WriteOptions};
pub use ipc_encode::serialize::write;
pub use ipc_file_write::calls::WrittenFile;
pub use ipc_file_write::writer::FileWriter;
pub use ipc_schema_write::defaults::default_ipc_fields;
pub use ipc_schema_write::schema::{schema_to_bytes, schema_to_bytes_as};
pub use ipc_sessions::created::{WrittenSessions, create_file, write_sessions};
pub use ipc_sessions::sessions::{
    Session, Sessions, append_session, append_to_file, run_sessions, write_chunks,
};
pub use ipc_tracker::tracker::DictionaryTracker;
pub use ipc_write::common_sync::{write_all, write_continuation, write_message};
pub use ipc_write::stream::{StreamWriter, WriterState};
