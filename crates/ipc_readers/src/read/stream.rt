//! Reads streams.
//!
//! Arrow columnar format, "IPC Streaming Format".
mod chunks;
mod metadata;
mod next;
mod reader;
pub mod runs;

pub use chunks::Chunks;
pub use metadata::{StreamMetadata, read_stream_metadata, version_of};
pub use reader::{StreamReader, StreamState};
