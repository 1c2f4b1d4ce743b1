//! Reads files: the Arrow columnar format, "IPC File Format".
mod batch;
mod block;
mod dictionaries;
mod exact;
mod footer;
mod metadata;
mod pairs;

pub use batch::read_batch;
pub use dictionaries::read_file_dictionaries;
pub use footer::deserialize_footer;
pub use metadata::{
    FileFooter, FileMetadata, files_from_the_beginning, read_file_metadata, read_footer,
};
