//! Reading of streams and files.
//!
//! - `StreamReader` and `FileReader` read chunk by chunk, from any device.
//! - `read_stream` and `read_file` read a whole stream or file in memory.
//! - The other calls read a schema, a batch, a dictionary or a footer.
pub use ipc_costs::cost::{footer_cost, schema_cost};
pub use ipc_devices::OutOfSpecKind;
pub use ipc_file_readers::read::reader::FileReader;
pub use ipc_file_round_trip::read::{WholeFile, read_file, read_file_columns};
pub use ipc_files::read::file::{
    FileMetadata, read_batch, read_file_dictionaries, read_file_metadata,
};
pub use ipc_limits::file::read_file_metadata_within;
pub use ipc_limits::stream::read_stream_metadata_within;
pub use ipc_projection::read::prepare::prepare_projection;
pub use ipc_projection::read::projection::{
    ProjectionIter, ProjectionResult, apply_projection, is_prepared, is_projection, is_reordering,
};
pub use ipc_read::read::Dictionaries;
pub use ipc_read::read::common::read_record_batch;
pub use ipc_read::read::dictionaries::read_dictionary;
pub use ipc_readers::read::stream::{
    Chunks, StreamMetadata, StreamReader, StreamState, read_stream_metadata,
};
pub use ipc_round_trip::columns::read_stream_columns;
pub use ipc_round_trip::read::{WholeStream, read_stream};
pub use ipc_schema::read::schema::{deserialize_schema, deserialize_schema_counted};
