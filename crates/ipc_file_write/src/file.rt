//! The state of a file writer.
ghost use Rattle.std.specs.Prelude.{◌≡◌, true};
ghost use Rattle.lower.specs.TypeViews.{fields_view, pairs_of};
ghost use Rattle.ipc_base.specs.IdTrees.{all_ids_view};
ghost use Rattle.ipc_file_write.specs.Keeping.{StaysWritable};

use ipc_base::ipc::IpcField;
use ipc_encode::common::EncodedData;
use ipc_table_views::Block;
use ipc_tracker::DictionaryTracker;
use ipc_write::stream::WriterState;
use lower::datatypes::{Metadata, Schema};
use std::alloc::Global;

/// Writes a file: a schema, then chunks, then the footer with their offsets.
///
/// See "IPC File Format" in the Arrow columnar format. Call `start`, then `write` any number of
/// times, then `finish`. A writer made by `try_new` or `try_from_file` is started. Another order is
/// refused, and a refused call leaves the device and the writer as they were. After `Io` each of
/// the three returns `State(Failed)`; `into_inner` still returns the device.
#[derive(Drop)]
pub struct FileWriter<W> {
    pub(crate) alloc: Global,
    pub(crate) writer: W,
    pub(crate) state: WriterState,
    // whether numbers in bodies have their lowest byte first
    pub(crate) is_little_endian: bool,
    pub(crate) schema: Schema,
    // the dictionary ids that the writer was made with
    pub(crate) given: Option<Vec<IpcField>>,
    // the dictionary ids of the start
    pub(crate) ipc_fields: Vec<IpcField>,
    pub(crate) dictionary_blocks: Vec<Block>,
    pub(crate) record_blocks: Vec<Block>,
    // the offset of the next message in the file
    pub(crate) block_offsets: u64,
    // the size in bytes of the file that is appended to, else 0
    pub(crate) size: u64,
    pub(crate) custom_metadata: Metadata,
    // the dictionaries that were written, which can't be replaced
    pub(crate) dictionary_tracker: DictionaryTracker,
    // memory that callers may pass from one writer to another
    pub(crate) encoded_message: EncodedData,
    ghost keeps: { dictionary_tracker.cannot_replace ≡ true },
    ghost writable: { ∥ StaysWritable state (fields_view schema.fields.items) (pairs_of schema.metadata.entries) (all_ids_view ipc_fields.items) (pairs_of custom_metadata.entries) ∥₁ },
}
