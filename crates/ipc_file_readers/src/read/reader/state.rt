//! The state of a file reader.
ghost use Rattle.std.specs.Prelude.{IsTrue, length};
ghost use Rattle.ipc_model.specs.Batches.{is_projection};
ghost use Rattle.ipc_projection.specs.ChosenColumns.{asked_by};

use ipc_files::read::file::FileMetadata;
use ipc_projection::read::chosen::ChosenColumns;
use ipc_read::read::Dictionaries;
use std::alloc::Global;

/// Reads the chunks of a file, one block at each call of `next`.
///
/// See "IPC File Format" in the Arrow columnar format. The blocks come in the footer's order. The
/// first call reads the dictionaries too, unless there are no record blocks. If that fails, for any
/// reason, the error is returned once, and then None.
///
/// A chunk has the requested columns, in this order. All chunks together have at most `limit` rows:
/// after the last of them each block gives a chunk without rows. Chunks share dictionary values.
/// After the last block `next` returns None, without reading or allocating.
///
/// # Errors of `next`
/// They are those of [`read_file_dictionaries`] and [`read_batch`]. `Io` comes exactly if a call of
/// the device failed.
///
/// - After an error of a block, including `Memory` and `Io`, the next call continues with the block
///   after it. The dictionaries and the rest of the limit are kept.
/// - After an error of the dictionaries the limit and the scratch memory for messages stay.
///
/// # Bytes
/// A call that returns a chunk reads at most the block's message, its prefix and the encoded length
/// of the requested columns' buffers. When reading from memory, the first call reads at most these
/// and what the dictionaries need. If the dictionaries are refused, it reads no more than
/// [`read_file_dictionaries`] does then.
///
/// The arrays of a chunk retain at most the encoded length of these buffers, and at most the size
/// of the file, plus one offset for each empty offset buffer. The same applies to the array of a
/// dictionary's values, by one of its blocks.
///
/// # Scratch memory
/// The one for messages keeps the metadata of the last message. The one for data is a block that
/// columns are read through, as [`read_record_batch`] says. A caller who reads many files passes
/// both from reader to reader, with `get_scratches` and `set_scratches`.
///
/// [`read_file_dictionaries`]: ipc_files::read::file::read_file_dictionaries
/// [`read_batch`]: ipc_files::read::file::read_batch
/// [`read_record_batch`]: ipc_read::read::common::read_record_batch
#[derive(Drop)]
pub struct FileReader<R> {
    pub(crate) alloc: Global,
    pub(crate) reader: R,
    pub(crate) metadata: FileMetadata,
    // None before the first block
    pub(crate) dictionaries: Option<Dictionaries>,
    // the index of the next block
    pub(crate) current_block: usize,
    pub(crate) projection: Option<ChosenColumns>,
    // how many rows may still be returned, if there is a limit
    pub(crate) remaining: Option<usize>,
    pub(crate) message_scratch: Vec<u8>,
    pub(crate) data_scratch: Vec<u8>,
    ghost there: { IsTrue (is_projection (asked_by projection) (length metadata.schema.fields.items)) },
}
