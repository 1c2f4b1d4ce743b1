//! What is read of a file before appending to it.
ghost use Rattle.std.specs.Prelude.{◌≡◌, true};
ghost use Rattle.lower.specs.TypeViews.{fields_view, pairs_of};
ghost use Rattle.ipc_base.specs.IdTrees.{all_ids_view};
ghost use Rattle.ipc_model.specs.Writable.{IsWritableFile};

use ipc_files::read::file::FileMetadata;
use ipc_table_views::Block;
use ipc_tracker::DictionaryTracker;
use std::alloc::Global;

/// A file that can be appended to: its metadata and the values of its dictionaries.
///
/// [`prepare`](crate::append::prepare) makes one and only reads the file.
/// [`FileWriter::resume`](crate::file::FileWriter::resume) makes the writer of it, and can't fail.
#[derive(Drop)]
pub struct Prepared {
    pub(crate) alloc: Global,
    pub(crate) metadata: FileMetadata,
    // a copy of the metadata's dictionary blocks, to which the writer adds its own
    pub(crate) dictionary_blocks: Vec<Block>,
    // the offset of the next message in the file
    pub(crate) block_offsets: u64,
    // the values of the file's dictionaries, which can't be replaced
    pub(crate) dictionary_tracker: DictionaryTracker,
    ghost keeps: { dictionary_tracker.cannot_replace ≡ true },
    ghost writable: { ∥ IsWritableFile (fields_view metadata.schema.fields.items)
        (pairs_of metadata.schema.metadata.entries) (all_ids_view metadata.ipc_schema.fields.items)
        (pairs_of metadata.custom_metadata.entries) ∥₁ },
}
