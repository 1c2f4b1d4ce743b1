//! Reads the record batch at a block of a file.
ghost use Rattle.std.specs.Prelude.{◌≡◌, ◌+◌, ◌≤◌, ◌<◌, length, map, vec_len, IsTrue, IfOk, IfErr};
ghost use Rattle.std.specs.Option.{option_copied};
ghost use Rattle.ipc_devices.specs.Acts.{ReadsDevice};
ghost use Rattle.ipc_devices.specs.Faults.{OwnFault};
ghost use Rattle.ipc_model.specs.Batches.{chosen, extra_of, kinds, lists_of, record_meaning};
ghost use Rattle.ipc_model.specs.ReadChunks.{HaveMeaning};
ghost use Rattle.ipc_base.specs.IdTrees.{all_ids_view};
ghost use Rattle.lower_arrays.specs.AnyLayouts.{layout_of};
ghost use Rattle.ipc_files.specs.Api.{ReadsBatch, block_request};
ghost use Rattle.ipc_files.specs.Batches.{needed_record};
ghost use Rattle.ipc_files.specs.Footers.{GivesPart, file_seen};
ghost use Rattle.ipc_read_flat.specs.Bodies.{known_dictionaries};
ghost use Rattle.ipc_read_flat.specs.Scratches.{KeepsScratch};
ghost use Rattle.ipc_read.specs.Chunks.{chunk_seen};
ghost use Rattle.ipc_read.specs.Columns.{ArePrepared};
ghost use Rattle.ipc_read.specs.HeldChunks.{HoldChosen};
ghost use Rattle.ipc_read.specs.Refusals.{IsFaultOfBatch, TellsBatch};
ghost use Rattle.ipc_read.specs.Sizes.{chosen_listed};

use crate::read::file::block::{open_message, place_of, read_metadata};
use crate::read::file::metadata::FileMetadata;
use ipc_base::chunk::Chunk;
use ipc_devices::fault::{Fault, OutOfSpecKind};
use ipc_devices::{Reads, Seeks};
use ipc_read::read::Dictionaries;
use ipc_read::read::common::read_record_batch;
use ipc_table_views::{MessageHeaderRef, MetadataVersion, RecordBatchRef};
use lower_arrays::array::AnyArray;
use std::alloc::Global;

// The record batch in the header of a message, or `UnexpectedMessageType`.
fn record_of(header: MessageHeaderRef<'_>) -> Result<RecordBatchRef<'_>, Fault>
    ensures { result ≡ needed_record header.entry }
{
    match header {
        MessageHeaderRef::RecordBatch(batch) => Ok(batch),
        _ => Err(Fault::OutOfSpec(OutOfSpecKind::UnexpectedMessageType)),
    }
}

// The columns of a record batch whose body is at the offset `body`.
#[allow(clippy::too_many_arguments)]
fn read_record<R: Reads + Seeks>(
    alloc: Global,
    reader: &mut R,
    dictionaries: &Dictionaries,
    metadata: &FileMetadata,
    projection: Option<&[usize]>,
    limit: Option<usize>,
    batch: RecordBatchRef<'_>,
    version: MetadataVersion,
    body: u64,
    scratch: &mut Vec<u8>,
) -> Result<Chunk<AnyArray>, Fault>
    requires prepared { ArePrepared (option_copied projection) (length metadata.now.schema.fields.items) }
    ensures many { IfOk result (λ chunk. length chunk ≡ length (chosen (option_copied projection.entry) (length metadata.now.schema.fields.items))) }
    ensures only { let js = chosen (option_copied projection.entry) (length metadata.now.schema.fields.items) in
        IfErr result (λ e. OwnFault e (IsFaultOfBatch (kinds (file_seen metadata.now).schema) js e)) }
    ensures lists { IfErr result (TellsBatch (file_seen metadata.now).schema (extra_of version) batch.entry metadata.now.size) }
    ensures device { ReadsDevice R.device reader.old result reader.new }
    ensures given { let js = chosen (option_copied projection.entry) (length metadata.now.schema.fields.items) in
        R.device.given reader.new
        ≤ R.device.given reader.old
        + chosen_listed (lists_of batch.entry) (extra_of version)
        (kinds (file_seen metadata.now).schema) js }
    ensures held { let js = chosen (option_copied projection.entry) (length metadata.now.schema.fields.items) in
        IfOk result (λ xs. HoldChosen metadata.now.size (lists_of batch.entry) (extra_of version) (kinds (file_seen metadata.now).schema) js xs) }
    ensures memory { IsTrue R.device.is_memory → let m = file_seen metadata.now in
        GivesPart chunk_seen result (record_meaning m.schema (extra_of version) (known_dictionaries dictionaries.now)
        (record { source = (R.device.memory reader.old).whole; base = body; size = m.size })
        batch.entry (option_copied projection.entry) limit) }
    ensures values { IsTrue R.device.is_memory
        → let js = chosen (option_copied projection.entry)
        (length metadata.now.schema.fields.items) in
        IfOk result (λ xs. HaveMeaning (known_dictionaries dictionaries.now) (all_ids_view metadata.now.ipc_schema.fields.items) js (chunk_seen xs) (map layout_of xs)) }
    ensures scratch { KeepsScratch scratch.old.items scratch.new.items }
{
    read_record_batch(
        alloc,
        batch,
        &metadata.schema.fields,
        &metadata.ipc_schema,
        projection,
        limit,
        dictionaries,
        version,
        reader,
        body,
        metadata.size,
        scratch,
    )
}

/// Reads the record batch at one block of a file.
///
/// - `dictionaries`: the result of [`read_file_dictionaries`].
/// - `metadata`: of a file that begins where the device begins, as blocks have offsets of the
///   device.
/// - `projection`: indexes of the columns to read, ascending; None reads all. No byte of another
///   column is read or checked.
/// - `limit`: reads at most this many rows of each column; None reads all.
/// - `index`: the index of any block in `metadata.blocks`.
/// - `message_scratch`: keeps the metadata of the message.
/// - `data_scratch`: a block that columns are read through, as [`read_record_batch`] says.
///
/// See "IPC File Format" in the Arrow columnar format. The version is that of the block's own
/// message; the stated length of the body isn't used.
///
/// When reading from memory, it is `Ok` exactly if the block is valid by the projection and the
/// limit, unless an allocation fails. The chunk is the one that `file_chunk` of `ipc_model`
/// defines. At each dictionary field, except inside dictionary values, it has the values that
/// `dictionaries` has under the field's id.
///
/// At most the message, its 8-byte prefix and the encoded length of the chosen columns' buffers are
/// read from the device, also on an error. If the message can't be read, these are at most its
/// prefix and the length that this states. The arrays retain at most the encoded length of these
/// buffers, and at most the size of the file, plus one offset for each empty offset buffer.
/// Dictionary values aren't counted, as they are shared.
///
/// # Errors
/// Each of the first four groups is `OutOfSpec`.
///
/// - `NegativeFooterLength`: the block's offset or metadata length is negative.
/// - `UnexpectedNegativeInteger`: the prefix of the message states a negative length.
/// - `InvalidFlatbufferMessage`, `MissingMessageHeader`, `InvalidFlatbufferHeader`,
///   `InvalidFlatbufferVersion`: the message is malformed, or has no header.
/// - `UnexpectedMessageType`: the message isn't a record batch.
/// - `Ended`: the device has no whole message at the block. At most 65,536 bytes, or four times the
///   bytes that were read, are allocated for a length that is only stated.
/// - Those of [`read_record_batch`].
/// - `Io` exactly if a call of the device failed; `Memory`.
///
/// After an error the reader may be at any position, and other blocks can be read.
///
/// [`read_file_dictionaries`]: crate::read::file::read_file_dictionaries
#[allow(clippy::too_many_arguments)]
pub fn read_batch<R: Reads + Seeks>(
    alloc: Global,
    reader: &mut R,
    dictionaries: &Dictionaries,
    metadata: &FileMetadata,
    projection: Option<&[usize]>,
    limit: Option<usize>,
    index: usize,
    message_scratch: &mut Vec<u8>,
    data_scratch: &mut Vec<u8>,
) -> Result<Chunk<AnyArray>, Fault>
    requires index { index < vec_len metadata.now.blocks }
    requires prepared { ArePrepared (option_copied projection)
        (length metadata.now.schema.fields.items) }
    ensures batch { let q = block_request metadata.now dictionaries.now
        (option_copied projection.entry) limit index in
        ReadsBatch R.device q reader.old message_scratch.new.items result reader.new }
    ensures scratch { KeepsScratch data_scratch.old.items data_scratch.new.items }
{
    let block = &metadata.blocks[index];
    let place = place_of(block, OutOfSpecKind::NegativeFooterLength)?;
    let negative = OutOfSpecKind::UnexpectedNegativeInteger;
    read_metadata(reader, place.message, negative, message_scratch)?;
    let message = open_message(message_scratch)?;
    let batch = record_of(message.header)?;
    read_record(
        alloc,
        reader,
        dictionaries,
        metadata,
        projection,
        limit,
        batch,
        message.version,
        place.body,
        data_scratch,
    )
}
