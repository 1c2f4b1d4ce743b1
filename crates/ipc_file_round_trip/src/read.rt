//! Reads whole files.
ghost use Rattle.std.specs.Prelude.{◌≡◌, ◌<◌, ◌≤◌, ◌↔◌, IsTrue, IfErr, IfOk, length, vec_len};
ghost use Rattle.ipc_devices.specs.Device.{Rises};
ghost use Rattle.ipc_devices.specs.Faults.{OnIo, OwnFault};
ghost use Rattle.ipc_model.specs.Batches.{IsProjection};
ghost use Rattle.ipc_model.specs.Files.{metadata_of};
ghost use Rattle.ipc_files.specs.Files.{FileReason};
ghost use Rattle.ipc_files.specs.Footers.{GivesPart, file_seen};
ghost use Rattle.ipc_projection.specs.ChosenColumns.{items_of};
ghost use Rattle.ipc_file_readers.specs.Readers.{device_of};
ghost use Rattle.ipc_file_round_trip.specs.Api.{ReadsFileColumns};
ghost use Rattle.ipc_file_round_trip.specs.Reading.{FileChunksCause, HasFirstRows, ReadingCause, chunks_of, file_by, file_chunks, file_read};
ghost use Rattle.ipc_file_round_trip.specs.Steps.{GivesAll, PushesNext, ReadBlocksCause};

use ipc_base::chunk::Chunk;
use ipc_devices::{Fault, MemFile, Reads, Seeks};
use ipc_file_readers::read::reader::FileReader;
use ipc_files::read::file::{FileMetadata, read_file_metadata};
use ipc_projection::read::projection::are_there;
use lower_arrays::array::AnyArray;
use std::alloc::Global;

/// The content of a file.
#[derive(Drop)]
pub struct WholeFile {
    /// The content of its footer.
    pub metadata: FileMetadata,
    /// Its chunks, in the order of the footer.
    pub chunks: Vec<Chunk<AnyArray>>,
}

// Adds the chunk of the next block, and returns whether there was one.
fn push_next<R: Reads + Seeks + Drop>(
    reader: &mut FileReader<R>,
    chunks: &mut Vec<Chunk<AnyArray>>,
) -> Result<bool, Fault>
    ensures more { IfOk result (λ b. IsTrue b → vec_len chunks.old < vec_len chunks.new) }
    ensures step { PushesNext R.device reader.old chunks.old.items result reader.new
        chunks.new.items }
{
    match reader.next() {
        Some(Ok(chunk)) => {
            chunks.push(chunk)?;
            Ok(true)
        }
        Some(Err(fault)) => Err(fault),
        None => Ok(false),
    }
}

// The chunks of all blocks, up to the first error.
fn read_chunks<R: Reads + Seeks + Drop>(
    alloc: Global,
    reader: &mut FileReader<R>,
) -> Result<Vec<Chunk<AnyArray>>, Fault>
    ensures monotone { R.device.failures (device_of reader.old)
        ≤ R.device.failures (device_of reader.new) }
    ensures failed { OnIo result
        (Rises (R.device.failures (device_of reader.old))
        (R.device.failures (device_of reader.new))) }
    ensures all { IfOk result (λ chunks. GivesAll R.device reader.old chunks.items) }
    ensures refused { IfErr result (ReadBlocksCause R.device reader.old) }
{
    let mut chunks = Vec::new(alloc);
    while push_next(reader, &mut chunks)? {}
    Ok(chunks)
}

// The requested columns and rows of a file in memory, by its metadata.
fn read_by(
    alloc: Global,
    bytes: &[u8],
    metadata: FileMetadata,
    projection: Option<Vec<usize>>,
    limit: Option<usize>,
) -> Result<WholeFile, Fault>
    requires { IsProjection (items_of projection) (length metadata.schema.fields.items) }
    ensures described { IfOk result (λ f. file_seen f.metadata ≡ file_seen metadata) }
    ensures chunks { GivesPart chunks_of result (file_chunks (file_seen metadata) bytes.now (items_of projection) limit) }
    ensures rows { IfOk result (λ f. HasFirstRows (file_seen metadata) bytes.now (items_of projection) limit (chunks_of f)) }
    ensures reason { IfErr result (λ e. OwnFault e
        (FileChunksCause (file_seen metadata) bytes.now (items_of projection) limit e)) }
    ensures device { OnIo result ⊥ }
{
    let copy = metadata.clone()?;
    let input = MemFile::new(bytes);
    let mut reader = FileReader::new(alloc, input, metadata, projection, limit)?;
    let chunks = read_chunks(alloc, &mut reader)?;
    Ok(WholeFile {
        metadata: copy,
        chunks,
    })
}

// The metadata of a file in memory.
fn read_metadata(alloc: Global, bytes: &[u8]) -> Result<FileMetadata, Fault>
    ensures meaning { GivesPart file_seen result (metadata_of bytes.now) }
    ensures reason { IfErr result (λ e. OwnFault e (FileReason 0 bytes.now e)) }
    ensures device { OnIo result ⊥ }
{
    let mut input = MemFile::new(bytes);
    read_file_metadata(alloc, &mut input)
}

/// Reads a file in memory, from its first block to its last.
///
/// It is `Ok` exactly if the metadata and each block are valid, unless an allocation fails. The
/// dictionaries are read with the first block: without blocks they aren't checked.
///
/// # Errors
/// They come in this order, `Memory` at any time, `Io` never.
///
/// - That of [`read_file_metadata`], if the metadata are invalid.
/// - That of [`read_file_dictionaries`], if the dictionaries are invalid.
/// - That of [`read_batch`], at the first block that is invalid.
///
/// [`read_file_dictionaries`]: ipc_files::read::file::read_file_dictionaries
/// [`read_batch`]: ipc_files::read::file::read_batch
pub fn read_file(alloc: Global, bytes: &[u8]) -> Result<WholeFile, Fault>
    ensures meaning { GivesPart file_read result (file_by None None bytes.now) }
    ensures reason { IfErr result (λ e. OwnFault e (ReadingCause None None bytes.now e)) }
    ensures device { OnIo result ⊥ }
{
    let metadata = read_metadata(alloc, bytes)?;
    read_by(alloc, bytes, metadata, None, None)
}

/// Reads some columns and rows of a file in memory.
///
/// - `projection`: indexes of the columns, in whose order the chunks have them; None reads all.
/// - `limit`: the most rows of all chunks together; None reads all rows.
///
/// There is one chunk for each block, without rows after the limit. All rows together are the first
/// of these columns. The result is None if an index isn't in the schema or comes twice; no chunk
/// was read then. It is `Ok` exactly if the metadata, and each block by these columns and the
/// limit, are valid, unless an allocation fails.
///
/// The errors are those of [`read_file`], for the requested columns and the rows that the blocks
/// before leave of the limit.
pub fn read_file_columns(
    alloc: Global,
    bytes: &[u8],
    projection: Option<Vec<usize>>,
    limit: Option<usize>,
) -> Result<Option<WholeFile>, Fault>
    ensures { ReadsFileColumns (items_of projection) limit bytes.now result }
{
    let metadata = read_metadata(alloc, bytes)?;
    if !are_there(&projection, metadata.schema.fields.len()) {
        return Ok(None);
    }
    let file = read_by(alloc, bytes, metadata, projection, limit)?;
    Ok(Some(file))
}
