//! Reads whole streams.
ghost use Rattle.std.specs.Prelude.{◌<◌, false, IsTrue, IfOk, vec_len};
ghost use Rattle.ipc_round_trip.specs.Api.{ReadsChunks};
ghost use Rattle.ipc_round_trip.specs.Reading.{PushesNext, ReadsStream};

use ipc_base::chunk::Chunk;
use ipc_devices::{Fault, MemFile, Reads};
use ipc_readers::read::stream::{StreamMetadata, StreamReader, StreamState, read_stream_metadata};
use lower_arrays::array::AnyArray;
use std::alloc::Global;

/// The content of a stream.
#[derive(Drop)]
pub struct WholeStream {
    /// The content of its schema message.
    pub metadata: StreamMetadata,
    /// Its chunks, in order.
    pub chunks: Vec<Chunk<AnyArray>>,
    /// Whether it ends with the end mark. Otherwise more may follow.
    pub is_finished: bool,
}

// Adds the next chunk, and returns whether there was one.
fn push_next<R: Reads + Drop>(
    reader: &mut StreamReader<R>,
    chunks: &mut Vec<Chunk<AnyArray>>,
) -> Result<bool, Fault>
    ensures more { IfOk result (λ b. IsTrue b → vec_len chunks.old < vec_len chunks.new) }
    ensures memory { PushesNext R.device reader.old
        chunks.old.items result reader.new chunks.new.items }
{
    match reader.next() {
        Some(Ok(StreamState::Some(chunk))) => {
            chunks.push(chunk)?;
            Ok(true)
        }
        Some(Ok(StreamState::Waiting)) | None => Ok(false),
        Some(Err(fault)) => Err(fault),
    }
}

// All chunks up to the end mark, or until the stream waits.
pub(crate) fn read_chunks<R: Reads + Drop>(
    alloc: Global,
    reader: &mut StreamReader<R>,
) -> Result<Vec<Chunk<AnyArray>>, Fault>
    ensures { ReadsChunks R.device reader.old result reader.new }
{
    let mut chunks = Vec::new(alloc);
    while push_next(reader, &mut chunks)? {}
    Ok(chunks)
}

/// Reads a stream in memory, up to its end mark or the end of `bytes`.
///
/// # Errors
/// - Those of [`read_stream_metadata`] and of the calls of [`StreamReader`]. Each of them but
///   `Memory` comes only if the bytes aren't a valid stream. Errors of a message are only those
///   that a stream of this schema can have.
/// - `Io` never comes.
pub fn read_stream(alloc: Global, bytes: &[u8]) -> Result<WholeStream, Fault>
    ensures { ReadsStream bytes.now result }
{
    let mut input = MemFile::new(bytes);
    let metadata = read_stream_metadata(alloc, &mut input)?;
    let copy = metadata.clone()?;
    let mut reader = StreamReader::new(alloc, input, copy, None)?;
    let chunks = read_chunks(alloc, &mut reader)?;
    Ok(WholeStream {
        metadata,
        chunks,
        is_finished: reader.is_finished(),
    })
}
