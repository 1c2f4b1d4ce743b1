//! Reads some columns of whole streams.
ghost use Rattle.ipc_round_trip.specs.Choosing.{ChosenFinishedLaw, ChosenOpenLaw, ChosenOpenReadableLaw, ChosenReadableLaw, ReadsColumns};

use crate::read::{WholeStream, read_chunks};
use ipc_devices::{Fault, MemFile};
use ipc_projection::read::projection::is_projection;
use ipc_readers::read::stream::{StreamReader, read_stream_metadata};
use std::alloc::Global;

/// Reads some columns of a stream in memory.
///
/// It reads up to the end mark or the end of `bytes`. `projection` has the indexes of the columns,
/// and the chunks have them in this order. The result is None if an index isn't in the schema or
/// comes twice (see [`is_projection`]); no chunk was read then.
///
/// # Errors
/// - Those of [`read_stream_metadata`] and of the calls of [`StreamReader`]. Each of them but
///   `Memory` comes only if the bytes aren't a valid stream, by these columns. Errors of a message
///   are only those that a stream of this schema can have, read by these columns.
/// - `Io` never comes.
pub fn read_stream_columns(
    alloc: Global,
    bytes: &[u8],
    projection: Vec<usize>,
) -> Result<Option<WholeStream>, Fault>
    ensures { ReadsColumns projection.items bytes.now result }
{
    let mut input = MemFile::new(bytes);
    let metadata = read_stream_metadata(alloc, &mut input)?;
    if !is_projection(&projection, metadata.schema.fields.len()) {
        return Ok(None);
    }
    let copy = metadata.clone()?;
    let mut reader = StreamReader::new(alloc, input, metadata, Some(projection))?;
    let chunks = read_chunks(alloc, &mut reader)?;
    Ok(Some(WholeStream {
        metadata: copy,
        chunks,
        is_finished: reader.is_finished(),
    }))
}

/// Reading some columns of a written stream gives these columns of its chunks.
///
/// The columns are requested once each, and come in the order of the request. The schema is the
/// written one. The stream ends or waits as the writer left it. Such a stream can always be read.
pub fn columns_read_back()
    ensures finished { ChosenFinishedLaw }
    ensures readable { ChosenReadableLaw }
    ensures open_readable { ChosenOpenReadableLaw }
    ensures open { ChosenOpenLaw }
{}
