//! Streams that are timed.

use crate::tables::Table;
use ipc_devices::{Fault, MemFile, Reads};
use ipc_projection::read::projection::is_projection;
use ipc_readers::read::stream::{StreamReader, StreamState, read_stream_metadata};
use ipc_write::stream::StreamWriter;
use lower::buffer::Buffer;
use std::alloc::Global;

/// Appends the stream to `out`.
pub fn write_stream(alloc: Global, table: &Table, out: Vec<u8>) -> Result<Vec<u8>, Fault> {
    let mut writer = StreamWriter::new(alloc, out, table.options);
    writer.start(&table.schema, None)?;
    for _ in 0..table.chunks {
        writer.write(&table.chunk, None)?;
    }
    writer.finish()?;
    Ok(writer.into_inner())
}

// The rows of the next `chunks` chunks together.
fn count_rows<R: Reads + Drop>(reader: StreamReader<R>, chunks: u32) -> Result<usize, Fault> {
    let mut rows = 0usize;
    for state in reader.take(chunks as usize) {
        if let StreamState::Some(chunk) = state? {
            rows = rows.saturating_add(chunk.len());
        }
    }
    Ok(rows)
}

/// The rows of a stream, of which all columns are read.
pub fn read_stream(alloc: Global, bytes: &[u8], chunks: u32) -> Result<usize, Fault> {
    let mut input = MemFile::new(bytes);
    let metadata = read_stream_metadata(alloc, &mut input)?;
    count_rows(StreamReader::new(alloc, input, metadata, None)?, chunks)
}

/// The rows of a stream, whose columns share its memory where they can.
pub fn read_shared(alloc: Global, bytes: &Buffer<u8>, chunks: u32) -> Result<usize, Fault> {
    let mut input = MemFile::new(bytes.clone()?);
    let metadata = read_stream_metadata(alloc, &mut input)?;
    count_rows(StreamReader::new(alloc, input, metadata, None)?, chunks)
}

/// The rows of a stream, of which the first column is read. `Ended` if it has no column.
pub fn read_first(alloc: Global, bytes: &[u8], chunks: u32) -> Result<usize, Fault> {
    let first = vec![in alloc; 0usize]?;
    let mut input = MemFile::new(bytes);
    let metadata = read_stream_metadata(alloc, &mut input)?;
    if !is_projection(&first, metadata.schema.fields.len()) {
        return Err(Fault::Ended);
    }
    count_rows(
        StreamReader::new(alloc, input, metadata, Some(first))?,
        chunks,
    )
}
