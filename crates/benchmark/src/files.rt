//! Files that are timed.

use crate::tables::Table;
use ipc_devices::{Fault, MemFile, Reads, Seeks};
use ipc_file_readers::read::reader::FileReader;
use ipc_file_write::writer::FileWriter;
use ipc_files::read::file::{read_batch, read_file_dictionaries, read_file_metadata};
use std::alloc::Global;
use std::rt::Runtime;
use std::time::{Duration, Instant};

/// Appends the file to `out`.
pub fn write_file(alloc: Global, table: &Table, out: Vec<u8>) -> Result<Vec<u8>, Fault> {
    let schema = table.schema.clone()?;
    let mut writer = FileWriter::try_new(alloc, out, schema, None, table.options)?;
    for _ in 0..table.chunks {
        writer.write(&table.chunk, None)?;
    }
    writer.finish()?;
    Ok(writer.into_inner())
}

/// How many rows the file has.
pub fn read_file(alloc: Global, bytes: &[u8], chunks: u32) -> Result<usize, Fault> {
    count_rows(alloc, MemFile::new(bytes), chunks)
}

/// The rows of the first `chunks` chunks of a file together.
pub fn count_rows<R: Reads + Seeks + Drop>(
    alloc: Global,
    mut device: R,
    chunks: u32,
) -> Result<usize, Fault> {
    let metadata = read_file_metadata(alloc, &mut device)?;
    let mut rows = 0usize;
    for chunk in FileReader::new(alloc, device, metadata, None, None)?.take(chunks as usize) {
        rows = rows.saturating_add(chunk?.len());
    }
    Ok(rows)
}

/// The time to read the first column of the last block, with its message.
///
/// The footer and the dictionaries are read before. `Ended` if there is no block.
pub fn time_block<R: Runtime>(rt: &R, alloc: Global, bytes: &[u8]) -> Result<Duration, Fault> {
    let mut input = MemFile::new(bytes);
    let metadata = read_file_metadata(alloc, &mut input)?;
    let (mut message, mut data) = (Vec::new(alloc), Vec::new(alloc));
    let dictionaries = read_file_dictionaries(alloc, &mut input, &metadata, &mut data)?;
    if metadata.schema.fields.is_empty() || metadata.blocks.is_empty() {
        return Err(Fault::Ended);
    }
    let last = metadata.blocks.len() - 1;
    let first = [0];
    let start = Instant::now(rt)?;
    let chunk = read_batch(
        alloc,
        &mut input,
        &dictionaries,
        &metadata,
        Some(&first),
        None,
        last,
        &mut message,
        &mut data,
    )?;
    let time = start.elapsed(rt)?;
    // (so that it isn't optimized away)
    if chunk.arrays().is_empty() {
        return Err(Fault::Ended);
    }
    Ok(time)
}
