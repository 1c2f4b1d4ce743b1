//! A file of the dictionary chunks, and what appending to it must keep.

use crate::dictionary_chunks::DictionaryChunks;
use crate::fixtures::empty_buffer;
use crate::trace::{Answer, Call, Trace};
use ipc_devices::{Fault, MemFile};
use ipc_encode::common::WriteOptions;
use ipc_file_readers::read::reader::FileReader;
use ipc_file_write::writer::FileWriter;
use ipc_files::read::file::{FileMetadata, read_file_metadata};
use ipc_table_views::Block;
use std::alloc::Global;

/// The file of the chunks `a`, `b`, `a`, `b` and `a`.
pub fn make_dictionary_file(
    alloc: Global,
    chunks: &DictionaryChunks,
    options: WriteOptions,
) -> Result<Vec<u8>, Fault> {
    let schema = chunks.schema.clone()?;
    let mut writer = FileWriter::new(alloc, empty_buffer(alloc)?, schema, None, options)?;
    write_all_chunks(&mut writer, chunks)?;
    Ok(writer.into_inner())
}

fn write_all_chunks(
    writer: &mut FileWriter<Vec<u8>>,
    chunks: &DictionaryChunks,
) -> Result<(), Fault> {
    let [a, b, _] = &chunks.chunks;
    writer.start()?;
    for chunk in [a, b, a, b, a] {
        writer.write(chunk, None)?;
    }
    writer.finish()
}

// The chunks of the file.
const OLD_CHUNKS: &str = "
    next a
    next b
    next a
    next b
    next a
    next end
    ";

/// Adds to a trace what appending changed of a file.
///
/// That is the bytes up to the end of its last block, and the chunks that its old metadata give. If
/// these are others, the trace has a line for each.
pub fn add_kept(
    alloc: Global,
    chunks: &DictionaryChunks,
    old: &[u8],
    new: &[u8],
    trace: &mut Trace,
) -> Result<(), Fault> {
    let metadata = read_file_metadata(alloc, &mut MemFile::new(old))?;
    let bytes = if keeps_blocks(old, new, &metadata) {
        Answer::Kept
    } else {
        Answer::Changed
    };
    trace.add(Call::OldBytes, bytes);
    let read = read_chunks(alloc, chunks, new, metadata)?;
    if read.is(OLD_CHUNKS) {
        trace.add(Call::OldChunks, Answer::Kept);
    } else {
        trace.append(&read);
    }
    Ok(())
}

// Whether a file is no shorter than it was, and has the same bytes up to the end of its last block.
fn keeps_blocks(old: &[u8], new: &[u8], metadata: &FileMetadata) -> bool {
    let Some(last) = metadata.blocks.last() else {
        return false;
    };
    let end = end_of(last);
    match (old.get(..end), new.get(..end)) {
        (Some(before), Some(after)) => before == after && old.len() <= new.len(),
        _ => false,
    }
}

// The offset of the end of a block, or the greatest number where that is no offset.
fn end_of(block: &Block) -> usize {
    let body = block
        .offset
        .saturating_add(i64::from(block.meta_data_length));
    usize::try_from(body.saturating_add(block.body_length)).unwrap_or(usize::MAX)
}

// What six calls of a reader with these metadata return.
fn read_chunks(
    alloc: Global,
    chunks: &DictionaryChunks,
    file: &[u8],
    metadata: FileMetadata,
) -> Result<Trace, Fault> {
    let mut reader = FileReader::new(alloc, MemFile::new(file), metadata, None, None)?;
    let mut trace = Trace::new();
    for _ in 0..6 {
        trace.add(
            Call::Next,
            match reader.next().transpose()? {
                Some(chunk) => chunks.answer(&chunk),
                None => Answer::End,
            },
        );
    }
    Ok(trace)
}
