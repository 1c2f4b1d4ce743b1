//! A file is read.
//!
//! The device may fail, and a column is read while another can't be.

use crate::example_file::make_example_file;
use crate::scenario::FileFixture;
use arrow2_ipc::array::AnyArray;
use arrow2_ipc::chunk::Chunk;
use arrow2_ipc::io::ipc::fault::{Failures, Fault, MemFile, Watched};
use arrow2_ipc::io::ipc::format::Block;
use arrow2_ipc::io::ipc::read::{
    Dictionaries, FileMetadata, FileReader, is_prepared, read_batch, read_file_dictionaries,
    read_file_metadata,
};
use bench_devices::dictionary_chunks::DictionaryChunks;
use bench_devices::faulty::{Barred, TestFile};
use bench_devices::fixtures::{error_of, int32};
use bench_devices::trace::{Answer, Call, Trace};
use std::alloc::Global;
use std::collections::HashMap;

/// The traces of `read_file` where a call of the device fails.
pub const ON_DEVICE_FAILURE: &[&str] = &[
    "
    metadata io
    device: 1 failure
    ",
    "
    metadata ok
    next io
    next end
    next end
    next end
    next end
    next end
    next end
    read_batch a
    device: 1 failure
    ",
    "
    metadata ok
    next io
    next b
    next a
    next b
    next a
    next end
    next end
    read_batch a
    device: 1 failure
    ",
    "
    metadata ok
    next a
    next io
    next a
    next b
    next a
    next end
    next end
    read_batch a
    device: 1 failure
    ",
    "
    metadata ok
    next a
    next b
    next io
    next b
    next a
    next end
    next end
    read_batch a
    device: 1 failure
    ",
    "
    metadata ok
    next a
    next b
    next a
    next io
    next a
    next end
    next end
    read_batch a
    device: 1 failure
    ",
    "
    metadata ok
    next a
    next b
    next a
    next b
    next io
    next end
    next end
    read_batch a
    device: 1 failure
    ",
    "
    metadata ok
    next a
    next b
    next a
    next b
    next a
    next end
    next end
    read_batch io
    device: 1 failure
    ",
    "
    metadata ok
    next a
    next b
    next a
    next b
    next a
    next end
    next end
    read_batch a
    device: no failure
    ",
];

/// The traces of `read_file` where an allocation may fail.
pub const ON_ALLOCATION_FAILURE: &[&str] = &[
    "
    metadata ok
    next a
    next b
    next a
    next b
    next a
    next end
    next end
    read_batch a
    device: no failure
    ",
    "
    metadata memory
    device: no failure
    ",
    "
    metadata ok
    next memory
    next end
    next end
    next end
    next end
    next end
    next end
    read_batch a
    device: no failure
    ",
    "
    metadata ok
    next memory
    next b
    next a
    next b
    next a
    next end
    next end
    read_batch a
    device: no failure
    ",
    "
    metadata ok
    next a
    next memory
    next a
    next b
    next a
    next end
    next end
    read_batch a
    device: no failure
    ",
    "
    metadata ok
    next a
    next b
    next memory
    next b
    next a
    next end
    next end
    read_batch a
    device: no failure
    ",
    "
    metadata ok
    next a
    next b
    next a
    next memory
    next a
    next end
    next end
    read_batch a
    device: no failure
    ",
    "
    metadata ok
    next a
    next b
    next a
    next b
    next memory
    next end
    next end
    read_batch a
    device: no failure
    ",
    "
    metadata ok
    next a
    next b
    next a
    next b
    next a
    next end
    next end
    read_batch memory
    device: no failure
    ",
];

/// Reads the file of the fixture from a device.
///
/// It reads its metadata, its chunks by seven calls of a reader, and its first chunk by other
/// calls.
pub fn read_file<D: TestFile>(
    alloc: Global,
    fixture: &FileFixture,
    mut device: Watched<D>,
) -> Result<Trace, Fault> {
    let mut trace = Trace::new();
    match read_file_metadata(alloc, &mut device) {
        Ok(metadata) => {
            trace.add(Call::Metadata, Answer::Success);
            read_chunks(alloc, &fixture.chunks, &mut device, metadata, &mut trace)?;
        }
        Err(fault) => trace.add(Call::Metadata, Answer::of_fault(&fault)),
    }
    trace.add_failures(device.failures());
    Ok(trace)
}

fn read_chunks<D: TestFile>(
    alloc: Global,
    chunks: &DictionaryChunks,
    device: &mut Watched<D>,
    metadata: FileMetadata,
    trace: &mut Trace,
) -> Result<(), Fault> {
    let copy = metadata.clone()?;
    let mut reader = FileReader::new(alloc, &mut *device, metadata, None, None)?;
    for _ in 0..7 {
        trace.add(Call::Next, item_answer(chunks, reader.next()));
    }
    drop(reader);
    let first = read_first(alloc, device, &copy);
    trace.add(Call::ReadBatch, item_answer(chunks, Some(first)));
    Ok(())
}

// Which of the dictionary chunks an item of a reader is, or what else it is.
fn item_answer(chunks: &DictionaryChunks, item: Option<Result<Chunk<AnyArray>, Fault>>) -> Answer {
    match item {
        Some(Ok(chunk)) => chunks.answer(&chunk),
        Some(Err(fault)) => Answer::of_fault(&fault),
        None => Answer::End,
    }
}

// The first chunk of a file, whose dictionaries are read before it.
fn read_first<D: TestFile>(
    alloc: Global,
    device: &mut Watched<D>,
    metadata: &FileMetadata,
) -> Result<Chunk<AnyArray>, Fault> {
    if metadata.blocks.is_empty() {
        return Err(Fault::Ended);
    }
    let mut message = Vec::new(alloc);
    let mut data = Vec::new(alloc);
    let dictionaries = read_file_dictionaries(alloc, device, metadata, &mut message)?;
    read_batch(
        alloc,
        device,
        &dictionaries,
        metadata,
        None,
        None,
        0,
        &mut message,
        &mut data,
    )
}

// The offset of the body of a block, where the values of the first column begin.
fn body_of(block: &Block) -> u64 {
    let body = block
        .offset
        .saturating_add(i64::from(block.meta_data_length));
    u64::try_from(body).unwrap_or(0)
}

// A device of these bytes, in which the 8 bytes of the first column can't be read.
fn without_first_column(bytes: Vec<u8>, metadata: &FileMetadata) -> Watched<Barred> {
    let start = match metadata.blocks.first() {
        Some(block) => body_of(block),
        None => 0,
    };
    Watched::new(Barred::new(bytes, start, start.saturating_add(8)))
}

// One column of the first chunk.
fn read_column(
    alloc: Global,
    device: &mut Watched<Barred>,
    metadata: &FileMetadata,
    column: usize,
) -> Result<Chunk<AnyArray>, Fault> {
    let projection = [column];
    if metadata.blocks.is_empty() || !is_prepared(&projection, metadata.schema.fields.len()) {
        return Err(Fault::Ended);
    }
    let none: Dictionaries = HashMap::new(alloc);
    read_batch(
        alloc,
        device,
        &none,
        metadata,
        Some(&projection),
        None,
        0,
        &mut Vec::new(alloc),
        &mut Vec::new(alloc),
    )
}

#[test]
fn column_is_read_where_another_is_unreadable(rt: HostRuntime) -> Result<(), Fault> {
    let alloc = rt.alloc();
    let bytes = make_example_file(alloc)?;
    let metadata = read_file_metadata(alloc, &mut MemFile::new(bytes.as_slice()))?;
    let mut device = without_first_column(bytes, &metadata);
    let y = read_column(alloc, &mut device, &metadata, 1)?;
    assert!(rt; y.into_arrays() == vec![in alloc; int32(alloc, &[1, -1])?]?);
    let x = error_of(read_column(alloc, &mut device, &metadata, 0))?;
    assert!(rt; matches!(x, Some(Fault::Io(_))));
    Ok(())
}
