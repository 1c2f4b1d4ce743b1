//! A dictionary batch and a record batch of a file are read one by one.

use crate::scenario::FileFixture;
use arrow2_ipc::array::AnyArray;
use arrow2_ipc::chunk::Chunk;
use arrow2_ipc::io::ipc::fault::{Failures, Fault, MemFile, Watched};
use arrow2_ipc::io::ipc::format::Block;
use arrow2_ipc::io::ipc::read::{Dictionaries, FileMetadata, read_file_metadata};
use bench_devices::faulty::TestFile;
use bench_devices::single_message::{MessageOnDevice, read_columns, read_values};
use bench_devices::trace::{Answer, Call, Trace};
use std::alloc::Global;
use std::collections::HashMap;

/// The traces of `read_batches` where a call of the device fails.
pub const ON_DEVICE_FAILURE: &[&str] = &[
    "
    read_dictionary io
    dictionaries: unknown
    read_dictionary ok
    dictionaries: known
    read_record_batch a
    read_record_batch a
    device: 1 failure
    ",
    "
    read_dictionary ok
    dictionaries: known
    read_dictionary io
    dictionaries: known
    read_record_batch a
    read_record_batch a
    device: 1 failure
    ",
    "
    read_dictionary ok
    dictionaries: known
    read_dictionary ok
    dictionaries: known
    read_record_batch io
    read_record_batch a
    device: 1 failure
    ",
    "
    read_dictionary ok
    dictionaries: known
    read_dictionary ok
    dictionaries: known
    read_record_batch a
    read_record_batch io
    device: 1 failure
    ",
    "
    read_dictionary ok
    dictionaries: known
    read_dictionary ok
    dictionaries: known
    read_record_batch a
    read_record_batch a
    device: no failure
    ",
];

/// The traces of `read_batches` where an allocation may fail.
pub const ON_ALLOCATION_FAILURE: &[&str] = &[
    "
    read_dictionary ok
    dictionaries: known
    read_dictionary ok
    dictionaries: known
    read_record_batch a
    read_record_batch a
    device: no failure
    ",
    "
    read_dictionary memory
    dictionaries: unknown
    read_dictionary ok
    dictionaries: known
    read_record_batch a
    read_record_batch a
    device: no failure
    ",
    "
    read_dictionary ok
    dictionaries: known
    read_dictionary memory
    dictionaries: known
    read_record_batch a
    read_record_batch a
    device: no failure
    ",
    "
    read_dictionary ok
    dictionaries: known
    read_dictionary ok
    dictionaries: known
    read_record_batch memory
    read_record_batch a
    device: no failure
    ",
    "
    read_dictionary ok
    dictionaries: known
    read_dictionary ok
    dictionaries: known
    read_record_batch a
    read_record_batch memory
    device: no failure
    ",
];

// An offset in a file, or one after all of them.
fn offset_of(number: i64) -> usize {
    usize::try_from(number).unwrap_or(usize::MAX)
}

// The offset of the body of a block.
fn body_of(block: &Block) -> i64 {
    block
        .offset
        .saturating_add(i64::from(block.meta_data_length))
}

// The message of a block.
fn message_of<'a>(
    file: &'a [u8],
    length: u64,
    block: &Block,
) -> Result<MessageOnDevice<'a>, Fault> {
    let start = offset_of(block.offset.saturating_add(8));
    let body = offset_of(body_of(block));
    let Some(message) = file.get(start..body) else {
        return Err(Fault::Ended);
    };
    Ok(MessageOnDevice {
        message,
        body: body as u64,
        length,
    })
}

// Reads the values of the first dictionary block.
fn read_first_values<D: TestFile>(
    alloc: Global,
    file: &[u8],
    metadata: &FileMetadata,
    device: &mut Watched<D>,
    dictionaries: &mut Dictionaries,
) -> Result<(), Fault> {
    let Some(block) = metadata.dictionary_blocks().first() else {
        return Err(Fault::Ended);
    };
    let message = message_of(file, metadata.size, block)?;
    let FileMetadata {
        schema,
        ipc_schema,
        ..
    } = metadata;
    read_values(
        alloc,
        message,
        &schema.fields,
        ipc_schema,
        dictionaries,
        device,
    )
}

// Reads the columns of the first record block.
fn read_first_columns<D: TestFile>(
    alloc: Global,
    file: &[u8],
    metadata: &FileMetadata,
    device: &mut Watched<D>,
    dictionaries: &Dictionaries,
) -> Result<Chunk<AnyArray>, Fault> {
    let Some(block) = metadata.blocks.first() else {
        return Err(Fault::Ended);
    };
    let message = message_of(file, metadata.size, block)?;
    let FileMetadata {
        schema,
        ipc_schema,
        ..
    } = metadata;
    read_columns(
        alloc,
        message,
        &schema.fields,
        ipc_schema,
        dictionaries,
        device,
    )
}

/// Reads the first dictionary of the fixture's file and its first record batch, each twice.
pub fn read_batches<D: TestFile>(
    alloc: Global,
    fixture: &FileFixture,
    mut device: Watched<D>,
) -> Result<Trace, Fault> {
    let file = fixture.file.as_slice();
    let metadata = read_file_metadata(alloc, &mut MemFile::new(file))?;
    let mut trace = Trace::new();
    let dictionaries = read_values_twice(alloc, file, &metadata, &mut device, &mut trace);
    for _ in 0..2 {
        let result = read_first_columns(alloc, file, &metadata, &mut device, &dictionaries);
        trace.add(Call::ReadRecordBatch, fixture.chunks.answer_of(&result));
    }
    trace.add_failures(device.failures());
    Ok(trace)
}

fn read_values_twice<D: TestFile>(
    alloc: Global,
    file: &[u8],
    metadata: &FileMetadata,
    device: &mut Watched<D>,
    trace: &mut Trace,
) -> Dictionaries {
    let mut dictionaries: Dictionaries = HashMap::new(alloc);
    for _ in 0..2 {
        let result = read_first_values(alloc, file, metadata, device, &mut dictionaries);
        trace.add_result(Call::ReadDictionary, &result);
        let are_known = if dictionaries.is_empty() {
            Answer::Unknown
        } else {
            Answer::Known
        };
        trace.add(Call::Dictionaries, are_known);
    }
    dictionaries
}
