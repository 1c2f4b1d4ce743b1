//! Files of the example.

use arrow2_ipc::array::AnyArray;
use arrow2_ipc::chunk::Chunk;
use arrow2_ipc::datatypes::{Metadata, Schema};
use arrow2_ipc::io::ipc::fault::Fault;
use arrow2_ipc::io::ipc::write::{WriteOptions, create_file};
use bench_devices::fixtures::make_example;
use std::alloc::Global;

/// The file of the example's chunk. Its errors are `Memory`.
pub fn make_example_file(alloc: Global) -> Result<Vec<u8>, Fault> {
    let example = make_example(alloc)?;
    let chunks = vec![in alloc; example.chunk]?;
    make_file(alloc, example.schema, &chunks)
}

/// The file of these chunks. A write that fails for want of memory leaves its chunk out, and a file
/// whose buffer can't grow fails with `Io`: both are `Memory` here.
pub fn make_file(
    alloc: Global,
    schema: Schema,
    chunks: &[Chunk<AnyArray>],
) -> Result<Vec<u8>, Fault> {
    let metadata = Metadata::new(alloc);
    match create_file(
        alloc,
        schema,
        None,
        metadata,
        WriteOptions::default(),
        chunks,
    ) {
        Ok(file) if matches!(file.answers.first(), Some(Ok(()))) => Ok(file.bytes),
        _ => Err(Fault::Memory),
    }
}

/// A file of this schema, without chunks. Its errors are `Memory`.
pub fn make_file_without_chunks(alloc: Global, schema: Schema) -> Result<Vec<u8>, Fault> {
    let metadata = Metadata::new(alloc);
    let none: &[Chunk<AnyArray>] = &[];
    match create_file(alloc, schema, None, metadata, WriteOptions::default(), none) {
        Ok(file) => Ok(file.bytes),
        Err(_) => Err(Fault::Memory),
    }
}
