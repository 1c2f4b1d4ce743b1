//! A column of each kind is written to a file and read from it.
//!
//! In an ordinary run no allocation fails. `make refused` runs the tests with each of their
//! allocations failing in turn.

use arrow2_ipc::array::AnyArray;
use arrow2_ipc::chunk::Chunk;
use arrow2_ipc::io::ipc::fault::Fault;
use arrow2_ipc::io::ipc::read::read_file;
use arrow2_ipc::io::ipc::write::{FileWriter, WriteOptions};
use bench_devices::column_kinds::{COLUMN_KINDS, chunk_of_kind, schema_of};
use bench_devices::fixtures::empty_buffer;
use std::alloc::Global;

// The file of this chunk.
fn file_of(alloc: Global, chunk: &Chunk<AnyArray>) -> Result<Vec<u8>, Fault> {
    let schema = schema_of(alloc, chunk)?;
    let options = WriteOptions::default();
    let mut writer = FileWriter::try_new(alloc, empty_buffer(alloc)?, schema, None, options)?;
    writer.write(chunk, None)?;
    writer.finish()?;
    Ok(writer.into_inner())
}

// Whether these chunks are this one alone.
fn is_only(chunks: &[Chunk<AnyArray>], chunk: &Chunk<AnyArray>) -> bool {
    match chunks {
        [read] => *read == *chunk,
        _ => false,
    }
}

// Whether a chunk comes back from a file of it.
fn comes_back(alloc: Global, chunk: &Chunk<AnyArray>) -> Result<bool, Fault> {
    let bytes = file_of(alloc, chunk)?;
    let read = read_file(alloc, &bytes)?;
    Ok(is_only(&read.chunks, chunk))
}

#[test]
fn column_of_each_kind_comes_back(rt: HostRuntime) -> Result<(), Fault> {
    let alloc = rt.alloc();
    for kind in COLUMN_KINDS {
        assert!(rt; comes_back(alloc, &chunk_of_kind(alloc, kind)?)?);
    }
    Ok(())
}
