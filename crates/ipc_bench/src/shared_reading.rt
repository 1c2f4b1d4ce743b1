//! Columns that are read from a device that shares its bytes, and copies of their own memory.
//!
//! No contract states which memory an array has. A test sees it by `into_vec`, which only returns
//! the vector of a buffer without another owner, and by `retained_bytes`.

use arrow2_ipc::array::AnyArray;
use arrow2_ipc::buffer::Buffer;
use arrow2_ipc::chunk::Chunk;
use arrow2_ipc::io::ipc::fault::{Bytes, Fault, MemFile};
use arrow2_ipc::io::ipc::read::{StreamReader, StreamState, read_stream_metadata};
use arrow2_ipc::io::ipc::write::{StreamWriter, WriteOptions};
use bench_devices::column_kinds::{COLUMN_KINDS, chunk_of_kind, schema_of, texts};
use std::alloc::{AllocError, Global};

// The stream of this chunk, with its end, in memory that several owners may share.
fn shared_stream(alloc: Global, chunk: &Chunk<AnyArray>) -> Result<Buffer<u8>, Fault> {
    let schema = schema_of(alloc, chunk)?;
    let mut writer = StreamWriter::new(alloc, Vec::new(alloc), WriteOptions::default());
    writer.start(&schema, None)?;
    writer.write(chunk, None)?;
    writer.finish()?;
    Ok(Buffer::new(writer.into_inner())?)
}

// The first chunk of a stream, if there is one.
fn first_chunk<B: Bytes + Drop>(alloc: Global, bytes: B) -> Result<Option<Chunk<AnyArray>>, Fault> {
    let mut device = MemFile::new(bytes);
    let metadata = read_stream_metadata(alloc, &mut device)?;
    let mut reader = StreamReader::new(alloc, device, metadata, None)?;
    match reader.next() {
        Some(Ok(StreamState::Some(chunk))) => Ok(Some(chunk)),
        Some(Err(fault)) => Err(fault),
        _ => Ok(None),
    }
}

// Whether a chunk is read as itself, and its copy is the same, from a device that shares.
fn is_shared_as_read(alloc: Global, chunk: &Chunk<AnyArray>) -> Result<bool, Fault> {
    let stream = shared_stream(alloc, chunk)?;
    let Some(shared) = first_chunk(alloc, stream.clone()?)? else {
        return Ok(false);
    };
    let copied = first_chunk(alloc, stream.as_slice())?;
    Ok(shared == *chunk && shared.compact(alloc)? == *chunk && copied == Some(shared))
}

#[test]
fn each_kind_is_read_from_shared_bytes(rt: HostRuntime) -> Result<(), Fault> {
    let alloc = rt.alloc();
    for kind in COLUMN_KINDS {
        assert!(rt; is_shared_as_read(alloc, &chunk_of_kind(alloc, kind)?)?);
    }
    Ok(())
}

// These bytes in memory that several owners may share, `shift` bytes after its start.
fn shifted(alloc: Global, bytes: &[u8], shift: usize) -> Result<Buffer<u8>, AllocError> {
    let mut all = Vec::new(alloc);
    for _ in 0..shift {
        all.push(0u8)?;
    }
    all.extend_from_slice(bytes)?;
    let all = Buffer::new(all)?;
    let first = all.len().saturating_sub(bytes.len());
    all.part(first, all.len() - first)
}

// Whether a chunk is read as itself from shared bytes at each alignment from 0 to 15.
fn is_read_at_each_alignment(alloc: Global, chunk: &Chunk<AnyArray>) -> Result<bool, Fault> {
    let stream = shared_stream(alloc, chunk)?;
    for shift in 0..16 {
        match first_chunk(alloc, shifted(alloc, stream.as_slice(), shift)?)? {
            Some(read) if read == *chunk => {}
            _ => return Ok(false),
        }
    }
    Ok(true)
}

#[test]
fn shared_bytes_may_have_any_alignment(rt: HostRuntime) -> Result<(), Fault> {
    let alloc = rt.alloc();
    for kind in COLUMN_KINDS {
        assert!(rt; is_read_at_each_alignment(alloc, &chunk_of_kind(alloc, kind)?)?);
    }
    Ok(())
}

// The texts of a chunk of one column.
fn chunk_of_texts(alloc: Global) -> Result<Chunk<AnyArray>, Fault> {
    Chunk::try_new(vec![in alloc; AnyArray::from(texts(alloc)?)]?)
}

#[test]
fn texts_share_the_stream_until_they_are_compact(rt: HostRuntime) -> Result<(), Fault> {
    let alloc = rt.alloc();
    let stream = shared_stream(alloc, &chunk_of_texts(alloc)?)?;
    let size = stream.retained_bytes();
    let chunk = first_chunk(alloc, stream.clone()?)?.expect(&rt, "the stream has a chunk");
    assert!(rt;
        chunk.retained_bytes() >= size,
        "the chunk has its own memory"
    );
    let stream = stream
        .into_vec()
        .err()
        .expect(&rt, "the chunk has its own memory");
    let own = chunk.compact(alloc)?;
    drop(chunk);
    assert!(rt; own.retained_bytes() < size, "the copy retains the stream");
    assert!(rt; stream.into_vec().is_ok(), "the copy retains the stream");
    Ok(())
}

// Two values of a buffer, by a part of it.
fn two_values(all: &Buffer<u64>) -> Result<Option<Buffer<u64>>, AllocError> {
    if all.len() < 3 {
        return Ok(None);
    }
    Ok(Some(all.part(1, 2)?))
}

#[test]
fn parts_retain_all_and_copies_their_own(rt: HostRuntime) -> Result<(), Fault> {
    let alloc = rt.alloc();
    let all = Buffer::new(Vec::from_slice(alloc, &[7u64; 64])?)?;
    let size = all.retained_bytes();
    assert!(rt; size >= 512);
    let part = two_values(&all)?.expect(&rt, "the buffer has three values");
    assert_eq!(rt; part.retained_bytes(), size);
    let own = part.compact(alloc)?;
    assert!(rt; own.as_slice() == [7u64, 7].as_slice());
    assert!(rt;
        own.retained_bytes() < size,
        "the copy retains the other values"
    );
    Ok(())
}
