//! The chunks of a stream in a loop.

use arrow2_ipc::array::{AnyArray, Int64Array};
use arrow2_ipc::chunk::Chunk;
use arrow2_ipc::datatypes::{DataType, Field, Schema};
use arrow2_ipc::io::ipc::fault::{Fault, MemFile};
use arrow2_ipc::io::ipc::read::{StreamReader, read_stream_metadata};
use arrow2_ipc::io::ipc::write::{StreamWriter, WriteOptions};
use std::alloc::Global;
use std::test::Fail;

// The bytes of an end mark.
const MARK: usize = 8;

fn one_number(alloc: Global, number: i64) -> Result<Chunk<AnyArray>, Fault> {
    let column = Int64Array::from_slice(alloc, &[number])?;
    Chunk::try_new(vec![in alloc; AnyArray::from(column)]?)
}

// A stream of the numbers 1 and 2, in a chunk each, with its end mark.
fn two_chunks(alloc: Global) -> Result<Vec<u8>, Fault> {
    let field = Field::new("a".to_string(alloc)?, DataType::Int64, false);
    let schema = Schema::from(vec![in alloc; field]?);
    let mut writer = StreamWriter::new(alloc, Vec::new(alloc), WriteOptions::default());
    writer.start(&schema, None)?;
    writer.write(&one_number(alloc, 1)?, None)?;
    writer.write(&one_number(alloc, 2)?, None)?;
    writer.finish()?;
    Ok(writer.into_inner())
}

// How a loop over the chunks of a stream went.
#[derive(Debug, Clone, Copy, PartialEq, Eq)]
struct Looped {
    // how many chunks there were, and how many errors
    chunks: usize,
    errors: usize,
    // whether the reader is finished, and whether a second loop has anything
    is_finished: bool,
    goes_on: bool,
}

fn loop_over(alloc: Global, bytes: &[u8]) -> Result<Looped, Fault> {
    let mut input = MemFile::new(bytes);
    let metadata = read_stream_metadata(alloc, &mut input)?;
    let Some(mut reader) = StreamReader::try_new(alloc, input, metadata, None)? else {
        return Err(Fault::Ended);
    };
    let mut chunks = 0usize;
    let mut errors = 0usize;
    for chunk in reader.chunks() {
        match chunk {
            Ok(_) => chunks = chunks.saturating_add(1),
            Err(Fault::Memory) => return Err(Fault::Memory),
            Err(_) => errors = errors.saturating_add(1),
        }
    }
    Ok(Looped {
        chunks,
        errors,
        is_finished: reader.is_finished(),
        goes_on: reader.chunks().next().is_some(),
    })
}

#[test]
fn loop_ends_at_the_mark(rt: HostRuntime) -> Result<(), Fail> {
    let bytes = two_chunks(rt.alloc())?;
    let wanted = Looped {
        chunks: 2,
        errors: 0,
        is_finished: true,
        goes_on: false,
    };
    assert_eq!(rt; loop_over(rt.alloc(), &bytes)?, wanted);
    Ok(())
}

#[test]
fn loop_ends_where_the_stream_waits(rt: HostRuntime) -> Result<(), Fail> {
    let mut bytes = two_chunks(rt.alloc())?;
    bytes.truncate(bytes.len().saturating_sub(MARK));
    let wanted = Looped {
        chunks: 2,
        errors: 0,
        is_finished: false,
        goes_on: false,
    };
    assert_eq!(rt; loop_over(rt.alloc(), &bytes)?, wanted);
    Ok(())
}

#[test]
fn loop_ends_after_an_error(rt: HostRuntime) -> Result<(), Fail> {
    let mut bytes = two_chunks(rt.alloc())?;
    bytes.truncate(bytes.len().saturating_sub(MARK + 1));
    let wanted = Looped {
        chunks: 1,
        errors: 1,
        is_finished: true,
        goes_on: false,
    };
    assert_eq!(rt; loop_over(rt.alloc(), &bytes)?, wanted);
    Ok(())
}
