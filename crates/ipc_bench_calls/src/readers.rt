//! Readers that are tried with any columns, the block of an item, and the device of a writer.

use arrow2_ipc::array::{AnyArray, Int64Array};
use arrow2_ipc::chunk::Chunk;
use arrow2_ipc::datatypes::{DataType, Field, Schema};
use arrow2_ipc::io::ipc::fault::{Fault, MemFile};
use arrow2_ipc::io::ipc::read::{
    FileReader, StreamReader, read_file_metadata, read_stream_metadata,
};
use arrow2_ipc::io::ipc::write::{FileWriter, StreamWriter, WriteOptions};
use std::alloc::{AllocError, Global};
use std::test::Fail;

// Two columns of integers.
fn make_schema(alloc: Global) -> Result<Schema, AllocError> {
    let first = Field::new("a".to_string(alloc)?, DataType::Int64, false);
    let second = Field::new("b".to_string(alloc)?, DataType::Int64, false);
    Ok(Schema::from(vec![in alloc; first, second]?))
}

fn make_chunk(alloc: Global) -> Result<Chunk<AnyArray>, Fault> {
    let first = Int64Array::from_slice(alloc, &[1])?;
    let second = Int64Array::from_slice(alloc, &[2])?;
    Chunk::try_new(vec![in alloc; AnyArray::from(first), AnyArray::from(second)]?)
}

// A stream of one chunk, and whether its writer showed the bytes that it had written.
fn write_stream(alloc: Global) -> Result<(Vec<u8>, bool), Fault> {
    let mut writer = StreamWriter::new(alloc, Vec::new(alloc), WriteOptions::default());
    let was_empty = writer.get_ref().is_empty();
    writer.start(&make_schema(alloc)?, None)?;
    writer.write(&make_chunk(alloc)?, None)?;
    writer.finish()?;
    let shown = writer.get_ref().len();
    let bytes = writer.into_inner();
    let is_shown = was_empty && shown == bytes.len();
    Ok((bytes, is_shown))
}

// A file of two blocks, and whether its writer showed the bytes that it had written.
fn write_file(alloc: Global) -> Result<(Vec<u8>, bool), Fault> {
    let schema = make_schema(alloc)?;
    let options = WriteOptions::default();
    let mut writer = FileWriter::try_new(alloc, Vec::new(alloc), schema, None, options)?;
    let was_empty = writer.get_ref().is_empty();
    writer.write(&make_chunk(alloc)?, None)?;
    writer.write(&make_chunk(alloc)?, None)?;
    writer.finish()?;
    let shown = writer.get_ref().len();
    let bytes = writer.into_inner();
    let is_shown = !was_empty && shown == bytes.len();
    Ok((bytes, is_shown))
}

#[test]
fn writers_show_their_devices(rt: HostRuntime) -> Result<(), Fail> {
    let (_, of_stream) = write_stream(rt.alloc())?;
    assert!(rt; of_stream);
    let (_, of_file) = write_file(rt.alloc())?;
    assert!(rt; of_file);
    Ok(())
}

// Requested columns, and whether two columns have them, each once.
const REQUESTS: [(Option<&[usize]>, bool); 7] = [
    (None, true),
    (Some(&[]), true),
    (Some(&[1]), true),
    (Some(&[1, 0]), true),
    (Some(&[2]), false),
    (Some(&[0, 2]), false),
    (Some(&[0, 0]), false),
];

fn columns(alloc: Global, request: Option<&[usize]>) -> Result<Option<Vec<usize>>, AllocError> {
    match request {
        Some(columns) => Ok(Some(Vec::from_slice(alloc, columns)?)),
        None => Ok(None),
    }
}

// How many columns the reader of a stream shows, if it is made.
fn tried_stream(
    alloc: Global,
    bytes: &[u8],
    request: Option<&[usize]>,
) -> Result<Option<usize>, Fault> {
    let mut input = MemFile::new(bytes);
    let metadata = read_stream_metadata(alloc, &mut input)?;
    let columns = columns(alloc, request)?;
    match StreamReader::try_new(alloc, input, metadata, columns)? {
        Some(reader) => Ok(Some(reader.schema().fields.len())),
        None => Ok(None),
    }
}

#[test]
fn stream_readers_are_tried(rt: HostRuntime) -> Result<(), Fail> {
    let (bytes, _) = write_stream(rt.alloc())?;
    for (request, is_there) in REQUESTS {
        let count = request.map_or(2, |columns| columns.len());
        let wanted = if is_there { Some(count) } else { None };
        assert_eq!(rt; tried_stream(rt.alloc(), &bytes, request)?, wanted);
    }
    Ok(())
}

#[test]
fn ids_of_another_shape_give_no_reader(rt: HostRuntime) -> Result<(), Fail> {
    let (bytes, _) = write_stream(rt.alloc())?;
    let mut input = MemFile::new(bytes.as_slice());
    let mut metadata = read_stream_metadata(rt.alloc(), &mut input)?;
    metadata.ipc_schema.fields.pop();
    let made = StreamReader::try_new(rt.alloc(), input, metadata, None)?;
    assert!(rt; made.is_none());
    Ok(())
}

// How many columns the reader of a file shows, if it is made.
fn tried_file(
    alloc: Global,
    bytes: &[u8],
    request: Option<&[usize]>,
) -> Result<Option<usize>, Fault> {
    let mut input = MemFile::new(bytes);
    let metadata = read_file_metadata(alloc, &mut input)?;
    let columns = columns(alloc, request)?;
    match FileReader::try_new(alloc, input, metadata, columns, None)? {
        Some(reader) => Ok(Some(reader.schema().fields.len())),
        None => Ok(None),
    }
}

#[test]
fn file_readers_are_tried(rt: HostRuntime) -> Result<(), Fail> {
    let (bytes, _) = write_file(rt.alloc())?;
    for (request, is_there) in REQUESTS {
        let count = request.map_or(2, |columns| columns.len());
        let wanted = if is_there { Some(count) } else { None };
        assert_eq!(rt; tried_file(rt.alloc(), &bytes, request)?, wanted);
    }
    Ok(())
}

// The block of the last item, before each of three calls of `next` and after them.
fn blocks(alloc: Global, bytes: &[u8]) -> Result<[Option<usize>; 4], Fault> {
    let mut input = MemFile::new(bytes);
    let metadata = read_file_metadata(alloc, &mut input)?;
    let Some(mut reader) = FileReader::try_new(alloc, input, metadata, None, None)? else {
        return Err(Fault::Ended);
    };
    let none = reader.block();
    let first = reader.next().transpose()?;
    let of_first = reader.block();
    let second = reader.next().transpose()?;
    let of_second = reader.block();
    let third = reader.next().transpose()?;
    if first.is_none() || second.is_none() || third.is_some() {
        return Err(Fault::Ended);
    }
    Ok([none, of_first, of_second, reader.block()])
}

#[test]
fn blocks_of_items_are_known(rt: HostRuntime) -> Result<(), Fail> {
    let (bytes, _) = write_file(rt.alloc())?;
    let wanted = [None, Some(0), Some(1), Some(1)];
    assert!(rt; blocks(rt.alloc(), &bytes)? == wanted);
    Ok(())
}
