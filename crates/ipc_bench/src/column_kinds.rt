//! A column of each kind is cloned, written and read.
//!
//! In an ordinary run no allocation fails. `make refused` runs the tests with each of their
//! allocations failing in turn.

use arrow2_ipc::array::{AnyArray, ListArray, ListOffsets};
use arrow2_ipc::buffer::Buffer;
use arrow2_ipc::chunk::Chunk;
use arrow2_ipc::datatypes::{DataType, Schema};
use arrow2_ipc::io::ipc::IpcSchema;
use arrow2_ipc::io::ipc::fault::Fault;
use arrow2_ipc::io::ipc::read::{deserialize_schema, read_stream, read_stream_columns};
use arrow2_ipc::io::ipc::write::{
    StreamWriter, WriteOptions, default_ipc_fields, schema_to_bytes, schema_to_bytes_as,
};
use arrow2_ipc::offset::OffsetsBuffer;
use bench_devices::column_kinds::{
    COLUMN_KINDS, chunk_of_all_kinds, chunk_of_kind, field_of, lists, schema_of,
};
use bench_devices::fixtures::{empty_buffer, int32};
use std::alloc::Global;

#[test]
fn chunk_of_all_kinds_is_cloned(rt: HostRuntime) -> Result<(), Fault> {
    let chunk = chunk_of_all_kinds(rt.alloc())?;
    assert!(rt; chunk.clone()? == chunk);
    assert_eq!(rt; chunk.columns().len(), COLUMN_KINDS.len());
    Ok(())
}

// The stream of this chunk, with its end.
fn stream_of(alloc: Global, chunk: &Chunk<AnyArray>) -> Result<Vec<u8>, Fault> {
    let schema = schema_of(alloc, chunk)?;
    let mut writer = StreamWriter::new(alloc, empty_buffer(alloc)?, WriteOptions::default());
    writer.start(&schema, None)?;
    writer.write(chunk, None)?;
    writer.finish()?;
    Ok(writer.into_inner())
}

// Whether these chunks are this one alone.
fn is_only(chunks: &[Chunk<AnyArray>], chunk: &Chunk<AnyArray>) -> bool {
    match chunks {
        [read] => *read == *chunk,
        _ => false,
    }
}

// Whether a chunk comes back from a stream of it.
fn comes_back(alloc: Global, chunk: &Chunk<AnyArray>) -> Result<bool, Fault> {
    let bytes = stream_of(alloc, chunk)?;
    let read = read_stream(alloc, &bytes)?;
    Ok(is_only(&read.chunks, chunk) && read.is_finished)
}

#[test]
fn column_of_each_kind_comes_back(rt: HostRuntime) -> Result<(), Fault> {
    let alloc = rt.alloc();
    for kind in COLUMN_KINDS {
        assert!(rt; comes_back(alloc, &chunk_of_kind(alloc, kind)?)?);
    }
    Ok(())
}

// The chunk of a stream, its second column first.
fn read_turned(alloc: Global, bytes: &[u8]) -> Result<Option<Chunk<AnyArray>>, Fault> {
    let projection = Vec::from_slice(alloc, &[1usize, 0])?;
    match read_stream_columns(alloc, bytes, projection)? {
        Some(mut stream) => Ok(stream.chunks.pop()),
        None => Ok(None),
    }
}

fn lists_and_numbers(alloc: Global) -> Result<Chunk<AnyArray>, Fault> {
    let lists = AnyArray::from(lists(alloc)?);
    Chunk::try_new(vec![in alloc; lists, int32(alloc, &[3, 4])?]?)
}

fn numbers_and_lists(alloc: Global) -> Result<Chunk<AnyArray>, Fault> {
    let lists = AnyArray::from(lists(alloc)?);
    Chunk::try_new(vec![in alloc; int32(alloc, &[3, 4])?, lists]?)
}

#[test]
fn projected_columns_come_back(rt: HostRuntime) -> Result<(), Fault> {
    let alloc = rt.alloc();
    let bytes = stream_of(alloc, &lists_and_numbers(alloc)?)?;
    let read = read_turned(alloc, &bytes)?;
    assert!(rt; read == Some(numbers_and_lists(alloc)?));
    Ok(())
}

// The list of 7, and one of nothing.
fn list_and_empty_list(alloc: Global) -> Result<ListArray, Fault> {
    let child = int32(alloc, &[7])?;
    let data_type = DataType::List(Box::new(alloc, field_of(alloc, &child)?)?);
    let offsets = Buffer::new(Vec::from_slice(alloc, &[0i32, 1, 1])?)?;
    let offsets = ListOffsets::Small(OffsetsBuffer::try_new(offsets)?);
    Ok(ListArray::try_new(data_type, offsets, Box::new(alloc, child)?, None)?)
}

fn has_both_lists(alloc: Global, lists: &ListArray) -> Result<bool, Fault> {
    if lists.len() != 2 {
        return Ok(false);
    }
    Ok(lists.value(0)? == int32(alloc, &[7])? && lists.value(1)? == int32(alloc, &[])?)
}

#[test]
fn slots_of_lists_are_arrays(rt: HostRuntime) -> Result<(), Fault> {
    let alloc = rt.alloc();
    assert!(rt; has_both_lists(alloc, &list_and_empty_list(alloc)?)?);
    Ok(())
}

// ---- schemas

// The schema of columns of all kinds.
fn schema_of_all_kinds(alloc: Global) -> Result<Schema, Fault> {
    schema_of(alloc, &chunk_of_all_kinds(alloc)?)
}

// Reads back the schema message of a schema, in big-endian order.
fn read_back(alloc: Global, schema: &Schema) -> Result<(Schema, IpcSchema), Fault> {
    let ids = default_ipc_fields(alloc, &schema.fields)?;
    let message = schema_to_bytes_as(alloc, schema, &ids, false)?;
    deserialize_schema(alloc, &message)
}

#[test]
fn schema_of_all_kinds_comes_back(rt: HostRuntime) -> Result<(), Fault> {
    let alloc = rt.alloc();
    let schema = schema_of_all_kinds(alloc)?;
    let (read, ids) = read_back(alloc, &schema)?;
    assert!(rt; read == schema && !ids.is_little_endian);
    assert!(rt; ids.clone()?.fields.len() == COLUMN_KINDS.len());
    assert!(rt; schema.normal()? == schema);
    Ok(())
}

// The message of a schema, and another one of it.
fn both_messages(alloc: Global, schema: &Schema) -> Result<[Vec<u8>; 2], Fault> {
    let ids = default_ipc_fields(alloc, &schema.fields)?;
    let message = schema_to_bytes(alloc, schema, &ids)?;
    Ok([message, schema_to_bytes_as(alloc, schema, &ids, true)?])
}

#[test]
fn schema_message_has_the_lowest_byte_first(rt: HostRuntime) -> Result<(), Fault> {
    let alloc = rt.alloc();
    let [message, same] = both_messages(alloc, &schema_of_all_kinds(alloc)?)?;
    assert!(rt; message == same);
    Ok(())
}
