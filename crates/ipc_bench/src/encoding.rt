//! Chunks are encoded as messages, by `encode_chunk`.

use arrow2_ipc::array::{AnyArray, ListArray, ListOffsets};
use arrow2_ipc::buffer::Buffer;
use arrow2_ipc::chunk::Chunk;
use arrow2_ipc::datatypes::DataType;
use arrow2_ipc::io::ipc::IpcField;
use arrow2_ipc::io::ipc::fault::{ArgFault, Fault};
use arrow2_ipc::io::ipc::write::{
    DictionaryTracker, EncodedData, StreamWriter, WriteOptions, default_ipc_fields, encode_chunk,
    write_message,
};
use arrow2_ipc::offset::OffsetsBuffer;
use bench_devices::column_kinds::field_of;
use bench_devices::dictionary_chunks::{dictionary_chunk, dictionary_schema};
use bench_devices::fixtures::{error_of, int32};
use std::alloc::Global;

/// The id 0 of one dictionary column.
pub fn make_ids(alloc: Global) -> Result<Vec<IpcField>, Fault> {
    let id = IpcField {
        fields: Vec::new(alloc),
        dictionary_id: Some(0),
    };
    Ok(vec![in alloc; id]?)
}

/// How many dictionaries have to be written with a chunk.
pub fn count_dictionaries(
    alloc: Global,
    chunk: &Chunk<AnyArray>,
    ids: &[IpcField],
    tracker: &mut DictionaryTracker,
) -> Result<usize, Fault> {
    let options = WriteOptions::default();
    let (dictionaries, _record) = encode_chunk(alloc, chunk, ids, tracker, &options)?;
    Ok(dictionaries.len())
}

// A writer of a stream that has started.
fn start(alloc: Global) -> Result<StreamWriter<Vec<u8>>, Fault> {
    let mut writer = StreamWriter::new(alloc, Vec::new(alloc), WriteOptions::default());
    writer.start(&dictionary_schema(alloc)?, Some(make_ids(alloc)?))?;
    Ok(writer)
}

/// The dictionary messages and the record batch message of the first chunk of a stream.
pub fn encode(
    alloc: Global,
    chunk: &Chunk<AnyArray>,
    ids: &[IpcField],
) -> Result<(Vec<EncodedData>, EncodedData), Fault> {
    let mut tracker = DictionaryTracker::new(alloc, false);
    encode_chunk(alloc, chunk, ids, &mut tracker, &WriteOptions::default())
}

// Appends the messages of a chunk to these bytes.
fn append_messages(
    alloc: Global,
    chunk: &Chunk<AnyArray>,
    bytes: &mut Vec<u8>,
) -> Result<(), Fault> {
    let (mut messages, record) = encode(alloc, chunk, &make_ids(alloc)?)?;
    messages.push(record)?;
    for message in &messages {
        write_message(bytes, message)?;
    }
    Ok(())
}

#[test]
fn stream_has_the_messages_of_its_chunks(rt: HostRuntime) -> Result<(), Fault> {
    let alloc = rt.alloc();
    let chunk = dictionary_chunk(alloc, &[0], &[5])?;
    let mut writer = start(alloc)?;
    writer.write(&chunk, None)?;
    let mut bytes = start(alloc)?.into_inner();
    append_messages(alloc, &chunk, &mut bytes)?;
    assert!(rt; writer.into_inner() == bytes);
    Ok(())
}

// The offsets of no lists.
fn no_offsets(alloc: Global) -> Result<ListOffsets, Fault> {
    let offsets = Buffer::new(Vec::from_slice(alloc, &[0i32])?)?;
    Ok(ListOffsets::Small(OffsetsBuffer::try_new(offsets)?))
}

// An empty array of lists of these elements.
fn list_of(alloc: Global, child: AnyArray) -> Result<AnyArray, Fault> {
    let data_type = DataType::List(Box::new(alloc, field_of(alloc, &child)?)?);
    let child = Box::new(alloc, child)?;
    let array = ListArray::try_new(data_type, no_offsets(alloc)?, child, None)?;
    Ok(array.boxed())
}

// An empty array of lists of lists, with this many levels of lists above 32-bit numbers.
fn nested_lists(alloc: Global, levels: usize) -> Result<AnyArray, Fault> {
    let mut array = int32(alloc, &[])?;
    for _ in 0..levels {
        array = list_of(alloc, array)?;
    }
    Ok(array)
}

// The ids by default of a column.
fn ids_of(alloc: Global, column: &AnyArray) -> Result<Vec<IpcField>, Fault> {
    let fields = vec![in alloc; field_of(alloc, column)?]?;
    default_ipc_fields(alloc, &fields)
}

// How many dictionaries have to be written with a column of such lists.
fn count_dictionaries_of_lists(alloc: Global, levels: usize) -> Result<usize, Fault> {
    let column = nested_lists(alloc, levels)?;
    let ids = ids_of(alloc, &column)?;
    let chunk = Chunk::try_new(vec![in alloc; column]?)?;
    let mut tracker = DictionaryTracker::new(alloc, false);
    count_dictionaries(alloc, &chunk, &ids, &mut tracker)
}

// A case of `cases` can't name the ids of so many levels: JSON is read to 127 levels, and each
// level of lists takes two.
#[test]
fn column_of_65_levels_is_refused(rt: HostRuntime) -> Result<(), Fault> {
    let alloc = rt.alloc();
    let refused = error_of(count_dictionaries_of_lists(alloc, 64))?;
    assert!(rt; matches!(refused, Some(Fault::Argument(ArgFault::NotWritable))));
    assert_eq!(rt; count_dictionaries_of_lists(alloc, 63)?, 0);
    Ok(())
}
