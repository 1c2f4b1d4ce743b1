//! Dictionaries that columns share, and the greatest number of dictionary messages before a record
//! batch.

use crate::encoding::encode;
use crate::sharing::shares;
use crate::stream_read::next_answer;
use arrow2_ipc::array::AnyArray;
use arrow2_ipc::chunk::Chunk;
use arrow2_ipc::datatypes::Field;
use arrow2_ipc::io::ipc::IpcSchema;
use arrow2_ipc::io::ipc::fault::{Fault, MemFile};
use arrow2_ipc::io::ipc::read::{Dictionaries, StreamReader, read_stream_metadata};
use arrow2_ipc::io::ipc::write::{EncodedData, StreamWriter, WriteOptions, default_ipc_fields};
use bench_devices::dictionary_chunks::{
    DictionaryChunks, dictionary_chunk, dictionary_schema, make_dictionary_chunks,
};
use bench_devices::pieces::Pieces;
use bench_devices::single_message::{MessageOnDevice, read_columns, read_values};
use bench_devices::trace::{Call, Trace};
use std::alloc::{AllocError, Global};
use std::collections::HashMap;
use std::sync::Arc;

// An encoded message, whose body is a device of its own.
fn on_device(encoded: &EncodedData) -> MessageOnDevice<'_> {
    MessageOnDevice {
        message: encoded.ipc_message.as_slice(),
        body: 0,
        length: encoded.arrow_data.len() as u64,
    }
}

// Reads the values of dictionary messages.
fn read_dictionaries(
    alloc: Global,
    messages: &[EncodedData],
    fields: &[Field],
    ids: &IpcSchema,
) -> Result<Dictionaries, Fault> {
    let mut dictionaries: Dictionaries = HashMap::new(alloc);
    for message in messages {
        read_encoded_values(alloc, message, fields, ids, &mut dictionaries)?;
    }
    Ok(dictionaries)
}

// Reads the values of a dictionary message into these dictionaries.
fn read_encoded_values(
    alloc: Global,
    encoded: &EncodedData,
    fields: &[Field],
    ids: &IpcSchema,
    dictionaries: &mut Dictionaries,
) -> Result<(), Fault> {
    let mut body = MemFile::new(encoded.arrow_data.as_slice());
    read_values(
        alloc,
        on_device(encoded),
        fields,
        ids,
        dictionaries,
        &mut body,
    )
}

// Reads the columns of a record batch message.
fn read_encoded_columns(
    alloc: Global,
    encoded: &EncodedData,
    fields: &[Field],
    ids: &IpcSchema,
    dictionaries: &Dictionaries,
) -> Result<Chunk<AnyArray>, Fault> {
    let mut body = MemFile::new(encoded.arrow_data.as_slice());
    read_columns(
        alloc,
        on_device(encoded),
        fields,
        ids,
        dictionaries,
        &mut body,
    )
}

// Whether each column is a dictionary column with these values, in the same memory.
fn all_share(chunk: &Chunk<AnyArray>, values: Option<&Arc<AnyArray>>) -> Result<bool, AllocError> {
    let Some(values) = values else {
        return Ok(false);
    };
    for column in chunk.iter() {
        if !is_shared(column, values)? {
            return Ok(false);
        }
    }
    Ok(true)
}

fn is_shared(column: &AnyArray, values: &Arc<AnyArray>) -> Result<bool, AllocError> {
    match column {
        AnyArray::Dictionary(keys) => shares(keys, values),
        _ => Ok(false),
    }
}

// Whether the columns that are read from a chunk's messages are the chunk's, and share the values
// of the dictionary.
fn is_read_with_shared_values(alloc: Global, chunk: &Chunk<AnyArray>) -> Result<bool, Fault> {
    let schema = dictionary_schema(alloc)?;
    let ids = IpcSchema {
        fields: default_ipc_fields(alloc, &schema.fields)?,
        is_little_endian: true,
    };
    let (messages, record) = encode(alloc, chunk, &ids.fields)?;
    let dictionaries = read_dictionaries(alloc, &messages, &schema.fields, &ids)?;
    let read = read_encoded_columns(alloc, &record, &schema.fields, &ids, &dictionaries)?;
    Ok(read == *chunk && all_share(&read, dictionaries.get(&0))?)
}

#[test]
fn read_columns_share_the_values_of_their_dictionary(rt: HostRuntime) -> Result<(), Fault> {
    let alloc = rt.alloc();
    let chunk = dictionary_chunk(alloc, &[1, 0], &[5, 6])?;
    assert!(rt; is_read_with_shared_values(alloc, &chunk)?);
    Ok(())
}

// The messages of a stream: the schema, a dictionary, and a record batch with keys into that
// dictionary.
#[derive(Drop)]
struct Messages {
    schema: Vec<u8>,
    dictionary: Vec<u8>,
    record: Vec<u8>,
}

// A stream of the first chunks, without its end. The second chunk has the dictionary of the first.
fn unfinished_stream(
    alloc: Global,
    chunks: &DictionaryChunks,
    count: usize,
) -> Result<Vec<u8>, Fault> {
    let mut writer = StreamWriter::new(alloc, Vec::new(alloc), WriteOptions::default());
    writer.start(&chunks.schema, None)?;
    for chunk in chunks.chunks.iter().take(count) {
        writer.write(chunk, None)?;
    }
    Ok(writer.into_inner())
}

fn part(alloc: Global, bytes: &[u8], start: usize, end: usize) -> Result<Vec<u8>, AllocError> {
    Vec::from_slice(alloc, bytes.get(start..end).unwrap_or(&[]))
}

fn make_messages(alloc: Global, chunks: &DictionaryChunks) -> Result<Messages, Fault> {
    let schema = unfinished_stream(alloc, chunks, 0)?;
    let one = unfinished_stream(alloc, chunks, 1)?.len();
    let two = unfinished_stream(alloc, chunks, 2)?;
    // Both record batch messages have the same length.
    let dictionary_end = one.saturating_sub(two.len().saturating_sub(one));
    Ok(Messages {
        dictionary: part(alloc, &two, schema.len(), dictionary_end)?,
        record: part(alloc, &two, dictionary_end, one)?,
        schema,
    })
}

// Appends these bytes, so many times.
fn append_times(bytes: &mut Vec<u8>, more: &[u8], times: u32) -> Result<(), AllocError> {
    for _ in 0..times {
        bytes.extend_from_slice(more)?;
    }
    Ok(())
}

// The schema and dictionaries, a pause, and further dictionaries and a record batch.
fn with_pause(
    alloc: Global,
    messages: &Messages,
    before: u32,
    after: u32,
) -> Result<Pieces, AllocError> {
    let mut first = messages.schema.clone()?;
    append_times(&mut first, &messages.dictionary, before)?;
    let mut second = Vec::new(alloc);
    append_times(&mut second, &messages.dictionary, after)?;
    second.extend_from_slice(&messages.record)?;
    Pieces::new(alloc, &[first.as_slice(), second.as_slice()])
}

// What three calls of a reader return.
fn read_three(
    alloc: Global,
    chunks: &DictionaryChunks,
    mut device: Pieces,
) -> Result<Trace, Fault> {
    let metadata = read_stream_metadata(alloc, &mut device)?;
    let mut reader = StreamReader::new(alloc, device, metadata, None)?;
    let mut trace = Trace::new();
    for _ in 0..3 {
        trace.add(Call::Next, next_answer(chunks, &mut reader));
    }
    trace.unless_out_of_memory()
}

const ALL_READ: &str = "
    next waiting
    next a
    next waiting
    ";

const TOO_MANY: &str = "
    next waiting
    next too many dictionaries
    next end
    ";

// A reader accepts 65,536 dictionary messages before a record batch. It counts on where the device
// has paused between them.
#[test]
fn dictionaries_are_counted_across_a_pause(rt: HostRuntime) -> Result<(), Fault> {
    let alloc = rt.alloc();
    let chunks = make_dictionary_chunks(alloc)?;
    let messages = make_messages(alloc, &chunks)?;
    let trace = read_three(alloc, &chunks, with_pause(alloc, &messages, 65_535, 1)?)?;
    assert!(rt; trace.is(ALL_READ), "expected:{ALL_READ}\ngot:{trace}");
    let trace = read_three(alloc, &chunks, with_pause(alloc, &messages, 65_535, 2)?)?;
    assert!(rt; trace.is(TOO_MANY), "expected:{TOO_MANY}\ngot:{trace}");
    Ok(())
}
