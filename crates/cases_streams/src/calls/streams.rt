//! Streams, in the notation of `written.rt`.
//!
//! `"read_of": STREAM` gives `{"chunks": [CHUNK, ..], "end": END}`. END is `"finished"` if the
//! stream ends with its mark, `"waiting"` if it ends without one, or the error that ends it.
//! `"written_by": {"fields": [FIELD, ..], "calls": [CALL, ..]}` gives
//! `{"answers": [..], "chunks": [..], "end": END}`: the result of each call of a writer, and what
//! is read back. `"bytes_by"` with the same parts gives `{"answers": [..], "bytes": HEX}`.
//! `"are_same_bytes": [STREAM, STREAM]` gives whether two streams have the same bytes.
//!
//! `"head_of": STREAM` gives a schema with its version.
//! `"answers_of": {"stream": STREAM, "calls": 2}` makes so many calls of `next`, and gives
//! `{"answers": [[ANSWER, FINISHED], ..], "columns": ["x: Int32", ..], "fits": true, "order":
//! "little", "version": "V5"}`. An ANSWER is a chunk, `"waiting"`, null or an error, and FINISHED
//! is whether the reader is finished after it. The other members are read from the reader after all
//! calls. With `"projection": [2, 0]` the reader returns these columns only, in this order.

use crate::written::{stream, write};
use cases_arrays::chunks::put_chunk;
pub use cases_arrays::schemas::put_fields as put_columns;
use cases_arrays::schemas::{put_schema, schema};
use cases_notation::decoder::Decoder;
use cases_notation::failure::Failure;
use cases_notation::text::Text;
use cases_records::calls::projections::projection_in;
use ipc_base::ipc::fits;
use ipc_devices::MemFile;
use ipc_devices::fault::Fault;
use ipc_projection::read::projection::is_projection;
use ipc_readers::read::stream::{StreamMetadata, StreamReader, StreamState, read_stream_metadata};
use lower::datatypes::Field;
use serde_json::Value;
use std::alloc::Global;

/// A reader of a stream in memory.
pub type Reader<'a> = StreamReader<MemFile<&'a [u8]>>;

/// A reader of a stream, after its schema.
pub fn opened(alloc: Global, stream: &[u8]) -> Result<Reader<'_>, Fault> {
    let mut input = MemFile::new(stream);
    let metadata = read_stream_metadata(alloc, &mut input)?;
    StreamReader::new(alloc, input, metadata, None)
}

// The same for the columns of a projection.
fn projected(alloc: Global, stream: &[u8], projection: Vec<usize>) -> Result<Reader<'_>, Failure> {
    let mut input = MemFile::new(stream);
    let metadata = read_stream_metadata(alloc, &mut input)?;
    if !is_projection(&projection, metadata.schema.fields.len()) {
        return Err(Failure::Notation("projection"));
    }
    Ok(StreamReader::new(alloc, input, metadata, Some(projection))?)
}

/// The chunks of a stream, and its end.
pub fn read_of(d: &mut Decoder, out: &mut Text, value: &Value) {
    let stream = stream(d, value);
    out.put("{");
    put_whole(d, out, &stream);
    out.put("}");
}

/// Appends the chunks of a stream and its end, as members.
pub fn put_whole(d: &mut Decoder, out: &mut Text, stream: &[u8]) {
    let opened = opened(d.alloc(), stream);
    if let Some(mut reader) = d.take(opened) {
        put_whole_read(d, out, &mut reader);
    }
}

fn put_whole_read(d: &mut Decoder, out: &mut Text, reader: &mut Reader<'_>) {
    let metadata = reader.metadata().clone();
    if let Some(metadata) = d.take(metadata) {
        put_read(out, reader, &metadata.schema.fields);
    }
}

fn put_read(out: &mut Text, reader: &mut Reader<'_>, fields: &[Field]) {
    out.put("\"chunks\":[");
    let end = put_chunks(out, reader, fields);
    out.put("],\"end\":");
    match end {
        None if reader.is_finished() => out.put("\"finished\""),
        None => out.put("\"waiting\""),
        Some(fault) => out.shown(&fault),
    }
}

// The result of the next call.
#[derive(Drop)]
enum Progress {
    Chunk,
    Over,
    Refused(Fault),
}

fn put_next(out: &mut Text, reader: &mut Reader<'_>, fields: &[Field]) -> Progress {
    match reader.next() {
        Some(Ok(StreamState::Some(chunk))) => {
            out.comma();
            put_chunk(out, &chunk, fields);
            Progress::Chunk
        }
        Some(Ok(StreamState::Waiting)) | None => Progress::Over,
        Some(Err(fault)) => Progress::Refused(fault),
    }
}

// Appends the chunks of a reader. Returns the error that ends them, if there is one.
fn put_chunks(out: &mut Text, reader: &mut Reader<'_>, fields: &[Field]) -> Option<Fault> {
    for _ in 0..u64::MAX {
        match put_next(out, reader, fields) {
            Progress::Chunk => {}
            Progress::Over => return None,
            Progress::Refused(fault) => return Some(fault),
        }
    }
    None
}

/// The results of the calls of a writer, and what is read of its bytes.
pub fn written_by(d: &mut Decoder, out: &mut Text, value: &Value) {
    let wanted = schema(d, value);
    out.put("{\"answers\":");
    let stream = write(d, out, value);
    out.put(",");
    put_stream(d, out, &stream, &wanted.fields);
    out.put("}");
}

// Appends the chunks of a stream, whose columns have these fields, and its end.
fn put_stream(d: &mut Decoder, out: &mut Text, stream: &[u8], fields: &[Field]) {
    let opened = opened(d.alloc(), stream);
    if let Some(mut reader) = d.take(opened) {
        put_read(out, &mut reader, fields);
    }
}

/// The results of the calls of a writer, and its bytes.
pub fn bytes_by(d: &mut Decoder, out: &mut Text, value: &Value) {
    out.put("{\"answers\":");
    let stream = write(d, out, value);
    out.put(",\"bytes\":");
    out.hex(&stream);
    out.put("}");
}

/// Whether two streams have the same bytes.
pub fn are_same_bytes(d: &mut Decoder, out: &mut Text, value: &Value) {
    let (first, second) = d.both(value, "are_same_bytes");
    let first = stream(d, first);
    let second = stream(d, second);
    out.show(&(first == second));
}

// ---- the calls of a reader

/// The schema of a stream, and its version.
pub fn head_of(d: &mut Decoder, out: &mut Text, value: &Value) {
    let stream = stream(d, value);
    let head = read_stream_metadata(d.alloc(), &mut MemFile::new(stream.as_slice()));
    if let Some(head) = d.take(head) {
        put_schema(out, &head.schema, &head.ipc_schema);
        out.put(" ");
        out.debug(&head.version);
    }
}

/// The results of so many calls of a reader.
pub fn answers_of(d: &mut Decoder, out: &mut Text, value: &Value) {
    let part = d.member(value, "stream");
    let stream = stream(d, part);
    if let Some(mut reader) = reader_of(d, &stream, value) {
        out.put("{\"answers\":[");
        put_answers(d, out, &mut reader, value);
        out.put("],\"columns\":[");
        put_columns(d, out, &reader.schema().fields);
        out.put("],");
        put_head(out, reader.metadata());
        out.put("}");
    }
}

// A reader of the columns of a case, or of all.
fn reader_of<'a>(d: &mut Decoder, stream: &'a [u8], value: &Value) -> Option<Reader<'a>> {
    if value.get("projection").is_none() {
        let opened = opened(d.alloc(), stream);
        return d.take(opened);
    }
    let projection = projection_in(d, value);
    let projected = projected(d.alloc(), stream, projection);
    d.take(projected)
}

fn put_answers(d: &mut Decoder, out: &mut Text, reader: &mut Reader<'_>, value: &Value) {
    let schema = reader.schema().clone();
    if let Some(schema) = d.take(schema) {
        for _ in 0..d.count(value.get("calls"), "calls") {
            out.comma();
            put_answer(out, reader, &schema.fields);
        }
    }
}

fn put_answer(out: &mut Text, reader: &mut Reader<'_>, fields: &[Field]) {
    out.put("[");
    match reader.next() {
        None => out.put("null"),
        Some(Ok(StreamState::Waiting)) => out.put("\"waiting\""),
        Some(Ok(StreamState::Some(chunk))) => put_chunk(out, &chunk, fields),
        Some(Err(fault)) => out.shown(&fault),
    }
    out.put(",");
    out.show(&reader.is_finished());
    out.put("]");
}

fn put_head(out: &mut Text, head: &StreamMetadata) {
    out.put("\"fits\":");
    out.show(&fits(&head.schema.fields, &head.ipc_schema.fields));
    put_order(out, head.ipc_schema.is_little_endian);
    out.put(",\"version\":");
    out.name(&head.version);
}

/// Appends the byte order, as a further member.
pub fn put_order(out: &mut Text, is_little_endian: bool) {
    out.put(if is_little_endian {
        ",\"order\":\"little\""
    } else {
        ",\"order\":\"big\""
    });
}
