//! Streams that are written and read by one call.
//! `"round_trip_of": {"fields": [FIELD, ..], "calls": [CALL, ..]}`, with the calls, the ids and the
//! byte order of `written.rt`, gives `{"answers": ["ok" or the error, ..], "chunks": [CHUNK, ..],
//! "is_finished": true, "is_schema_same": true}`, and if it has `"ids": [ID, ..]`,
//! `"are_ids_same": true`.
//!
//! `"whole_of": STREAM` reads a stream, and gives `{"chunks": [CHUNK, ..], "is_finished": true}`.
//! `"stream_columns_of": {"stream": STREAM, "chosen": [2, 0]}` gives the same with these columns
//! only, or null if the stream doesn't have all of them or one is listed twice.

use crate::calls::options;
use crate::written::{given_ids, stream};
use cases_arrays::chunks::{chunk, put_chunk};
use cases_arrays::schemas::schema;
use cases_notation::decoder::Decoder;
use cases_notation::text::Text;
use cases_records::projections::{chosen, chosen_fields};
use ipc_base::chunk::Chunk;
use ipc_devices::Fault;
use ipc_round_trip::columns::read_stream_columns;
use ipc_round_trip::read::{WholeStream, read_stream};
use ipc_round_trip::round_trip::{RoundTrip, round_trip};
use ipc_write::calls::StreamCall;
use lower::datatypes::{Field, Schema};
use lower_arrays::array::AnyArray;
use serde_json::Value;

/// A call of a writer, with the chunk that it writes.
#[derive(Drop)]
pub enum Call {
    Start,
    Write(Chunk<AnyArray>),
    Finish,
}

fn call_of(d: &mut Decoder, value: &Value) -> Option<Call> {
    if let Some(columns) = value.get("write") {
        return Some(Call::Write(chunk(d, columns)?));
    }
    match value.as_str() {
        Some("start") => Some(Call::Start),
        Some("finish") => Some(Call::Finish),
        _ => {
            d.miss("calls");
            None
        }
    }
}

/// The calls of a case.
pub fn calls_of(d: &mut Decoder, value: &Value) -> Vec<Call> {
    let mut calls = d.list();
    for call in d.items(value.get("calls"), "calls") {
        if let Some(call) = call_of(d, call) {
            d.push(&mut calls, call);
        }
    }
    calls
}

/// The same calls as arguments of a round trip.
pub fn borrowed<'a>(d: &mut Decoder, calls: &'a [Call]) -> Vec<StreamCall<'a>> {
    let mut all = d.list();
    for call in calls {
        d.push(&mut all, borrowed_call(call));
    }
    all
}

fn borrowed_call(call: &Call) -> StreamCall<'_> {
    match call {
        Call::Start => StreamCall::Start,
        Call::Write(chunk) => StreamCall::Write(chunk),
        Call::Finish => StreamCall::Finish,
    }
}

/// The results of the calls of a writer, and what is read of its bytes.
pub fn round_trip_of(d: &mut Decoder, out: &mut Text, value: &Value) {
    let schema = schema(d, value);
    if let Some(trip) = trip_of(d, &schema, value) {
        out.put("{");
        put_trip(out, &trip, &schema);
        put_same_ids(d, out, value, &trip);
        out.put("}");
    }
}

fn trip_of(d: &mut Decoder, schema: &Schema, value: &Value) -> Option<RoundTrip> {
    let calls = calls_of(d, value);
    let calls = borrowed(d, &calls);
    let ids = given_ids(d, value);
    let trip = round_trip(d.alloc(), schema, ids, &calls, options(value));
    d.take(trip)
}

fn put_trip(out: &mut Text, trip: &RoundTrip, schema: &Schema) {
    out.put("\"answers\":");
    put_answers(out, &trip.answers);
    out.put(",");
    put_whole_stream(out, &trip.stream, &schema.fields);
    out.put(",\"is_schema_same\":");
    out.show(&(trip.stream.metadata.schema == *schema));
}

// Appends whether the ids of a case were read back, as a further member.
fn put_same_ids(d: &mut Decoder, out: &mut Text, value: &Value, trip: &RoundTrip) {
    if let Some(ids) = given_ids(d, value) {
        out.put(",\"are_ids_same\":");
        out.show(&(trip.stream.metadata.ipc_schema.fields == ids));
    }
}

/// Appends the results of calls: `"ok"` or the error.
pub fn put_answers(out: &mut Text, answers: &[Result<(), Fault>]) {
    out.put("[");
    for answer in answers {
        out.comma();
        match answer {
            Ok(()) => out.put("\"ok\""),
            Err(fault) => out.shown(fault),
        }
    }
    out.put("]");
}

fn put_whole_stream(out: &mut Text, stream: &WholeStream, fields: &[Field]) {
    out.put("\"chunks\":[");
    for chunk in &stream.chunks {
        out.comma();
        put_chunk(out, chunk, fields);
    }
    out.put("],\"is_finished\":");
    out.show(&stream.is_finished);
}

/// All chunks of a stream, and whether its end is marked.
pub fn whole_of(d: &mut Decoder, out: &mut Text, value: &Value) {
    let stream = stream(d, value);
    let whole = read_stream(d.alloc(), &stream);
    if let Some(whole) = d.take(whole) {
        out.put("{");
        put_whole_stream(out, &whole, &whole.metadata.schema.fields);
        out.put("}");
    }
}

/// Some columns of a stream.
pub fn stream_columns_of(d: &mut Decoder, out: &mut Text, value: &Value) {
    let part = d.member(value, "stream");
    let stream = stream(d, part);
    let columns = chosen(d, value);
    if let Some(columns) = d.need(columns, "chosen") {
        let read = read_stream_columns(d.alloc(), &stream, columns);
        match d.take(read) {
            Some(Some(whole)) => put_stream_columns(d, out, value, &whole),
            _ => out.put("null"),
        }
    }
}

fn put_stream_columns(d: &mut Decoder, out: &mut Text, value: &Value, stream: &WholeStream) {
    let columns = chosen(d, value);
    let fields = chosen_fields(d, &stream.metadata.schema.fields, &columns);
    out.put("{");
    put_whole_stream(out, stream, &fields);
    out.put("}");
}
