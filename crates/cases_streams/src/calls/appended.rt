//! Arrays that are appended to the parts of a batch, and records.
//!
//! `"appended": {"arrays": [ARRAY, ..], "offset": 0, "order": "big", "body": BYTES}` appends arrays
//! to the parts of an empty batch, whose first buffer is at this offset. The order may be left out.
//! It gives `{"answers": ["ok", ..], "body": true, "buffers": [[0, 0], [0, 8]], "nodes": [[2, 0]],
//! "offset": 64}`: the result of each call, the parts after all calls, and whether the encoded
//! bytes are those of `body`. If they are others, `body` has the encoded bytes instead.
//!
//! `"record_of": {"fields": [FIELD, ..], "ids": [ID, ..], "columns": [ARRAY, ..]}` makes three
//! records: one that borrows a chunk and its ids, one that owns both, and one of the chunk alone.
//! It gives `{"are_same": true, "lent": RECORD, "of_chunk": RECORD, "owned": RECORD}`: whether the
//! first two are equal, clones of these two, and the third one. A RECORD is
//! `{"columns": [SLOTS, ..], "ids": TEXT}`.

use crate::calls::put_answer;
use cases_arrays::arrays::arrays;
use cases_arrays::chunks::{chunk, put_columns};
use cases_arrays::schemas::{ids_of, schema};
use cases_notation::bytes::bytes;
use cases_notation::decoder::Decoder;
use cases_notation::text::Text;
use cases_notation::types::{LEVELS, is_little_endian};
use ipc_base::chunk::Chunk;
use ipc_base::ipc::{IpcField, clone_ipc_fields};
use ipc_encode::common::Record;
use ipc_encode::serialize::write;
use ipc_table_views::{Buffer, FieldNode};
use lower_arrays::array::AnyArray;
use serde_json::Value;
use std::borrow::CowSlice;

// The parts of a batch.
#[derive(Drop)]
struct Parts {
    nodes: Vec<FieldNode>,
    buffers: Vec<Buffer>,
    body: Vec<u8>,
    offset: i64,
}

/// The parts of a batch after arrays were appended.
pub fn appended(d: &mut Decoder, out: &mut Text, value: &Value) {
    let mut parts = no_parts(d, value);
    let is_little = is_little_endian(d, value);
    let listed = d.member(value, "arrays");
    out.put("{\"answers\":[");
    for array in &arrays(d, listed, LEVELS) {
        out.comma();
        append(d, out, &mut parts, array, is_little);
    }
    out.put("],");
    put_body(d, out, &parts.body, value);
    put_parts(out, &parts);
    out.put("}");
}

// The parts of an empty batch.
fn no_parts(d: &mut Decoder, value: &Value) -> Parts {
    Parts {
        nodes: d.list(),
        buffers: d.list(),
        body: d.list(),
        offset: d.number(value.get("offset"), "offset"),
    }
}

fn append(d: &mut Decoder, out: &mut Text, parts: &mut Parts, array: &AnyArray, is_little: bool) {
    if parts.offset < 0 {
        return d.miss("offset");
    }
    let written = write(
        d.alloc(),
        array,
        &mut parts.buffers,
        &mut parts.body,
        &mut parts.nodes,
        &mut parts.offset,
        is_little,
    );
    put_answer(out, written);
}

fn put_body(d: &mut Decoder, out: &mut Text, body: &[u8], value: &Value) {
    let wanted = d.member(value, "body");
    let wanted = bytes(d, wanted);
    out.put("\"body\":");
    if body == wanted.as_slice() {
        out.put("true");
    } else {
        out.hex(body);
    }
}

fn put_parts(out: &mut Text, parts: &Parts) {
    out.put(",\"buffers\":[");
    for buffer in &parts.buffers {
        out.comma();
        out.pair(&buffer.offset, &buffer.length);
    }
    out.put("],\"nodes\":[");
    put_nodes(out, &parts.nodes);
    out.put("],\"offset\":");
    out.show(&parts.offset);
}

fn put_nodes(out: &mut Text, nodes: &[FieldNode]) {
    for node in nodes {
        out.comma();
        out.pair(&node.length, &node.null_count);
    }
}

/// The columns and the ids of records.
pub fn record_of(d: &mut Decoder, out: &mut Text, value: &Value) {
    let schema = schema(d, value);
    let ids = ids_of(d, value, &schema.fields);
    let listed = d.member(value, "columns");
    if let Some(chunk) = chunk(d, listed) {
        put_records(d, out, &chunk, &ids);
    }
}

fn put_records(d: &mut Decoder, out: &mut Text, chunk: &Chunk<AnyArray>, ids: &Vec<IpcField>) {
    let lent = Record::borrowed(chunk, Some(CowSlice::Borrowed(ids)));
    out.put("{\"lent\":");
    put_clone(d, out, &lent);
    if let Some(owned) = owned_record(d, chunk, ids) {
        out.put(",\"are_same\":");
        out.show(&(owned == lent));
        out.put(",\"owned\":");
        put_clone(d, out, &owned);
    }
    out.put(",\"of_chunk\":");
    put_record_of_chunk(d, out, chunk);
    out.put("}");
}

fn owned_record<'a>(
    d: &mut Decoder,
    chunk: &Chunk<AnyArray>,
    ids: &Vec<IpcField>,
) -> Option<Record<'a>> {
    let ids = clone_ipc_fields(ids);
    let ids = d.take(ids)?;
    let chunk = chunk.clone();
    let chunk = d.take(chunk)?;
    Some(Record::owned(chunk, Some(CowSlice::Owned(ids))))
}

fn put_record_of_chunk(d: &mut Decoder, out: &mut Text, chunk: &Chunk<AnyArray>) {
    let chunk = chunk.clone();
    if let Some(chunk) = d.take(chunk) {
        put_record(out, &Record::from(chunk));
    }
}

fn put_clone(d: &mut Decoder, out: &mut Text, record: &Record<'_>) {
    let record = record.clone();
    if let Some(record) = d.take(record) {
        put_record(out, &record);
    }
}

fn put_record(out: &mut Text, record: &Record<'_>) {
    out.put("{\"columns\":");
    put_columns(out, record.columns().arrays());
    out.put(",\"ids\":");
    out.shown(&record.fields());
    out.put("}");
}
