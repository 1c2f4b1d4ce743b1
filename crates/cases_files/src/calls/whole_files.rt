//! The calls that read a whole file at once.
//!
//! - `"whole_file_of": FILE` gives `{"chunks": [CHUNK, ..], "footer": METADATA}`, with the metadata
//!   as `file_of` gives them.
//! - `"file_columns_of": FILE` gives the same of some columns and rows, chosen as in
//!   `projections.rt` of `cases_records`. It is null if the file doesn't have a column or one is
//!   chosen twice.
//! - `"file_round_trip_of": {"fields": [FIELD, ..], "pairs": {"k": "v"}, "calls": [CALL, ..]}`
//!   writes a file and reads it. It may have the ids and the byte order of `written.rt` of
//!   `cases_streams`.
//!
//! The last one gives these members:
//!
//! - `"answers": [..]`: the result of each call
//! - `"chunks": [..]`, `"order": "little"`, `"pairs": [["k", "v"]]`: what is read
//! - `"is_schema_same": true`: whether the schema is the one that was passed in
//! - `"are_ids_same": true`: whether the ids are those that were passed in, or the default ids if
//!   none were

use crate::calls::files::{put_metadata, put_pairs};
use crate::files::file;
use cases_arrays::chunks::put_chunk;
use cases_arrays::schemas::{ids_of, schema};
use cases_notation::decoder::Decoder;
use cases_notation::text::Text;
use cases_notation::types::texts;
use cases_records::projections::{chosen, chosen_fields, limit};
use cases_streams::calls::options;
use cases_streams::calls::round_trips::{borrowed, calls_of, put_answers};
use cases_streams::calls::streams::put_order;
use cases_streams::written::given_ids;
use ipc_file_round_trip::read::{WholeFile, read_file, read_file_columns};
use ipc_file_round_trip::round_trip::{FileRoundTrip, file_round_trip};
use ipc_files::read::file::FileMetadata;
use lower::datatypes::{Field, Schema};
use serde_json::Value;

/// Appends all of a file.
pub fn whole_file_of(d: &mut Decoder, out: &mut Text, value: &Value) {
    let file = file(d, value);
    let read = read_file(d.alloc(), &file);
    if let Some(whole) = d.take(read) {
        put_whole_file(d, out, &whole, &whole.metadata.schema.fields);
    }
}

/// Appends some columns of a file, and at most so many of its rows.
pub fn file_columns_of(d: &mut Decoder, out: &mut Text, value: &Value) {
    let file = file(d, value);
    match columns_of(d, &file, value) {
        Some(part) => put_columns(d, out, &part, value),
        None => out.put("null"),
    }
}

// The chosen columns of a file, or none if they aren't there.
fn columns_of(d: &mut Decoder, file: &[u8], value: &Value) -> Option<WholeFile> {
    let columns = chosen(d, value);
    let limit = limit(d, value);
    let read = read_file_columns(d.alloc(), file, columns, limit);
    d.take(read)?
}

fn put_columns(d: &mut Decoder, out: &mut Text, part: &WholeFile, value: &Value) {
    let columns = chosen(d, value);
    let fields = chosen_fields(d, &part.metadata.schema.fields, &columns);
    put_whole_file(d, out, part, &fields);
}

/// Appends what is read of a file that a list of calls writes.
pub fn file_round_trip_of(d: &mut Decoder, out: &mut Text, value: &Value) {
    if let Some(trip) = trip_of(d, value) {
        let wanted = schema(d, value);
        put_trip(d, out, &trip, &wanted, value);
    }
}

// Writes a file by the calls of a case, and reads it.
fn trip_of(d: &mut Decoder, value: &Value) -> Option<FileRoundTrip> {
    let schema = schema(d, value);
    let ids = given_ids(d, value);
    let pairs = texts(d, value, "pairs");
    let calls = calls_of(d, value);
    let calls = borrowed(d, &calls);
    let trip = file_round_trip(d.alloc(), schema, ids, pairs, options(value), &calls);
    d.take(trip)
}

fn put_trip(d: &mut Decoder, out: &mut Text, trip: &FileRoundTrip, wanted: &Schema, value: &Value) {
    out.put("{\"answers\":");
    put_answers(out, &trip.answers);
    out.put(",");
    put_chunks(out, &trip.file, &wanted.fields);
    put_head(out, &trip.file.metadata, wanted);
    out.put(",\"are_ids_same\":");
    let ids = ids_of(d, value, &wanted.fields);
    out.show(&(trip.file.metadata.ipc_schema.fields == ids));
    out.put("}");
}

// Appends the metadata of a file, and whether its schema is the wanted one, as further members.
fn put_head(out: &mut Text, metadata: &FileMetadata, wanted: &Schema) {
    out.put(",\"is_schema_same\":");
    out.show(&(metadata.schema == *wanted));
    put_order(out, metadata.ipc_schema.is_little_endian);
    out.put(",\"pairs\":");
    put_pairs(out, &metadata.custom_metadata);
}

// Appends the chunks of a file, whose columns have these fields, and its metadata.
fn put_whole_file(d: &mut Decoder, out: &mut Text, read: &WholeFile, fields: &[Field]) {
    out.put("{");
    put_chunks(out, read, fields);
    out.put(",\"footer\":");
    put_metadata(d, out, &read.metadata);
    out.put("}");
}

// Appends the chunks of a file, as a member.
fn put_chunks(out: &mut Text, read: &WholeFile, fields: &[Field]) {
    out.put("\"chunks\":[");
    for chunk in &read.chunks {
        out.comma();
        put_chunk(out, chunk, fields);
    }
    out.put("]");
}
