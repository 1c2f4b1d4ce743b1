//! The calls that write a file in sessions.
//!
//! - `"created_by"` creates a file. Its parts are `"fields": [FIELD, ..]`, `"pairs": {"k": "v"}`
//!   and `"chunks": [[ARRAY, ..], ..]`, with the ids and the byte order of `written.rt` of
//!   `cases_streams`.
//! - `"sessions_by"` of the same parts also appends to it in later sessions, which are
//!   `"later": [[[ARRAY, ..], ..], ..]`.
//! - `"session_on": {"on": FILE, "chunks": [[ARRAY, ..], ..]}` appends to a file in one session.
//!   With `"metadata": true` the metadata of the file are read first and passed to the call. If the
//!   session returns an error, the file must be unchanged.
//! - `"sessions_on": {"on": FILE, "later": [..]}` appends to a file in several sessions.
//!
//! They give `{"answers": [..], "chunks": [..], "footer": METADATA}`. These are the result of the
//! write of each chunk (a list for each session, if there may be several), and what is read from
//! the file, as in `written_files.rt`. `"session_on"` also gives `"end"`, the result of the end of
//! the session, and `"before"`, what is read after it at the blocks of the old metadata.

use crate::calls::files::metadata_of;
use crate::calls::written_files::{copy_of, left_by, put_items, put_read};
use crate::files::file;
use cases_arrays::chunks::chunk;
use cases_arrays::schemas::schema;
use cases_notation::decoder::{Decoder, is_set};
use cases_notation::text::Text;
use cases_notation::types::texts;
use cases_streams::calls::options;
use cases_streams::calls::round_trips::put_answers;
use cases_streams::written::given_ids;
use ipc_base::chunk::Chunk;
use ipc_devices::{Fault, MemFile};
use ipc_file_write::calls::WrittenFile;
use ipc_files::read::file::{FileMetadata, read_file_metadata};
use ipc_sessions::created::{WrittenSessions, create_file, write_sessions};
use ipc_sessions::sessions::{Sessions, append_session, append_to_file, run_sessions};
use lower_arrays::array::AnyArray;
use serde_json::Value;
use std::alloc::Global;

// The chunks of a session.
fn chunks_of(d: &mut Decoder, session: &Value) -> Vec<Chunk<AnyArray>> {
    let mut chunks = d.list();
    for columns in d.items(Some(session), "chunks") {
        if let Some(chunk) = chunk(d, columns) {
            d.push(&mut chunks, chunk);
        }
    }
    chunks
}

// The chunks of the only or the first session.
fn first_of(d: &mut Decoder, value: &Value) -> Vec<Chunk<AnyArray>> {
    let session = d.member(value, "chunks");
    chunks_of(d, session)
}

// The chunks of each later session.
fn later_of(d: &mut Decoder, value: &Value) -> Vec<Vec<Chunk<AnyArray>>> {
    let mut sessions = d.list();
    for session in d.items(value.get("later"), "later") {
        let chunks = chunks_of(d, session);
        d.push(&mut sessions, chunks);
    }
    sessions
}

/// Appends a file that one call creates.
pub fn created_by(d: &mut Decoder, out: &mut Text, value: &Value) {
    if let Some(created) = created(d, value) {
        out.put("{\"answers\":");
        put_answers(out, &created.answers);
        put_read(d, out, &created.bytes, value);
        out.put("}");
    }
}

fn created(d: &mut Decoder, value: &Value) -> Option<WrittenFile> {
    let schema = schema(d, value);
    let ids = given_ids(d, value);
    let pairs = texts(d, value, "pairs");
    let chunks = first_of(d, value);
    let created = create_file(d.alloc(), schema, ids, pairs, options(value), &chunks);
    d.take(created)
}

/// Appends a file that one call creates and appends to in sessions.
pub fn sessions_by(d: &mut Decoder, out: &mut Text, value: &Value) {
    if let Some(written) = written(d, value) {
        out.put("{\"answers\":[");
        put_answers(out, &written.first);
        put_later(out, &written.later);
        out.put("]");
        put_read(d, out, &written.bytes, value);
        out.put("}");
    }
}

fn written(d: &mut Decoder, value: &Value) -> Option<WrittenSessions> {
    let schema = schema(d, value);
    let ids = given_ids(d, value);
    let pairs = texts(d, value, "pairs");
    let first = first_of(d, value);
    let later = later_of(d, value);
    let options = options(value);
    let written = write_sessions(d.alloc(), schema, ids, pairs, options, &first, &later);
    d.take(written)
}

// Appends the answers of the writes of each later session.
fn put_later(out: &mut Text, later: &[Vec<Result<(), Fault>>]) {
    for answers in later {
        out.comma();
        put_answers(out, answers);
    }
}

/// Appends a file to which one session appends.
pub fn session_on(d: &mut Decoder, out: &mut Text, value: &Value) {
    let on = d.member(value, "on");
    let before = file(d, on);
    out.put("{");
    let after = after_session(d, out, &before, value);
    out.put(",\"before\":");
    if let Some(metadata) = metadata_of(d, &before) {
        put_items(d, out, &after, metadata);
    }
    put_read(d, out, &after, value);
    out.put("}");
}

// Makes a session on a file, appends the answers of its calls, and returns the file after it.
fn after_session(d: &mut Decoder, out: &mut Text, before: &[u8], value: &Value) -> Vec<u8> {
    let chunks = first_of(d, value);
    let mut device = MemFile::new(copy_of(d, before));
    let refused = put_session(
        d.alloc(),
        out,
        &mut device,
        &chunks,
        is_set(value, "metadata"),
    );
    left_by(d, before, device, refused)
}

// What a session answers.
#[derive(Drop)]
struct Answers {
    writes: Vec<Result<(), Fault>>,
    end: Result<(), Fault>,
}

// Appends the answers of a session, or returns the error of making it.
fn put_session(
    alloc: Global,
    out: &mut Text,
    device: &mut MemFile<Vec<u8>>,
    chunks: &[Chunk<AnyArray>],
    by_metadata: bool,
) -> Option<Fault> {
    let made = if by_metadata {
        session_by_metadata(alloc, device, chunks)
    } else {
        session(alloc, device, chunks)
    };
    match made {
        Ok(answers) => {
            put_session_answers(out, &answers);
            None
        }
        Err(fault) => Some(fault),
    }
}

fn session(
    alloc: Global,
    device: &mut MemFile<Vec<u8>>,
    chunks: &[Chunk<AnyArray>],
) -> Result<Answers, Fault> {
    let made = append_session(alloc, device, chunks)?;
    Ok(Answers {
        writes: made.answers,
        end: made.end,
    })
}

fn session_by_metadata(
    alloc: Global,
    device: &mut MemFile<Vec<u8>>,
    chunks: &[Chunk<AnyArray>],
) -> Result<Answers, Fault> {
    let metadata = metadata_in(alloc, device)?;
    let made = append_to_file(alloc, device, metadata, chunks)?;
    Ok(Answers {
        writes: made.answers,
        end: made.end,
    })
}

fn metadata_in(alloc: Global, device: &mut MemFile<Vec<u8>>) -> Result<FileMetadata, Fault> {
    read_file_metadata(alloc, device)
}

fn put_session_answers(out: &mut Text, answers: &Answers) {
    out.put("\"answers\":");
    put_answers(out, &answers.writes);
    out.put(",\"end\":");
    match &answers.end {
        Ok(()) => out.put("\"ok\""),
        Err(fault) => out.shown(fault),
    }
}

/// Appends a file to which several sessions append.
pub fn sessions_on(d: &mut Decoder, out: &mut Text, value: &Value) {
    let on = d.member(value, "on");
    let before = file(d, on);
    if let Some(left) = left_sessions(d, before, value) {
        out.put("{\"answers\":[");
        put_later(out, &left.answers);
        out.put("]");
        put_read(d, out, &left.device.into_inner(), value);
        out.put("}");
    }
}

fn left_sessions(
    d: &mut Decoder,
    before: Vec<u8>,
    value: &Value,
) -> Option<Sessions<MemFile<Vec<u8>>>> {
    let later = later_of(d, value);
    let run = run_sessions(d.alloc(), MemFile::new(before), &later);
    d.take(run)
}
