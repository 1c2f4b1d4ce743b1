//! Streams that both the reader and the plain program read. `"stream_by_both": STREAM` compares
//! their results, and gives `{"chunks": 2, "end": "Mark"}` where both have the same chunks and then
//! the same end, which is `"Mark"`, `"Waiting"` or `"Fault"`; `"NoStream"` where neither finds a
//! schema at the start; else `"Differ"`.
//!
//! `"cut_streams_of": STREAM` compares them on the stream cut to each length, 0 first, and gives
//! the results as in `runs.rt` of `cases_notation`. `"damaged_streams_of": {"stream": STREAM,
//! "places": [[0, 8], ..], "bytes": BYTES}` compares them on the stream with each byte of these
//! ranges (an offset and a count) set to each of these bytes in turn, and gives
//! `{"differ": [], "sets": 160}`.

use crate::calls::streams::{Reader, opened};
use crate::plain_streams::{Item, PlainHead, item_of, plain_head};
use crate::written::stream;
use cases_arrays::same_schemas::is_same_schema;
use cases_notation::bytes::bytes;
use cases_notation::damages::{Damage, Tried, damaged};
use cases_notation::decoder::Decoder;
use cases_notation::failure::Failure;
use cases_notation::runs::Runs;
use cases_notation::text::Text;
use cases_records::calls::records::are_same;
use cases_records::plain::PlainColumns;
use ipc_base::chunk::Chunk;
use ipc_devices::fault::Fault;
use ipc_readers::read::stream::StreamState;
use lower_arrays::array::AnyArray;
use serde_json::Value;

#[derive(Clone, Copy)]
enum End {
    Mark,
    Waiting,
    Fault,
}

// The result of the reader and of the plain program on a stream.
#[derive(Clone, Copy)]
enum Answer {
    NoStream,
    Chunks(usize, End),
    Differ,
}

// The result of both on the next message. A chunk comes with the bytes after it.
#[derive(Clone, Copy)]
enum Step<'a> {
    Chunk(&'a [u8]),
    End(End),
    Differ,
}

type Next = Option<Result<StreamState, Fault>>;

fn step_of<'a>(d: &mut Decoder, plain: &Item<'a>, read: &Next) -> Step<'a> {
    match (plain, read) {
        (Item::Columns(columns, rest), Some(Ok(StreamState::Some(chunk)))) => {
            chunk_step(d, columns, rest, chunk)
        }
        (Item::Mark, None) => Step::End(End::Mark),
        (Item::Waiting, Some(Ok(StreamState::Waiting))) => Step::End(End::Waiting),
        (Item::Faulty, Some(Err(_))) => Step::End(End::Fault),
        _ => Step::Differ,
    }
}

fn chunk_step<'a>(
    d: &mut Decoder,
    columns: &PlainColumns,
    rest: &'a [u8],
    chunk: &Chunk<AnyArray>,
) -> Step<'a> {
    if are_same(d, columns, chunk) {
        Step::Chunk(rest)
    } else {
        Step::Differ
    }
}

// Compares the next message.
fn next_step<'a>(
    d: &mut Decoder,
    head: &PlainHead,
    bytes: &'a [u8],
    reader: &mut Reader<'_>,
) -> Step<'a> {
    let read = reader.next();
    if let Some(Err(Fault::Memory)) = &read {
        d.fail(Failure::Refused(Fault::Memory));
    }
    let plain = item_of(d, head, bytes);
    step_of(d, &plain, &read)
}

// Compares the messages after a schema, each of which has bytes.
fn compare_messages(
    d: &mut Decoder,
    head: &PlainHead,
    bytes: &[u8],
    reader: &mut Reader<'_>,
) -> Answer {
    let mut rest = bytes;
    for chunks in 0..bytes.len().saturating_add(1) {
        match next_step(d, head, rest, reader) {
            Step::Chunk(after) => rest = after,
            Step::End(end) => return Answer::Chunks(chunks, end),
            Step::Differ => return Answer::Differ,
        }
    }
    Answer::Differ
}

// Compares all of a stream but its first message, whose schema the plain program has found.
fn compare(d: &mut Decoder, head: &PlainHead, bytes: &[u8], mut reader: Reader<'_>) -> Answer {
    let metadata = reader.metadata();
    if !is_same_schema(&head.schema, &metadata.schema, &metadata.ipc_schema) {
        return Answer::Differ;
    }
    compare_messages(d, head, bytes, &mut reader)
}

fn answer_of(d: &mut Decoder, bytes: &[u8]) -> Answer {
    let reader = reader_of(d, bytes);
    match (plain_head(d, bytes), reader) {
        (Some((head, rest)), Some(reader)) => compare(d, &head, rest, reader),
        (None, None) => Answer::NoStream,
        _ => Answer::Differ,
    }
}

// A reader, where the reader finds a schema too.
fn reader_of<'a>(d: &mut Decoder, bytes: &'a [u8]) -> Option<Reader<'a>> {
    match opened(d.alloc(), bytes) {
        Ok(reader) => Some(reader),
        Err(Fault::Memory) => {
            d.fail(Failure::Refused(Fault::Memory));
            None
        }
        Err(_) => None,
    }
}

fn put_answer(out: &mut Text, answer: Answer) {
    match answer {
        Answer::NoStream => out.put("\"NoStream\""),
        Answer::Differ => out.put("\"Differ\""),
        Answer::Chunks(chunks, end) => {
            out.put("{\"chunks\":");
            out.show(&chunks);
            out.put(match end {
                End::Mark => ",\"end\":\"Mark\"}",
                End::Waiting => ",\"end\":\"Waiting\"}",
                End::Fault => ",\"end\":\"Fault\"}",
            });
        }
    }
}

/// The results of the reader and the plain program, compared.
pub fn stream_by_both(d: &mut Decoder, out: &mut Text, value: &Value) {
    let stream = stream(d, value);
    put_answer(out, answer_of(d, &stream));
}

// ---- damages

/// Both, compared on a stream cut to each length.
pub fn cut_streams_of(d: &mut Decoder, out: &mut Text, value: &Value) {
    let stream = stream(d, value);
    let mut runs = Runs::new(d.alloc());
    out.put("[");
    for length in 0..stream.len() {
        let answer = shown_answer(d, &stream[..length]);
        runs.add(d, out, answer);
    }
    runs.end_run(out);
    out.put("]");
}

fn shown_answer(d: &mut Decoder, bytes: &[u8]) -> Text {
    let mut shown = Text::new(d.alloc());
    put_answer(&mut shown, answer_of(d, bytes));
    shown
}

/// How many damages of a stream were tried, and those at which both differ.
pub fn damaged_streams_of(d: &mut Decoder, out: &mut Text, value: &Value) {
    let part = d.member(value, "stream");
    let stream = stream(d, part);
    let mut tried = Tried::new(d.alloc());
    for damage in sets_of(d, value) {
        try_damage(d, &mut tried, &stream, damage);
    }
    out.put("{");
    tried.put(d, out);
    out.put("}");
}

fn try_damage(d: &mut Decoder, tried: &mut Tried, stream: &[u8], damage: Damage) {
    let stream = damaged(d, stream, damage);
    let answer = answer_of(d, &stream);
    tried.add(damage, matches!(answer, Answer::Differ));
}

/// Each byte of the ranges of a case set to each of its bytes.
pub fn sets_of(d: &mut Decoder, value: &Value) -> Vec<Damage> {
    let mut all = d.list();
    let set = d.member(value, "bytes");
    let set = bytes(d, set);
    for range in d.items(value.get("places"), "places") {
        put_range(d, &mut all, range, &set);
    }
    all
}

// Each byte of a range set to each of these bytes.
fn put_range(d: &mut Decoder, all: &mut Vec<Damage>, range: &Value, bytes: &[u8]) {
    let (start, count) = d.both(range, "places");
    let start = d.count(Some(start), "places");
    let count = d.count(Some(count), "places");
    for offset in start..start.saturating_add(count) {
        put_sets(d, all, offset, bytes);
    }
}

fn put_sets(d: &mut Decoder, all: &mut Vec<Damage>, offset: usize, bytes: &[u8]) {
    for byte in bytes {
        d.push(
            all,
            Damage::Set {
                offset,
                byte: *byte,
            },
        );
    }
}
