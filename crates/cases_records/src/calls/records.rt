//! The calls of records, in the notation of `records.rt`.
//!
//! - `"columns_of": RECORD` gives the chunk that the reader decodes, the same from memory that is
//!   lent and from memory that is shared. `"plain_columns_of": RECORD` gives `[SLOTS, ..]`, the
//!   columns that the plain program decodes, or null where the record is invalid.
//! - `"known_by": RECORD`, with `"shown": [0, ..]` and the message of a dictionary batch, reads the
//!   batch. It gives `{"answer": "ok", "values": [SLOTS, ..]}`: `"ok"` or the error, and then the
//!   values of the dictionaries with these ids, null where there are none.
//! - `"columns_by_both": RECORD` compares what the reader and the plain program return:
//!   `"Columns"`, the same columns; `"NoColumns"`, the reader returns an error and the record is
//!   invalid; `"NoBatch"`, the message has no record batch; else `"Differ"`.
//! - `"damaged_records_of": RECORD` compares both on the message with each damage, and gives
//!   `{"cuts": 200, "differ": [], "sets": 800}`: how many damages were tried, and those at which
//!   they differ.
//! - `"cut_bodies_of": RECORD` compares both on the body cut to each length, from 0, and gives the
//!   answers as runs.

use crate::plain::{PlainColumns, PlainForm, put_plain_columns};
use crate::records::{Record, RecordForm, batch_of, dictionary_batch_of, record_of};
use cases_arrays::chunks::{put_chunk, put_columns};
use cases_arrays::slots::put_slots;
use cases_notation::damages::{Tried, damaged, damages};
use cases_notation::decoder::Decoder;
use cases_notation::runs::Runs;
use cases_notation::text::Text;
use cases_notation::types::LEVELS;
use ipc_base::chunk::Chunk;
use ipc_devices::fault::Fault;
use ipc_read::read::Dictionaries;
use lower::buffer::Buffer;
use lower_arrays::array::AnyArray;
use serde_json::Value;

/// Appends the columns that the reader decodes a record to.
pub fn columns_of(d: &mut Decoder, out: &mut Text, value: &Value) {
    let record = record_of(d, value);
    let Some(batch) = d.need(batch_of(&record.message), "record") else {
        return;
    };
    let read = record.form.read(d, batch, record.body.as_slice());
    if !is_read_from_shared_bytes(d, &record, &read) {
        d.miss("the same columns of shared bytes");
    }
    if let Some(chunk) = d.take(read) {
        put_chosen(d, out, &record.form, chunk);
    }
}

// Whether the answer is the same where the columns may share the body's memory.
fn is_read_from_shared_bytes(
    d: &mut Decoder,
    record: &Record,
    read: &Result<Chunk<AnyArray>, Fault>,
) -> bool {
    let Some(batch) = batch_of(&record.message) else {
        return false;
    };
    let Some(body) = shared(d, &record.body) else {
        return false;
    };
    match (read, record.form.read(d, batch, body)) {
        (Ok(chunk), Ok(other)) => *chunk == other,
        (Err(fault), Err(other)) => *fault == other,
        _ => false,
    }
}

fn shared(d: &mut Decoder, bytes: &[u8]) -> Option<Buffer<u8>> {
    let copy = Vec::from_slice(d.alloc(), bytes).ok()?;
    Buffer::new(copy).ok()
}

fn put_chosen(d: &mut Decoder, out: &mut Text, form: &RecordForm, read: Chunk<AnyArray>) {
    let fields = form.chosen_fields(d);
    if let Some(chunk) = form.in_order(d, read) {
        put_chunk(out, &chunk, &fields);
    }
}

/// Appends the columns that the plain program decodes a record to.
pub fn plain_columns_of(d: &mut Decoder, out: &mut Text, value: &Value) {
    let record = record_of(d, value);
    let plain = record.form.plain(d);
    let Some(batch) = d.need(batch_of(&record.message), "record") else {
        return;
    };
    match plain.columns(d, &batch, &record.body) {
        Some(columns) => put_plain_columns(out, &columns),
        None => out.put("null"),
    }
}

/// Appends the values of dictionaries after a dictionary batch is read.
pub fn known_by(d: &mut Decoder, out: &mut Text, value: &Value) {
    let mut record = record_of(d, value);
    let Some(batch) = d.need(dictionary_batch_of(&record.message), "record") else {
        return;
    };
    let read = record.form.put_values(d.alloc(), batch, &record.body);
    out.put("{\"answer\":");
    put_read(out, &read);
    out.put(",\"values\":");
    put_shown(d, out, &record.form.dictionaries, value);
    out.put("}");
}

fn put_read(out: &mut Text, read: &Result<(), Fault>) {
    match read {
        Ok(()) => out.put("\"ok\""),
        Err(fault) => out.shown(fault),
    }
}

/// Appends the values of the dictionaries with the ids that a case shows, null where there are
/// none.
pub fn put_shown(d: &mut Decoder, out: &mut Text, dictionaries: &Dictionaries, value: &Value) {
    out.put("[");
    for id in d.items(value.get("shown"), "shown") {
        let id: i64 = d.number(Some(id), "shown");
        out.comma();
        match dictionaries.get(&id) {
            Some(values) => put_slots(out, values, LEVELS),
            None => out.put("null"),
        }
    }
    out.put("]");
}

// ---- by both

// How the answers of the reader and of the plain program compare.
#[derive(Clone, Copy)]
enum Answer {
    NoBatch,
    NoColumns,
    Columns,
    Differ,
}

/// Appends how the answers of the reader and of the plain program compare.
pub fn columns_by_both(d: &mut Decoder, out: &mut Text, value: &Value) {
    let record = record_of(d, value);
    let plain = record.form.plain(d);
    let answer = answer_of(d, &record.form, &plain, &record.message, &record.body);
    put_answer(out, answer);
}

fn put_answer(out: &mut Text, answer: Answer) {
    out.put(match answer {
        Answer::NoBatch => "\"NoBatch\"",
        Answer::NoColumns => "\"NoColumns\"",
        Answer::Columns => "\"Columns\"",
        Answer::Differ => "\"Differ\"",
    });
}

fn answer_of(
    d: &mut Decoder,
    form: &RecordForm,
    plain: &PlainForm,
    message: &[u8],
    body: &[u8],
) -> Answer {
    let Some(batch) = batch_of(message) else {
        return Answer::NoBatch;
    };
    let columns = plain.columns(d, &batch, body);
    match form.read(d, batch, body) {
        Ok(chunk) => of_columns(d, form, &columns, chunk),
        Err(fault) => of_fault(d, &columns, &fault),
    }
}

// The answer where the reader returns columns.
fn of_columns(
    d: &mut Decoder,
    form: &RecordForm,
    plain: &Option<PlainColumns>,
    read: Chunk<AnyArray>,
) -> Answer {
    let (Some(columns), Some(chunk)) = (plain, form.in_order(d, read)) else {
        return Answer::Differ;
    };
    if are_same(d, columns, &chunk) {
        Answer::Columns
    } else {
        Answer::Differ
    }
}

// The answer where the reader returns an error. A failed allocation isn't an answer, and reading
// from memory has no IO errors.
fn of_fault(d: &mut Decoder, plain: &Option<PlainColumns>, fault: &Fault) -> Answer {
    match (plain, fault) {
        (_, Fault::Memory) => {
            d.miss("a record");
            Answer::Differ
        }
        (None, Fault::Io(_)) => Answer::Differ,
        (None, _) => Answer::NoColumns,
        (Some(_), _) => Answer::Differ,
    }
}

/// Whether columns of the plain program and of the reader have the same slots.
pub fn are_same(d: &mut Decoder, plain: &PlainColumns, read: &Chunk<AnyArray>) -> bool {
    let mut wanted = Text::new(d.alloc());
    put_plain_columns(&mut wanted, plain);
    let mut got = Text::new(d.alloc());
    put_columns(&mut got, read.arrays());
    is_same_text(d, wanted, got)
}

fn is_same_text(d: &mut Decoder, wanted: Text, got: Text) -> bool {
    let wanted = wanted.finish();
    let got = got.finish();
    match (d.take(wanted), d.take(got)) {
        (Some(wanted), Some(got)) => wanted == got,
        _ => false,
    }
}

// ---- damages

/// Appends how many damages of a record's message were tried, and those at which both differ.
pub fn damaged_records_of(d: &mut Decoder, out: &mut Text, value: &Value) {
    let record = record_of(d, value);
    let plain = record.form.plain(d);
    out.put("{");
    put_tried(d, out, &record, &plain);
    out.put("}");
}

fn put_tried(d: &mut Decoder, out: &mut Text, record: &Record, plain: &PlainForm) {
    let mut tried = Tried::new(d.alloc());
    for damage in damages(d, record.message.len()) {
        let message = damaged(d, &record.message, damage);
        let answer = answer_of(d, &record.form, plain, &message, &record.body);
        tried.add(damage, matches!(answer, Answer::Differ));
    }
    tried.put_cuts(out);
    tried.put(d, out);
}

/// Appends how both answers compare on the body of a record cut to each length.
pub fn cut_bodies_of(d: &mut Decoder, out: &mut Text, value: &Value) {
    let record = record_of(d, value);
    let plain = record.form.plain(d);
    out.put("[");
    put_cut_bodies(d, out, &record, &plain);
    out.put("]");
}

fn put_cut_bodies(d: &mut Decoder, out: &mut Text, record: &Record, plain: &PlainForm) {
    let mut runs = Runs::new(d.alloc());
    for length in 0..record.body.len() {
        let body = &record.body[..length];
        let answer = answer_of(d, &record.form, plain, &record.message, body);
        let mut shown = Text::new(d.alloc());
        put_answer(&mut shown, answer);
        runs.add(d, out, shown);
    }
    runs.end_run(out);
}
