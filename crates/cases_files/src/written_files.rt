//! Files that a writer writes: `{"fields": [FIELD, ..], "calls": [CALL, ..]}`, with the ids and the
//! byte order of `written.rt` of `cases_streams`. With `"started": true` the writer is created by
//! `try_new`. With `"room": 100` it writes to a device that takes so many bytes and then fails.
//!
//! A call is `"start"`; `{"write": [ARRAY, ..]}`, which may have ids beside the columns;
//! `{"pairs": {"k": "v"}}`, which sets the pairs of the footer; `"finish"`; or `"schema"`, whose
//! answer is the schema of the writer, by its `Debug` text.

use cases_arrays::chunks::chunk;
use cases_arrays::schemas::schema;
use cases_notation::bytes::put_zeros;
use cases_notation::decoder::{Decoder, is_set};
use cases_notation::text::Text;
use cases_notation::types::texts;
use cases_streams::calls::{options, put_answer};
use cases_streams::written::given_ids;
use ipc_base::ipc::IpcField;
use ipc_devices::fault::Fault;
use ipc_devices::{MemFile, Watched, Writes};
use ipc_file_write::writer::FileWriter;
use ipc_files::read::file::FileMetadata;
use lower::datatypes::Schema;
use serde_json::Value;
use std::alloc::Global;

/// Makes the calls of a writer to memory. It appends the answer of each, `"ok"` or its error, and
/// returns the bytes.
pub fn write_file(d: &mut Decoder, answers: &mut Text, value: &Value) -> Vec<u8> {
    if value.get("room").is_some() {
        return write_to_room(d, answers, value);
    }
    let memory = d.list();
    match writer(d, memory, value) {
        Some(writer) => written_by(d, answers, writer, value),
        None => d.list(),
    }
}

fn written_by(
    d: &mut Decoder,
    answers: &mut Text,
    mut writer: FileWriter<Vec<u8>>,
    value: &Value,
) -> Vec<u8> {
    put_calls(d, answers, &mut writer, value);
    writer.into_inner()
}

// Makes the calls of a writer to a device of limited room.
fn write_to_room(d: &mut Decoder, answers: &mut Text, value: &Value) -> Vec<u8> {
    let mut room = d.list();
    let length = d.count(value.get("room"), "room");
    put_zeros(d, &mut room, length);
    fill(d, answers, &mut room, value);
    room
}

fn fill(d: &mut Decoder, answers: &mut Text, room: &mut [u8], value: &Value) {
    if let Some(mut writer) = writer(d, Watched::new(room), value) {
        put_calls(d, answers, &mut writer, value);
    }
}

fn writer<W: Writes + Drop>(d: &mut Decoder, device: W, value: &Value) -> Option<FileWriter<W>> {
    let schema = schema(d, value);
    let ids = given_ids(d, value);
    let created = created(d.alloc(), device, schema, ids, value);
    d.take(created)
}

fn created<W: Writes + Drop>(
    alloc: Global,
    device: W,
    schema: Schema,
    ids: Option<Vec<IpcField>>,
    value: &Value,
) -> Result<FileWriter<W>, Fault> {
    if is_set(value, "started") {
        FileWriter::try_new(alloc, device, schema, ids, options(value))
    } else {
        FileWriter::new(alloc, device, schema, ids, options(value))
    }
}

/// Makes the calls of a writer that appends to the file of these metadata. It appends the answer of
/// each. It returns the error by which the writer couldn't be created, if there is one.
pub fn append(
    d: &mut Decoder,
    answers: &mut Text,
    file: &mut MemFile<Vec<u8>>,
    metadata: FileMetadata,
    value: &Value,
) -> Option<Fault> {
    match FileWriter::try_from_file(d.alloc(), file, metadata, options(value)) {
        Ok(mut writer) => {
            put_calls(d, answers, &mut writer, value);
            None
        }
        Err(fault) => Some(fault),
    }
}

fn put_calls<W: Writes + Drop>(
    d: &mut Decoder,
    answers: &mut Text,
    writer: &mut FileWriter<W>,
    value: &Value,
) {
    answers.put("[");
    for call in d.items(value.get("calls"), "calls") {
        answers.comma();
        put_call(d, answers, writer, call);
    }
    answers.put("]");
}

fn put_call<W: Writes + Drop>(
    d: &mut Decoder,
    answers: &mut Text,
    writer: &mut FileWriter<W>,
    call: &Value,
) {
    match (call.get("write"), call.get("pairs")) {
        (Some(columns), _) => put_write(d, answers, writer, columns, call),
        (None, Some(_)) => put_pairs(d, answers, writer, call),
        (None, None) => put_plain_call(d, answers, writer, call),
    }
}

fn put_write<W: Writes + Drop>(
    d: &mut Decoder,
    answers: &mut Text,
    writer: &mut FileWriter<W>,
    columns: &Value,
    call: &Value,
) {
    if let Some(chunk) = chunk(d, columns) {
        let ids = given_ids(d, call);
        put_answer(answers, writer.write(&chunk, ids.as_deref()));
    }
}

fn put_pairs<W: Writes + Drop>(
    d: &mut Decoder,
    answers: &mut Text,
    writer: &mut FileWriter<W>,
    call: &Value,
) {
    let pairs = texts(d, call, "pairs");
    put_answer(answers, writer.set_custom_metadata(pairs));
}

// The calls without arguments.
#[derive(Clone, Copy)]
enum PlainCall {
    Schema,
    Start,
    Finish,
}

const PLAIN_CALLS: [(&str, PlainCall); 3] = [
    ("schema", PlainCall::Schema),
    ("start", PlainCall::Start),
    ("finish", PlainCall::Finish),
];

fn put_plain_call<W: Writes + Drop>(
    d: &mut Decoder,
    answers: &mut Text,
    writer: &mut FileWriter<W>,
    call: &Value,
) {
    match d.choice(Some(call), &PLAIN_CALLS, "calls", PlainCall::Schema) {
        PlainCall::Schema => answers.shown(writer.schema()),
        PlainCall::Start => put_start(answers, writer),
        PlainCall::Finish => put_finish(answers, writer),
    }
}

fn put_start<W: Writes + Drop>(answers: &mut Text, writer: &mut FileWriter<W>) {
    put_answer(answers, writer.start());
}

fn put_finish<W: Writes + Drop>(answers: &mut Text, writer: &mut FileWriter<W>) {
    put_answer(answers, writer.finish());
}
