//! Streams. A STREAM is bytes; or `{"fields": [FIELD, ..], "calls": [CALL, ..]}`, the bytes that a
//! writer of these fields writes in these calls, some of which may fail; or a list of such parts,
//! joined.
//!
//! A call is `"start"`, `{"write": [ARRAY, ..]}` or `"finish"`. `"ids": [ID, ..]` next to the
//! fields are passed to `start`, and next to the columns to that `write`. With `"big_endian": true`
//! numbers have their highest byte first.

use crate::calls::options;
pub use crate::calls::put_answer;
use cases_arrays::arrays::arrays;
use cases_arrays::schemas::{ids_of, schema};
use cases_notation::bytes::bytes;
use cases_notation::decoder::Decoder;
use cases_notation::text::Text;
use cases_notation::types::LEVELS;
use ipc_base::chunk::Chunk;
use ipc_base::ipc::IpcField;
use ipc_devices::fault::Fault;
use ipc_write::stream::StreamWriter;
use lower::datatypes::Schema;
use serde_json::Value;

/// The bytes of a stream.
pub fn stream(d: &mut Decoder, value: &Value) -> Vec<u8> {
    match value {
        Value::Array(parts) if has_written(parts) => joined(d, parts),
        _ => part(d, value),
    }
}

fn has_written(parts: &[Value]) -> bool {
    for part in parts {
        if is_written(part) {
            return true;
        }
    }
    false
}

fn is_written(value: &Value) -> bool {
    value.get("calls").is_some()
}

fn joined(d: &mut Decoder, parts: &[Value]) -> Vec<u8> {
    let mut out = d.list();
    for value in parts {
        let part = part(d, value);
        d.extend(&mut out, &part);
    }
    out
}

fn part(d: &mut Decoder, value: &Value) -> Vec<u8> {
    if is_written(value) {
        let mut answers = Text::new(d.alloc());
        return write(d, &mut answers, value);
    }
    bytes(d, value)
}

/// Makes the calls of a writer to memory. Appends the result of each call, and returns the bytes.
pub fn write(d: &mut Decoder, answers: &mut Text, value: &Value) -> Vec<u8> {
    let schema = schema(d, value);
    let mut writer = StreamWriter::new(d.alloc(), d.list(), options(value));
    answers.put("[");
    for call in d.items(value.get("calls"), "calls") {
        answers.comma();
        make_call(d, answers, &mut writer, &schema, value, call);
    }
    answers.put("]");
    writer.into_inner()
}

type Writer = StreamWriter<Vec<u8>>;

fn make_call(
    d: &mut Decoder,
    answers: &mut Text,
    writer: &mut Writer,
    schema: &Schema,
    value: &Value,
    call: &Value,
) {
    if let Some(columns) = call.get("write") {
        let written = write_columns(d, writer, columns, call);
        return put_answer(answers, written);
    }
    match call.as_str() {
        Some("start") => put_answer(answers, writer.start(schema, given_ids(d, value))),
        Some("finish") => put_answer(answers, writer.finish()),
        _ => d.miss("calls"),
    }
}

// Columns that are not of one length are refused before the call, which then has this error as its
// result.
fn write_columns(
    d: &mut Decoder,
    writer: &mut Writer,
    columns: &Value,
    call: &Value,
) -> Result<(), Fault> {
    let chunk = Chunk::try_new(arrays(d, columns, LEVELS))?;
    let ids = given_ids(d, call);
    writer.write(&chunk, ids.as_deref())
}

/// The ids of a case, if it has any.
pub fn given_ids(d: &mut Decoder, value: &Value) -> Option<Vec<IpcField>> {
    match value.get("ids") {
        None => None,
        Some(_) => Some(ids_of(d, value, &[])),
    }
}
