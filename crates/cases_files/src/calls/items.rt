//! The calls of a reader of files, block by block.
//!
//! `"items_of": FILE` with `"calls": 2` calls `next` so many times. Columns are chosen as in
//! `projections.rt` of `cases_records`. It gives
//!
//! - `"columns": ["x: Int32", ..]`: the columns of the reader's schema
//! - `"items": [[ITEM, FINISHED], ..]`: for each call its result (a chunk, null or an error) and
//!   whether the reader is finished after it
//! - with `"device": true`, `"bytes": HEX`: the bytes of the device that `into_inner` returns after
//!   these calls

use crate::calls::files::{Input, metadata_in};
use crate::files::file;
use cases_arrays::chunks::put_chunk;
use cases_notation::decoder::{Decoder, is_set};
use cases_notation::text::Text;
use cases_records::projections::{chosen, chosen_fields, limit};
use cases_streams::calls::streams::put_columns;
use ipc_devices::MemFile;
use ipc_file_readers::read::reader::FileReader;
use ipc_files::read::file::FileMetadata;
use ipc_projection::read::projection::is_projection;
use lower::datatypes::Field;
use serde_json::Value;

/// A reader of a file in memory.
pub type Reader<'a> = FileReader<Input<'a>>;

// A reader of the columns and the rows that a case chooses.
fn opened<'a>(d: &mut Decoder, file: &'a [u8], value: &Value) -> Option<Reader<'a>> {
    let columns = chosen(d, value);
    let limit = limit(d, value);
    let mut input = MemFile::new(file);
    let metadata = metadata_in(d.alloc(), &mut input);
    let metadata = d.take(metadata)?;
    match columns {
        Some(columns) => reader_of(d, input, metadata, columns, limit),
        None => reader_of_all(d, input, metadata, limit),
    }
}

fn reader_of<'a>(
    d: &mut Decoder,
    input: Input<'a>,
    metadata: FileMetadata,
    columns: Vec<usize>,
    limit: Option<usize>,
) -> Option<Reader<'a>> {
    if !is_projection(&columns, metadata.schema.fields.len()) {
        d.miss("chosen");
        return None;
    }
    let reader = FileReader::new(d.alloc(), input, metadata, Some(columns), limit);
    d.take(reader)
}

/// A reader of all columns of a file.
pub fn reader_of_all<'a>(
    d: &mut Decoder,
    input: Input<'a>,
    metadata: FileMetadata,
    limit: Option<usize>,
) -> Option<Reader<'a>> {
    let reader = FileReader::new(d.alloc(), input, metadata, None, limit);
    d.take(reader)
}

/// Appends the answers of so many calls of a reader of a file.
pub fn items_of(d: &mut Decoder, out: &mut Text, value: &Value) {
    let file = file(d, value);
    if let Some(reader) = opened(d, &file, value) {
        put_reader(d, out, reader, value);
    }
}

/// The fields of the columns of a reader.
pub fn fields_of(d: &mut Decoder, reader: &Reader<'_>) -> Vec<Field> {
    chosen_fields(d, &reader.schema().fields, &None)
}

fn put_reader(d: &mut Decoder, out: &mut Text, mut reader: Reader<'_>, value: &Value) {
    let fields = fields_of(d, &reader);
    out.put("{\"columns\":[");
    put_columns(d, out, &fields);
    out.put("],\"items\":[");
    for _ in 0..d.count(value.get("calls"), "calls") {
        out.comma();
        put_item(out, &mut reader, &fields);
    }
    out.put("]");
    if is_set(value, "device") {
        put_device(out, reader);
    }
    out.put("}");
}

fn put_item(out: &mut Text, reader: &mut Reader<'_>, fields: &[Field]) {
    out.put("[");
    put_next(out, reader, fields);
    out.put(",");
    out.show(&reader.is_finished());
    out.put("]");
}

/// Appends the answer of a call of `next`: a chunk, null or an error.
pub fn put_next(out: &mut Text, reader: &mut Reader<'_>, fields: &[Field]) {
    match reader.next() {
        None => out.put("null"),
        Some(Ok(chunk)) => put_chunk(out, &chunk, fields),
        Some(Err(fault)) => out.shown(&fault),
    }
}

fn put_device(out: &mut Text, reader: Reader<'_>) {
    out.put(",\"bytes\":");
    out.hex(reader.into_inner().into_inner());
}
