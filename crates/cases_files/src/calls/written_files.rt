//! The calls that write files, in the notation of `written_files.rt`.
//!
//! - `"file_by": WRITTEN` gives the members `"answers": [..]`, the result of each call of a writer,
//!   `"bytes": HEX`, and what is read back. These are `"chunks": [ITEM, ..]`, the chunk or the
//!   error of each block, and `"footer": METADATA`, as `file_of` gives them. If the metadata can't
//!   be read, there are no chunks, and the footer is the error. With `"as_stream": true` it also
//!   gives `"stream": {"chunks": [..], "end": END}`, read from the bytes after the first eight.
//! - `"file_on": {"on": FILE, "calls": [CALL, ..]}` gives the same for a writer that appends to a
//!   file. It also gives `"before": [ITEM, ..]`: what is read after these calls at the blocks of
//!   the old metadata. If the writer can't be created, the file must be unchanged.
//! - `"whole_file_by": {"fields": [FIELD, ..], "pairs": {"k": "v"}, "calls": [CALL, ..]}` gives the
//!   same for one call that makes these calls, none of which sets pairs, and finishes the file.

use crate::calls::files::{metadata_in, metadata_of, put_metadata};
use crate::calls::items::{Reader, fields_of, put_next, reader_of_all};
use crate::files::file;
use crate::written_files::{append, write_file};
use cases_arrays::schemas::schema;
use cases_notation::decoder::{Decoder, is_set};
use cases_notation::failure::Failure;
use cases_notation::text::Text;
use cases_notation::types::texts;
use cases_streams::calls::round_trips::{borrowed, calls_of, put_answers};
use cases_streams::calls::{options, streams};
use cases_streams::written::given_ids;
use ipc_devices::MemFile;
use ipc_devices::fault::Fault;
use ipc_file_write::calls;
use ipc_file_write::calls::WrittenFile;
use ipc_files::read::file::FileMetadata;
use serde_json::Value;

/// Appends the answers of the calls of a writer, and its file.
pub fn file_by(d: &mut Decoder, out: &mut Text, value: &Value) {
    out.put("{\"answers\":");
    let file = write_file(d, out, value);
    put_file(d, out, &file, value);
    out.put("}");
}

/// Appends the same for one call that makes all calls and finishes the file.
pub fn whole_file_by(d: &mut Decoder, out: &mut Text, value: &Value) {
    if let Some(written) = written_file(d, value) {
        out.put("{\"answers\":");
        put_answers(out, &written.answers);
        put_file(d, out, &written.bytes, value);
        out.put("}");
    }
}

fn written_file(d: &mut Decoder, value: &Value) -> Option<WrittenFile> {
    let calls = calls_of(d, value);
    let schema = schema(d, value);
    let ids = given_ids(d, value);
    let pairs = texts(d, value, "pairs");
    let calls = borrowed(d, &calls);
    let written = calls::write_file(d.alloc(), schema, ids, pairs, options(value), &calls);
    d.take(written)
}

/// Appends the same for a writer that appends to a file.
pub fn file_on(d: &mut Decoder, out: &mut Text, value: &Value) {
    let on = d.member(value, "on");
    let before = file(d, on);
    if let Some(metadata) = metadata_of(d, &before) {
        put_appended(d, out, &before, metadata, value);
    }
}

fn put_appended(
    d: &mut Decoder,
    out: &mut Text,
    before: &[u8],
    metadata: FileMetadata,
    value: &Value,
) {
    out.put("{\"answers\":");
    let after = appended(d, out, before, &metadata, value);
    out.put(",\"before\":");
    put_items(d, out, &after, metadata);
    put_file(d, out, &after, value);
    out.put("}");
}

// Makes the calls of a writer that appends to a file, and returns the file after them.
fn appended(
    d: &mut Decoder,
    out: &mut Text,
    before: &[u8],
    metadata: &FileMetadata,
    value: &Value,
) -> Vec<u8> {
    let mut device = MemFile::new(copy_of(d, before));
    let copied = metadata.clone();
    if let Some(copied) = d.take(copied) {
        let refused = append(d, out, &mut device, copied, value);
        return left_by(d, before, device, refused);
    }
    device.into_inner()
}

/// A copy of some bytes.
pub fn copy_of(d: &mut Decoder, bytes: &[u8]) -> Vec<u8> {
    let mut copy = d.list();
    d.extend(&mut copy, bytes);
    copy
}

/// The bytes of a device after a call that appends. If the call returned an error, the bytes must
/// be those before it.
pub fn left_by(
    d: &mut Decoder,
    before: &[u8],
    device: MemFile<Vec<u8>>,
    refused: Option<Fault>,
) -> Vec<u8> {
    let after = device.into_inner();
    if let Some(fault) = refused {
        if after.as_slice() != before {
            d.miss("an error that leaves the file unchanged");
        }
        d.fail(Failure::Refused(fault));
    }
    after
}

// Appends the bytes of a file, and what is read from it, as further members.
fn put_file(d: &mut Decoder, out: &mut Text, file: &[u8], value: &Value) {
    out.put(",\"bytes\":");
    out.hex(file);
    put_read(d, out, file, value);
}

/// Appends what is read from a file, as further members.
///
/// These are its metadata, its chunks, and its stream if the case wants it.
pub fn put_read(d: &mut Decoder, out: &mut Text, file: &[u8], value: &Value) {
    out.put(",\"footer\":");
    match metadata_in(d.alloc(), &mut MemFile::new(file)) {
        Ok(metadata) => put_footer_and_chunks(d, out, file, metadata),
        Err(fault) => out.shown(&fault),
    }
    if is_set(value, "as_stream") {
        put_as_stream(d, out, file);
    }
}

fn put_footer_and_chunks(d: &mut Decoder, out: &mut Text, file: &[u8], metadata: FileMetadata) {
    put_metadata(d, out, &metadata);
    out.put(",\"chunks\":");
    put_items(d, out, file, metadata);
}

/// Appends what is read at each block of these metadata.
pub fn put_items(d: &mut Decoder, out: &mut Text, file: &[u8], metadata: FileMetadata) {
    let blocks = metadata.blocks.len();
    if let Some(mut reader) = reader_of_all(d, MemFile::new(file), metadata, None) {
        put_blocks(d, out, &mut reader, blocks);
    }
}

fn put_blocks(d: &mut Decoder, out: &mut Text, reader: &mut Reader<'_>, blocks: usize) {
    let fields = fields_of(d, reader);
    out.put("[");
    for _ in 0..blocks {
        out.comma();
        put_next(out, reader, &fields);
    }
    out.put("]");
}

// Appends the stream in a file, which begins after the first eight bytes, as a further member.
fn put_as_stream(d: &mut Decoder, out: &mut Text, file: &[u8]) {
    match file.get(8..) {
        Some(stream) => {
            out.put(",\"stream\":{");
            streams::put_whole(d, out, stream);
            out.put("}");
        }
        None => d.miss("as_stream"),
    }
}
