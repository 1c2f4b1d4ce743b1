//! The calls that read files, in the notation of `files.rt`.
//!
//! Each has the parts of a file. Columns are chosen as in `projections.rt` of `cases_records`.
//!
//! - `"file_of"` gives the metadata of a file, with the members `"blocks": [[8, 152, 64], ..]`,
//!   `"columns": ["x: Int32", ..]`, `"dictionary_blocks": [..]`, `"metadata": [["k", "v"], ..]`,
//!   `"order": "little"` and `"size": 600`.
//! - `"file_within"` with `"limit": 5` gives the same, unless its footer costs more.
//! - `"file_schema_of"` gives its schema.
//! - `"dictionaries_of"` with `"shown": [0, ..]` gives `[SLOTS, ..]`: the values of these
//!   dictionary ids, null for an id without values.
//! - `"batches_of"` with `"at": [1, 0, ..]` and chosen columns reads the dictionaries, and then the
//!   batch of each of these blocks. It gives `[CHUNK, ..]`, where an error may replace a chunk.
//! - `"given_of"` of the same parts gives how many bytes the device returned for each batch.
//! - `"cut_files_of"` reads the metadata of the file cut to each length. It gives
//!   `{"cuts": 600, "differ": [], "sets": 0}`: the number of cuts, and the cuts whose metadata can
//!   be read.
//! - `"damaged_files_of": {"file": FILE, "places": [[0, 8], ..], "bytes": BYTES}` sets each byte of
//!   these ranges (an offset and a length) to each of these bytes. It reads the metadata, the
//!   dictionaries and each batch, and gives `{"differ": [], "sets": 600}`: the number of damages,
//!   and those that return `Io` or `Memory`.

ghost use Rattle.std.specs.Prelude.{length};
ghost use Rattle.std.specs.Option.{option_copied};
ghost use Rattle.ipc_read.specs.Columns.{ArePrepared};

use crate::files::file;
use cases_arrays::chunks::put_chunk;
use cases_arrays::schemas::put_schema;
use cases_notation::damages::{Tried, cuts, damaged};
use cases_notation::decoder::Decoder;
use cases_notation::text::Text;
use cases_records::calls::records::put_shown;
use cases_records::projections::{chosen, chosen_fields, in_order, limit, prepared};
use cases_streams::calls::plain_streams::sets_of;
use cases_streams::calls::streams::{put_columns, put_order};
use ipc_base::chunk::Chunk;
use ipc_devices::fault::Fault;
use ipc_devices::{MemFile, Reads};
use ipc_files::read::file::{FileMetadata, read_batch, read_file_dictionaries, read_file_metadata};
use ipc_limits::file::read_file_metadata_within;
use ipc_read::read::Dictionaries;
use ipc_table_views::Block;
use lower::datatypes::{Field, Metadata};
use lower_arrays::array::AnyArray;
use serde_json::Value;
use std::alloc::Global;

/// A file in memory.
pub type Input<'a> = MemFile<&'a [u8]>;

/// Reads the metadata of a file.
pub fn metadata_in(alloc: Global, input: &mut Input<'_>) -> Result<FileMetadata, Fault> {
    read_file_metadata(alloc, input)
}

/// The metadata of a file, or none where they can't be read.
pub fn metadata_of(d: &mut Decoder, file: &[u8]) -> Option<FileMetadata> {
    let read = metadata_in(d.alloc(), &mut MemFile::new(file));
    d.take(read)
}

// The metadata of the file that is the parts of a call.
fn decoded_metadata(d: &mut Decoder, value: &Value) -> Option<FileMetadata> {
    let file = file(d, value);
    metadata_of(d, &file)
}

/// Appends the metadata of a file, by a clone of them.
pub fn file_of(d: &mut Decoder, out: &mut Text, value: &Value) {
    if let Some(metadata) = decoded_metadata(d, value) {
        let copied = metadata.clone();
        if let Some(copied) = d.take(copied) {
            put_metadata(d, out, &copied);
        }
    }
}

/// Appends the metadata of a file whose footer costs at most the limit.
pub fn file_within(d: &mut Decoder, out: &mut Text, value: &Value) {
    let file = file(d, value);
    let limit = d.count(value.get("limit"), "limit");
    let mut input = MemFile::new(file.as_slice());
    let read = read_file_metadata_within(d.alloc(), &mut input, limit as u64);
    if let Some(metadata) = d.take(read) {
        put_metadata(d, out, &metadata);
    }
}

/// Appends the metadata of a file.
pub fn put_metadata(d: &mut Decoder, out: &mut Text, metadata: &FileMetadata) {
    out.put("{\"blocks\":");
    put_blocks(out, &metadata.blocks);
    out.put(",\"columns\":[");
    put_columns(d, out, &metadata.schema.fields);
    out.put("],\"dictionary_blocks\":");
    put_blocks(out, metadata.dictionary_blocks());
    out.put(",\"metadata\":");
    put_pairs(out, &metadata.custom_metadata);
    put_order(out, metadata.ipc_schema.is_little_endian);
    out.put(",\"size\":");
    out.show(&metadata.size);
    out.put("}");
}

fn put_blocks(out: &mut Text, blocks: &[Block]) {
    out.put("[");
    for block in blocks {
        out.comma();
        put_block(out, block);
    }
    out.put("]");
}

fn put_block(out: &mut Text, block: &Block) {
    out.put("[");
    out.show(&block.offset);
    out.put(",");
    out.show(&block.meta_data_length);
    out.put(",");
    out.show(&block.body_length);
    out.put("]");
}

/// Appends pairs of texts, in the order of their keys.
pub fn put_pairs(out: &mut Text, pairs: &Metadata) {
    out.put("[");
    for (key, value) in pairs {
        out.comma();
        put_pair(out, key.as_str(), value.as_str());
    }
    out.put("]");
}

fn put_pair(out: &mut Text, key: &str, value: &str) {
    out.put("[");
    out.quoted(key);
    out.put(",");
    out.quoted(value);
    out.put("]");
}

/// Appends the schema of a file.
pub fn file_schema_of(d: &mut Decoder, out: &mut Text, value: &Value) {
    if let Some(metadata) = decoded_metadata(d, value) {
        put_schema(out, &metadata.schema, &metadata.ipc_schema);
    }
}

// ---- dictionaries and batches

// What is read of a file before its batches.
#[derive(Drop)]
struct FileForm {
    metadata: FileMetadata,
    dictionaries: Dictionaries,
}

fn dictionaries_in(
    alloc: Global,
    input: &mut Input<'_>,
    metadata: &FileMetadata,
) -> Result<Dictionaries, Fault> {
    read_file_dictionaries(alloc, input, metadata, &mut Vec::new(alloc))
}

fn opened(alloc: Global, input: &mut Input<'_>) -> Result<FileForm, Fault> {
    let metadata = metadata_in(alloc, input)?;
    let dictionaries = dictionaries_in(alloc, input, &metadata)?;
    Ok(FileForm {
        metadata,
        dictionaries,
    })
}

// The same, or none where the file can't be read.
fn form_of(d: &mut Decoder, input: &mut Input<'_>) -> Option<FileForm> {
    let opened = opened(d.alloc(), input);
    d.take(opened)
}

/// Appends the values of the dictionaries of a file.
pub fn dictionaries_of(d: &mut Decoder, out: &mut Text, value: &Value) {
    let file = file(d, value);
    if let Some(form) = form_of(d, &mut MemFile::new(file.as_slice())) {
        put_shown(d, out, &form.dictionaries, value);
    }
}

// The columns and the rows that a case reads of each batch.
#[derive(Drop)]
struct Choice {
    columns: Option<Vec<usize>>,
    limit: Option<usize>,
}

fn choice_of(d: &mut Decoder, value: &Value) -> Choice {
    Choice {
        columns: chosen(d, value),
        limit: limit(d, value),
    }
}

// A chunk, or the error of reading it. There is none where the case isn't in the notation.
type Answer = Option<Result<Chunk<AnyArray>, Fault>>;

impl FileForm {
    // The batch of a block, its columns in the order in which they are chosen.
    fn read(
        &self,
        d: &mut Decoder,
        input: &mut Input<'_>,
        choice: &Choice,
        index: usize,
    ) -> Answer {
        match &choice.columns {
            None => self.read_prepared(d, input, None, choice.limit, index),
            Some(columns) => self.read_chosen(d, input, columns, choice.limit, index),
        }
    }

    fn read_chosen(
        &self,
        d: &mut Decoder,
        input: &mut Input<'_>,
        columns: &[usize],
        limit: Option<usize>,
        index: usize,
    ) -> Answer {
        let count = self.metadata.schema.fields.len();
        let ascending = prepared(d, columns, count)?;
        let read = self.read_prepared(d, input, Some(ascending.as_slice()), limit, index)?;
        ordered(d, read, columns)
    }

    // The columns of a prepared projection, in ascending order.
    fn read_prepared(
        &self,
        d: &mut Decoder,
        input: &mut Input<'_>,
        columns: Option<&[usize]>,
        limit: Option<usize>,
        index: usize,
    ) -> Answer
        requires { ArePrepared (option_copied columns)
            (length self.now.metadata.schema.fields.items) }
    {
        if index >= self.metadata.blocks.len() {
            d.miss("at");
            return None;
        }
        Some(read_batch(
            d.alloc(),
            input,
            &self.dictionaries,
            &self.metadata,
            columns,
            limit,
            index,
            &mut Vec::new(d.alloc()),
            &mut Vec::new(d.alloc()),
        ))
    }

    // The fields of the columns that are read.
    fn fields(&self, d: &mut Decoder, choice: &Choice) -> Vec<Field> {
        chosen_fields(d, &self.metadata.schema.fields, &choice.columns)
    }
}

// The columns of a chunk in the order in which they are chosen.
fn ordered(d: &mut Decoder, read: Result<Chunk<AnyArray>, Fault>, columns: &[usize]) -> Answer {
    match read {
        Ok(chunk) => {
            let chunk = in_order(d, chunk, columns)?;
            Some(Ok(chunk))
        }
        Err(fault) => Some(Err(fault)),
    }
}

/// Appends the batches of some blocks of a file.
pub fn batches_of(d: &mut Decoder, out: &mut Text, value: &Value) {
    let file = file(d, value);
    let mut input = MemFile::new(file.as_slice());
    if let Some(form) = form_of(d, &mut input) {
        put_batches(d, out, &form, &mut input, value);
    }
}

fn put_batches(
    d: &mut Decoder,
    out: &mut Text,
    form: &FileForm,
    input: &mut Input<'_>,
    value: &Value,
) {
    let choice = choice_of(d, value);
    let fields = form.fields(d, &choice);
    out.put("[");
    for index in d.items(value.get("at"), "at") {
        out.comma();
        let index = d.count(Some(index), "at");
        let read = form.read(d, input, &choice, index);
        put_batch(out, read, &fields);
    }
    out.put("]");
}

fn put_batch(out: &mut Text, read: Answer, fields: &[Field]) {
    match read {
        Some(Ok(chunk)) => put_chunk(out, &chunk, fields),
        Some(Err(fault)) => out.shown(&fault),
        None => {}
    }
}

/// Appends how many bytes the device returned for the batches of some blocks of a file.
pub fn given_of(d: &mut Decoder, out: &mut Text, value: &Value) {
    let file = file(d, value);
    let mut input = MemFile::new(file.as_slice());
    if let Some(form) = form_of(d, &mut input) {
        put_counts(d, out, &form, &mut input, value);
    }
}

fn put_counts(
    d: &mut Decoder,
    out: &mut Text,
    form: &FileForm,
    input: &mut Input<'_>,
    value: &Value,
) {
    let choice = choice_of(d, value);
    out.put("[");
    for index in d.items(value.get("at"), "at") {
        out.comma();
        let index = d.count(Some(index), "at");
        let before = input.given();
        if let Some(read) = form.read(d, input, &choice, index) {
            let _ = d.take(read);
        }
        out.show(&input.given().saturating_sub(before));
    }
    out.put("]");
}

// ---- damages

/// Appends the lengths to which a file may be cut so that its metadata are still read.
pub fn cut_files_of(d: &mut Decoder, out: &mut Text, value: &Value) {
    let file = file(d, value);
    let mut tried = Tried::new(d.alloc());
    for cut in cuts(d, file.len()) {
        let left = damaged(d, &file, cut);
        let read = metadata_in(d.alloc(), &mut MemFile::new(left.as_slice()));
        tried.add(cut, read.is_ok());
    }
    out.put("{");
    tried.put_cuts(out);
    tried.put(d, out);
    out.put("}");
}

/// Appends how many damages of a file were tried, and those that return another error than one of
/// the bytes.
pub fn damaged_files_of(d: &mut Decoder, out: &mut Text, value: &Value) {
    let whole = d.member(value, "file");
    let file = file(d, whole);
    let mut tried = Tried::new(d.alloc());
    for damage in sets_of(d, value) {
        let damaged = damaged(d, &file, damage);
        tried.add(damage, fails(d, &damaged));
    }
    out.put("{");
    tried.put(d, out);
    out.put("}");
}

// Whether reading all of a file fails for another reason than its bytes.
fn fails(d: &mut Decoder, file: &[u8]) -> bool {
    let mut input = MemFile::new(file);
    match opened(d.alloc(), &mut input) {
        Ok(form) => fails_at_a_block(d, &form, &mut input),
        Err(fault) => is_failure(&fault),
    }
}

fn is_failure(fault: &Fault) -> bool {
    matches!(fault, Fault::Io(_) | Fault::Memory)
}

// Reads the batch of each block, whatever the other batches return.
fn fails_at_a_block(d: &mut Decoder, form: &FileForm, input: &mut Input<'_>) -> bool {
    let mut fails = false;
    for index in 0..form.metadata.blocks.len() {
        if let Some(Err(fault)) = form.read_prepared(d, input, None, None, index) {
            fails = fails || is_failure(&fault);
        }
    }
    fails
}
