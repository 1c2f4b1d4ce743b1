//! Records: the messages of record batches, with their bodies.
//!
//! A record is
//! `{"fields": [FIELD, ..], "nodes": [[2, 0], ..], "buffers": [[0, 8], ..], "body": BYTES}`. Each
//! node is a length and a null count, each buffer an offset and a length. `"message": BYTES` may
//! replace the nodes and buffers. A record may also have
//!
//! - `"order": "big"`: big-endian numbers
//! - `"version": "V4"`: the metadata version
//! - `"ids": [ID, ..]`: the ids of the fields, as in `cases_arrays`
//! - chosen columns, as in `projections.rt`
//! - `"dictionaries": [[ID, ARRAY], ..]`: the values of dictionaries that were read before

ghost use Rattle.std.specs.Prelude.{IfSome, length};
ghost use Rattle.std.specs.Option.{option_copied};
ghost use Rattle.ipc_projection.specs.Projections.{IsPrepared};
ghost use Rattle.ipc_read.specs.Columns.{ArePrepared};

use crate::plain::{PlainForm, all_columns, kinds_of};
use crate::projections::{chosen, chosen_fields, in_order, limit, prepared};
use cases_arrays::arrays::array;
use cases_arrays::schemas::ipc_schema;
use cases_notation::bytes::bytes;
use cases_notation::decoder::Decoder;
use cases_notation::tables::version;
use cases_notation::types::{LEVELS, fields};
use ipc_base::chunk::Chunk;
use ipc_base::ipc::IpcSchema;
use ipc_devices::fault::Fault;
use ipc_devices::{Bytes, MemFile};
use ipc_read::read::Dictionaries;
use ipc_read::read::common::read_record_batch;
use ipc_read::read::dictionaries::read_dictionary;
use ipc_table_views::{
    DictionaryBatchRef, MessageHeaderRef, MessageRef, MetadataVersion, RecordBatchRef,
};
use lower::datatypes::Field;
use lower_arrays::array::AnyArray;
use lower_types::Endianness;
use serde_json::Value;
use std::alloc::Global;
use std::collections::HashMap;
use std::sync::Arc;

/// The message of a record batch, its body, and what a reader needs to decode it.
#[derive(Drop)]
pub struct Record {
    pub message: Vec<u8>,
    pub body: Vec<u8>,
    pub form: RecordForm,
}

/// What a reader needs to decode a record batch.
///
/// It has parts of the schema, and the choices of the caller.
#[derive(Drop)]
pub struct RecordForm {
    pub fields: Vec<Field>,
    ids: IpcSchema,
    version: MetadataVersion,
    chosen: Option<Vec<usize>>,
    limit: Option<usize>,
    pub dictionaries: Dictionaries,
}

/// The record of a case.
pub fn record_of(d: &mut Decoder, value: &Value) -> Record {
    let form = form(d, value);
    let message = match value.get("message") {
        Some(message) => bytes(d, message),
        None => message_of(d, value),
    };
    let body = d.member(value, "body");
    Record {
        message,
        body: bytes(d, body),
        form,
    }
}

fn form(d: &mut Decoder, value: &Value) -> RecordForm {
    let listed = d.member(value, "fields");
    let fields = fields(d, listed, LEVELS);
    let ids = ipc_schema(d, value, &fields);
    RecordForm {
        fields,
        ids,
        version: version(d, value),
        chosen: chosen(d, value),
        limit: limit(d, value),
        dictionaries: dictionaries(d, value),
    }
}

// The values of the dictionaries that were read before.
fn dictionaries(d: &mut Decoder, value: &Value) -> Dictionaries {
    let mut out = HashMap::new(d.alloc());
    let Some(listed) = value.get("dictionaries") else {
        return out;
    };
    for known in d.items(Some(listed), "dictionaries") {
        put_dictionary(d, &mut out, known);
    }
    out
}

fn put_dictionary(d: &mut Decoder, out: &mut Dictionaries, known: &Value) {
    let (id, values) = d.both(known, "dictionaries");
    let id = d.number(Some(id), "dictionaries");
    if let Some(values) = shared(d, values) {
        let held = out.insert(id, values);
        let _ = d.take(held);
    }
}

fn shared(d: &mut Decoder, values: &Value) -> Option<Arc<AnyArray>> {
    let values = array(d, values, LEVELS)?;
    let shared = Arc::new(d.alloc(), values);
    d.take(shared)
}

/// The record batch of a message that has one.
pub fn batch_of(message: &[u8]) -> Option<RecordBatchRef<'_>> {
    match header_of(message) {
        Some(MessageHeaderRef::RecordBatch(batch)) => Some(batch),
        _ => None,
    }
}

/// The dictionary batch of a message that has one.
pub fn dictionary_batch_of(message: &[u8]) -> Option<DictionaryBatchRef<'_>> {
    match header_of(message) {
        Some(MessageHeaderRef::DictionaryBatch(batch)) => Some(batch),
        _ => None,
    }
}

fn header_of(message: &[u8]) -> Option<MessageHeaderRef<'_>> {
    match MessageRef::read_as_root(message) {
        Ok(message) => message.header().unwrap_or(None),
        Err(_) => None,
    }
}

impl RecordForm {
    /// Adds the values of a dictionary batch to those of the dictionaries.
    pub fn put_values(
        &mut self,
        alloc: Global,
        batch: DictionaryBatchRef,
        body: &[u8],
    ) -> Result<(), Fault> {
        read_dictionary(
            alloc,
            batch,
            &self.fields,
            &self.ids,
            &mut self.dictionaries,
            self.version,
            &mut MemFile::new(body),
            0,
            body.len() as u64,
            &mut Vec::new(alloc),
        )
    }

    /// The chosen columns of a record batch by the reader, in ascending order.
    pub fn read<B: Bytes + Drop>(
        &self,
        d: &mut Decoder,
        batch: RecordBatchRef,
        body: B,
    ) -> Result<Chunk<AnyArray>, Fault> {
        match self.ascending(d) {
            Some(columns) => self.read_prepared(d.alloc(), batch, body, Some(columns.as_slice())),
            None => self.read_prepared(d.alloc(), batch, body, None),
        }
    }

    // The chosen columns in ascending order, where a case chooses some.
    fn ascending(&self, d: &mut Decoder) -> Option<Vec<usize>>
        ensures { IfSome result
            (λ columns. IsPrepared columns.items (length self.now.fields.items)) }
    {
        match &self.chosen {
            Some(chosen) => prepared(d, chosen, self.fields.len()),
            None => None,
        }
    }

    fn read_prepared<B: Bytes + Drop>(
        &self,
        alloc: Global,
        batch: RecordBatchRef,
        body: B,
        chosen: Option<&[usize]>,
    ) -> Result<Chunk<AnyArray>, Fault>
        requires { ArePrepared (option_copied chosen) (length self.now.fields.items) }
    {
        let size = body.bytes().len() as u64;
        read_record_batch(
            alloc,
            batch,
            &self.fields,
            &self.ids,
            chosen,
            self.limit,
            &self.dictionaries,
            self.version,
            &mut MemFile::new(body),
            0,
            size,
            &mut Vec::new(alloc),
        )
    }

    /// The columns that were read, in the order in which they are chosen.
    pub fn in_order(&self, d: &mut Decoder, read: Chunk<AnyArray>) -> Option<Chunk<AnyArray>> {
        match &self.chosen {
            Some(chosen) => in_order(d, read, chosen),
            None => Some(read),
        }
    }

    /// The fields of the chosen columns.
    pub fn chosen_fields(&self, d: &mut Decoder) -> Vec<Field> {
        chosen_fields(d, &self.fields, &self.chosen)
    }

    /// What the plain program needs to decode a record batch.
    pub fn plain(&self, d: &mut Decoder) -> PlainForm {
        PlainForm {
            kinds: kinds_of(d, &self.fields),
            chosen: self.chosen_columns(d),
            limit: self.limit,
            order: self.order(),
            extra: self.extra(),
        }
    }

    // The chosen columns, by default all.
    fn chosen_columns(&self, d: &mut Decoder) -> Vec<usize> {
        let Some(chosen) = &self.chosen else {
            return all_columns(d, self.fields.len());
        };
        let copy: Result<_, _> = chosen.clone();
        d.take(copy).unwrap_or(d.list())
    }

    fn order(&self) -> Endianness {
        if self.ids.is_little_endian {
            Endianness::Little
        } else {
            Endianness::Big
        }
    }

    // How many buffers a union has before its own.
    fn extra(&self) -> usize {
        match self.version {
            MetadataVersion::V5 => 0,
            _ => 1,
        }
    }
}

// The tables of a message of version V5 with a record batch, up to the offset of its buffers.
const TABLES: [u8; 56] = [
    // the offset of the message
    16, 0, 0, 0,
    // the vtable of the message
    12, 0, 12, 0, 10, 0, 8, 0, 4, 0, 0, 0,
    // the message: the offset of its header, the type of the header, and the version
    12, 0, 0, 0, 28, 0, 0, 0, 3, 0, 4, 0,
    // padding
    0, 0, 0, 0, 0, 0, 0, 0,
    // the vtable of the record batch
    10, 0, 12, 0, 0, 0, 4, 0, 8, 0, 0, 0,
    // the record batch, up to the offset of its nodes
    12, 0, 0, 0, 8, 0, 0, 0,
];

// The message of a record batch with the nodes and buffers of a case.
fn message_of(d: &mut Decoder, record: &Value) -> Vec<u8> {
    let nodes = d.items(record.get("nodes"), "nodes");
    let buffers = d.items(record.get("buffers"), "buffers");
    let mut out = d.list();
    d.extend(&mut out, &TABLES);
    put_u32(
        d,
        &mut out,
        nodes.len().saturating_mul(16).saturating_add(8),
    );
    put_structs(d, &mut out, nodes, "nodes");
    put_structs(d, &mut out, buffers, "buffers");
    out
}

// Appends a vector of structs, each of two numbers.
fn put_structs(d: &mut Decoder, out: &mut Vec<u8>, pairs: &[Value], name: &'static str) {
    put_u32(d, out, pairs.len());
    for pair in pairs {
        put_struct(d, out, pair, name);
    }
}

fn put_struct(d: &mut Decoder, out: &mut Vec<u8>, pair: &Value, name: &'static str) {
    for number in d.items(Some(pair), name) {
        let number: i64 = d.number(Some(number), name);
        d.extend(out, &number.to_le_bytes());
    }
}

fn put_u32(d: &mut Decoder, out: &mut Vec<u8>, number: usize) {
    match u32::try_from(number) {
        Ok(number) => d.extend(out, &number.to_le_bytes()),
        Err(_) => d.miss("record"),
    }
}
