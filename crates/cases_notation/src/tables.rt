//! The Flatbuffers tables of messages and files, which are encoded to bytes.
//!
//! They may have what no schema of this library has, such as integers of 24 bits.
//!
//! - A message is `{"header": HEADER, "version": "V4", "body_length": 128}`. The defaults are V5
//!   and 0.
//! - A header is `{"schema": SCHEMA}`, `{"record_batch": BATCH}` or
//!   `{"dictionary_batch": {"id": 7, "data": BATCH, "is_delta": false}}`. The data may be left out.
//! - A schema is `{"fields": [FIELD, ..], "endianness": "Big", "metadata": PAIRS}`. Only the fields
//!   are required.
//! - A batch is `{"length": 3, "nodes": [[3, 1], ..], "buffers": [[64, 12], ..]}`. A node has a
//!   length and a null count, a buffer an offset and a length.
//! - A footer has the members `"schema"`, `"dictionaries": [BLOCK, ..]`,
//!   `"record_batches": [BLOCK, ..]`, `"metadata": PAIRS` and a version. Each may be left out.
//! - A block is `[1024, 200, 64]`: its offset, and the lengths of its metadata and its body. In a
//!   file it may be the index of a message.
//! - Pairs are `[["k", "v"], ..]`.
//! - A field has the members `"name": "f"`, `"type": TYPE`, `"nullable": true`,
//!   `"children": [FIELD, ..]`, `"dictionary": DICTIONARY` and `"metadata": PAIRS`. Only the name
//!   and the type are required. `"lists": 63` nests it in so many lists of its name.
//! - A dictionary is `{"id": 7, "index_type": ["Int", 16, false], "is_ordered": true}`.
//! - A type is described in `tables/types.rt`.

mod types;

use crate::decoder::Decoder;
use crate::types::{LEVELS, nullable};
use ipc_table_views::{Block, Buffer, Endianness, FieldNode, MetadataVersion};
use ipc_tables::file::Footer;
use ipc_tables::message::{DictionaryBatch, Message, MessageHeader, RecordBatch};
use ipc_tables::schema::{DictionaryEncoding, DictionaryKind, Field, KeyValue, Schema};
use ipc_tables::types::FieldType;
use serde_json::Value;

/// The bytes of a message.
pub fn message(d: &mut Decoder, value: &Value) -> Vec<u8> {
    let bytes = message_of(d, value).to_bytes(d.alloc());
    let none = d.list();
    d.take(bytes).unwrap_or(none)
}

fn message_of(d: &mut Decoder, value: &Value) -> Message {
    let version = version(d, value);
    let body_length = match value.get("body_length") {
        None => 0,
        length => d.number(length, "body_length"),
    };
    let table = d.member(value, "header");
    Message {
        version,
        header: header(d, table),
        body_length,
        custom_metadata: None,
    }
}

/// The bytes of the footer of a file with messages at these blocks.
pub fn footer(d: &mut Decoder, value: &Value, messages: &[Block]) -> Vec<u8> {
    let bytes = footer_of(d, value, messages).to_bytes(d.alloc());
    let none = d.list();
    d.take(bytes).unwrap_or(none)
}

fn footer_of(d: &mut Decoder, value: &Value, messages: &[Block]) -> Footer {
    let schema = match value.get("schema") {
        None => None,
        Some(table) => Some(schema(d, table)),
    };
    Footer {
        version: version(d, value),
        schema,
        dictionaries: blocks(d, value.get("dictionaries"), messages),
        record_batches: blocks(d, value.get("record_batches"), messages),
        custom_metadata: optional_pairs(d, value),
    }
}

// The blocks of a footer, unless their list is left out.
fn blocks(d: &mut Decoder, value: Option<&Value>, messages: &[Block]) -> Option<Vec<Block>> {
    match value {
        None => None,
        Some(list) => Some(block_list(d, list, messages)),
    }
}

fn block_list(d: &mut Decoder, list: &Value, messages: &[Block]) -> Vec<Block> {
    let mut out = d.list();
    for value in d.items(Some(list), "blocks") {
        let block = match value {
            Value::Array(_) => block_of_numbers(d, value),
            _ => block_of_message(d, value, messages),
        };
        d.push(&mut out, block);
    }
    out
}

const NO_BLOCK: Block = Block {
    offset: 0,
    meta_data_length: 0,
    body_length: 0,
};

fn block_of_numbers(d: &mut Decoder, value: &Value) -> Block {
    match d.items(Some(value), "blocks") {
        [offset, metadata, body] => Block {
            offset: d.number(Some(offset), "blocks"),
            meta_data_length: d.number(Some(metadata), "blocks"),
            body_length: d.number(Some(body), "blocks"),
        },
        _ => {
            d.miss("blocks");
            NO_BLOCK
        }
    }
}

// The block of the message of this index.
fn block_of_message(d: &mut Decoder, index: &Value, messages: &[Block]) -> Block {
    match messages.get(d.count(Some(index), "blocks")) {
        Some(block) => *block,
        None => {
            d.miss("blocks");
            NO_BLOCK
        }
    }
}

const VERSIONS: [(&str, MetadataVersion); 5] = [
    ("V1", MetadataVersion::V1),
    ("V2", MetadataVersion::V2),
    ("V3", MetadataVersion::V3),
    ("V4", MetadataVersion::V4),
    ("V5", MetadataVersion::V5),
];

/// The version of a message or a footer; V5 by default.
pub fn version(d: &mut Decoder, value: &Value) -> MetadataVersion {
    match value.get("version") {
        None => MetadataVersion::V5,
        version => d.choice(version, &VERSIONS, "version", MetadataVersion::V5),
    }
}

fn header(d: &mut Decoder, value: &Value) -> MessageHeader {
    if let Some(table) = value.get("schema") {
        MessageHeader::Schema(schema(d, table))
    } else if let Some(table) = value.get("record_batch") {
        MessageHeader::RecordBatch(record_batch(d, table))
    } else {
        let table = d.member(value, "dictionary_batch");
        MessageHeader::DictionaryBatch(dictionary_batch(d, table))
    }
}

// ---- batches

fn dictionary_batch(d: &mut Decoder, value: &Value) -> DictionaryBatch {
    let data_ = match value.get("data") {
        None => None,
        Some(data) => Some(record_batch(d, data)),
    };
    DictionaryBatch {
        id: d.number(value.get("id"), "id"),
        is_delta: d.truth(value.get("is_delta"), "is_delta"),
        data_,
    }
}

fn record_batch(d: &mut Decoder, value: &Value) -> RecordBatch {
    RecordBatch {
        length: d.number(value.get("length"), "length"),
        nodes: nodes(d, value),
        buffers: buffers(d, value),
        compression: None,
    }
}

fn nodes(d: &mut Decoder, value: &Value) -> Vec<FieldNode> {
    let mut out = d.list();
    for node in d.items(value.get("nodes"), "nodes") {
        let (length, null_count) = two_numbers(d, node, "nodes");
        d.push(&mut out, FieldNode { length, null_count });
    }
    out
}

fn buffers(d: &mut Decoder, value: &Value) -> Vec<Buffer> {
    let mut out = d.list();
    for buffer in d.items(value.get("buffers"), "buffers") {
        let (offset, length) = two_numbers(d, buffer, "buffers");
        d.push(&mut out, Buffer { offset, length });
    }
    out
}

// The two numbers of a list, the part of this name.
fn two_numbers(d: &mut Decoder, value: &Value, name: &'static str) -> (i64, i64) {
    match d.items(Some(value), name) {
        [first, second] => {
            let first = d.number(Some(first), name);
            (first, d.number(Some(second), name))
        }
        _ => {
            d.miss(name);
            (0, 0)
        }
    }
}

// ---- schemas

fn schema(d: &mut Decoder, value: &Value) -> Schema {
    let endianness = endianness(d, value);
    let list = d.member(value, "fields");
    Schema {
        endianness,
        fields: fields(d, list, LEVELS - 1),
        custom_metadata: pairs(d, value),
        features: None,
    }
}

const ORDERS: [(&str, Endianness); 2] = [("Little", Endianness::Little), ("Big", Endianness::Big)];

fn endianness(d: &mut Decoder, value: &Value) -> Endianness {
    match value.get("endianness") {
        None => Endianness::Little,
        endianness => d.choice(endianness, &ORDERS, "endianness", Endianness::Little),
    }
}

// The pairs in the member `metadata`, in their order; none where it is left out.
fn pairs(d: &mut Decoder, value: &Value) -> Vec<KeyValue> {
    match value.get("metadata") {
        None => d.list(),
        Some(list) => pair_list(d, list),
    }
}

// The same, or `None` where that member is left out.
fn optional_pairs(d: &mut Decoder, value: &Value) -> Option<Vec<KeyValue>> {
    match value.get("metadata") {
        None => None,
        Some(list) => Some(pair_list(d, list)),
    }
}

fn pair_list(d: &mut Decoder, list: &Value) -> Vec<KeyValue> {
    let mut out = d.list();
    for pair in d.items(Some(list), "metadata") {
        let pair = pair_of(d, pair);
        d.push(&mut out, pair);
    }
    out
}

fn pair_of(d: &mut Decoder, pair: &Value) -> KeyValue {
    let (key, value) = d.both(pair, "metadata");
    KeyValue {
        key: d.string(Some(key), "metadata"),
        value: d.string(Some(value), "metadata"),
    }
}

// Fields that have at most so many levels of children.
#[cycle(tables)]
fn fields(d: &mut Decoder, value: &Value, levels: usize) -> Vec<Field> {
    let mut out = d.list();
    for value in d.items(Some(value), "fields") {
        let field = field(d, value, levels);
        let field = in_lists(d, field, value.get("lists"));
        d.push(&mut out, field);
    }
    out
}

#[cycle(tables)]
fn field(d: &mut Decoder, value: &Value, levels: usize) -> Field {
    let dictionary = dictionary(d, value);
    let nullable = nullable(d, value);
    let name = d.string(value.get("name"), "name");
    let type_ = d.member(value, "type");
    let type_ = types::field_type(d, type_);
    Field {
        name,
        nullable,
        type_,
        dictionary,
        children: children(d, value, levels),
        custom_metadata: pairs(d, value),
    }
}

#[cycle(tables)]
fn children(d: &mut Decoder, value: &Value, levels: usize) -> Vec<Field> {
    match value.get("children") {
        None => d.list(),
        Some(children) if levels > 0 => fields(d, children, levels - 1),
        Some(_) => {
            d.miss("fields");
            d.list()
        }
    }
}

// A field in so many lists of its name, nested in one another.
fn in_lists(d: &mut Decoder, field: Field, lists: Option<&Value>) -> Field {
    let lists = match lists {
        None => 0,
        lists => d.count(lists, "lists"),
    };
    let mut field = field;
    for _ in 0..lists {
        field = list_of(d, field);
    }
    field
}

// A list of this field, of the same name.
fn list_of(d: &mut Decoder, item: Field) -> Field {
    let name = d.owned(item.name.as_str());
    let mut children = d.list();
    d.push(&mut children, item);
    Field {
        name,
        nullable: true,
        type_: FieldType::List,
        dictionary: None,
        children,
        custom_metadata: d.list(),
    }
}

fn dictionary(d: &mut Decoder, value: &Value) -> Option<DictionaryEncoding> {
    let value = value.get("dictionary")?;
    let id = d.number(value.get("id"), "id");
    let index_type = d.items(value.get("index_type"), "index_type");
    Some(DictionaryEncoding {
        id,
        index_type: types::int(d, index_type),
        is_ordered: d.truth(value.get("is_ordered"), "is_ordered"),
        dictionary_kind: DictionaryKind::DenseArray,
    })
}
