//! Streams as the plain program reads them: their frames, and the messages in these.

use cases_arrays::calls::plain_schemas::fields_of;
use cases_notation::decoder::Decoder;
use cases_records::plain::{PlainColumns, PlainForm, all_columns, kinds_of};
use cases_records::records::batch_of;
use ipc_reference_schema::schema::{PlainAnswer, plain_schema};
use ipc_reference_schema::types::PlainSchema;
use ipc_table_views::{MessageRef, MetadataVersion};

// What some bytes begin with.
#[derive(Clone, Copy)]
enum Front<'a> {
    Message { metadata: &'a [u8], rest: &'a [u8] },
    Mark,
    Waiting,
    Broken,
}

// The first 4 bytes as a number, and the bytes after them.
fn word(bytes: &[u8]) -> Option<(u32, &[u8])> {
    if bytes.len() < 4 {
        return None;
    }
    let word = u32::from_le_bytes([bytes[0], bytes[1], bytes[2], bytes[3]]);
    Some((word, &bytes[4..]))
}

fn sized(length: u32, bytes: &[u8]) -> Front<'_> {
    if length == 0 {
        return Front::Mark;
    }
    let count = length as usize;
    if length > i32::MAX as u32 || count > bytes.len() {
        return Front::Broken;
    }
    Front::Message {
        metadata: &bytes[..count],
        rest: &bytes[count..],
    }
}

fn front_of(bytes: &[u8]) -> Front<'_> {
    let Some((first, rest)) = word(bytes) else {
        return Front::Waiting;
    };
    if first != u32::MAX {
        return sized(first, rest);
    }
    match word(rest) {
        Some((length, rest)) => sized(length, rest),
        None => Front::Broken,
    }
}

// ---- the schema

/// What a schema message states about the messages after it.
#[derive(Drop)]
pub struct PlainHead {
    pub schema: PlainSchema,
    form: PlainForm,
}

// How many buffers a union has before its own: one before version 5.
fn extra(message: &[u8]) -> Option<usize> {
    let Ok(root) = MessageRef::read_as_root(message) else {
        return None;
    };
    match root.version() {
        Ok(MetadataVersion::V5) => Some(0),
        Ok(_) => Some(1),
        Err(_) => None,
    }
}

fn head_at(d: &mut Decoder, message: &[u8]) -> Option<PlainHead> {
    let extra = extra(message)?;
    let answer = plain_schema(d.alloc(), message);
    match d.take(answer) {
        Some(PlainAnswer::Plain(schema)) => Some(head_of(d, schema, extra)),
        _ => None,
    }
}

fn head_of(d: &mut Decoder, schema: PlainSchema, extra: usize) -> PlainHead {
    let fields = fields_of(d, &schema.fields);
    let kinds = kinds_of(d, &fields);
    let form = PlainForm {
        chosen: all_columns(d, kinds.len()),
        kinds,
        limit: None,
        order: schema.order,
        extra,
    };
    PlainHead { schema, form }
}

/// The schema of a stream, and the bytes after its message.
pub fn plain_head<'a>(d: &mut Decoder, bytes: &'a [u8]) -> Option<(PlainHead, &'a [u8])> {
    match front_of(bytes) {
        Front::Message { metadata, rest } => Some((head_at(d, metadata)?, rest)),
        _ => None,
    }
}

// ---- the messages after it

/// The next message of a stream.
#[derive(Drop)]
pub enum Item<'a> {
    /// Its columns, and the bytes after its body.
    Columns(PlainColumns, &'a [u8]),
    Mark,
    Waiting,
    Faulty,
}

/// The next message of a stream, after its schema message.
pub fn item_of<'a>(d: &mut Decoder, head: &PlainHead, bytes: &'a [u8]) -> Item<'a> {
    match front_of(bytes) {
        Front::Message { metadata, rest } => message_item(d, head, metadata, rest),
        Front::Mark => Item::Mark,
        Front::Waiting => Item::Waiting,
        Front::Broken => Item::Faulty,
    }
}

fn message_item<'a>(
    d: &mut Decoder,
    head: &PlainHead,
    metadata: &[u8],
    bytes: &'a [u8],
) -> Item<'a> {
    let (Some(batch), Some((source, rest))) = (batch_of(metadata), body_of(metadata, bytes)) else {
        return Item::Faulty;
    };
    match head.form.columns(d, &batch, source) {
        Some(columns) => Item::Columns(columns, rest),
        None => Item::Faulty,
    }
}

// The body of a message, and the bytes after it.
fn body_of<'a>(metadata: &[u8], bytes: &'a [u8]) -> Option<(&'a [u8], &'a [u8])> {
    let length = body_length(metadata)?;
    if length > bytes.len() {
        return None;
    }
    Some((&bytes[..length], &bytes[length..]))
}

fn body_length(metadata: &[u8]) -> Option<usize> {
    let Ok(message) = MessageRef::read_as_root(metadata) else {
        return None;
    };
    match message.body_length() {
        Ok(length) => usize::try_from(length).ok(),
        Err(_) => None,
    }
}
