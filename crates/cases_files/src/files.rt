//! Files.
//!
//! `{"messages": [BYTES, ..], "footer": FOOTER}` is the magic and its padding, the messages, the
//! footer, its length, and the magic. Each message is its prefix of 8 bytes, its metadata and its
//! body. The footer is a table, as in `tables.rt` of `cases_notation`, in which a block may be the
//! number of a message. `"footer_bytes": BYTES` may replace the footer.
//!
//! `{"bytes": BYTES}` are the bytes of a whole file, and `{"written": WRITTEN}` is what a writer
//! writes, as in `written_files.rt`. `"changes": [PART, ..]` beside any of these are made to the
//! whole, as in `bytes.rt` of `cases_notation`.

use crate::written_files::write_file;
use cases_notation::bytes::{bytes, put_part};
use cases_notation::decoder::Decoder;
use cases_notation::tables::footer;
use cases_notation::text::Text;
use ipc_table_views::Block;
use serde_json::Value;

/// The bytes of a file.
pub fn file(d: &mut Decoder, value: &Value) -> Vec<u8> {
    let mut out = plain_file(d, value);
    if let Some(changes) = value.get("changes") {
        make_changes(d, &mut out, changes);
    }
    out
}

fn make_changes(d: &mut Decoder, out: &mut Vec<u8>, changes: &Value) {
    for change in d.items(Some(changes), "changes") {
        put_part(d, out, change);
    }
}

/// The bytes of a file without its changes.
pub fn plain_file(d: &mut Decoder, value: &Value) -> Vec<u8> {
    match (value.get("bytes"), value.get("written")) {
        (Some(whole), _) => bytes(d, whole),
        (None, Some(written)) => written_file(d, written),
        (None, None) => built(d, value),
    }
}

// What a writer writes, without the answers of its calls.
fn written_file(d: &mut Decoder, value: &Value) -> Vec<u8> {
    let mut answers = Text::new(d.alloc());
    write_file(d, &mut answers, value)
}

fn built(d: &mut Decoder, value: &Value) -> Vec<u8> {
    let mut out = d.list();
    d.extend(&mut out, b"ARROW1\0\0");
    let blocks = put_messages(d, &mut out, value);
    let footer = footer_of(d, value, &blocks);
    put_footer(d, &mut out, &footer);
    out
}

// Appends the messages of a file, and returns their blocks.
fn put_messages(d: &mut Decoder, out: &mut Vec<u8>, value: &Value) -> Vec<Block> {
    let mut blocks = d.list();
    for message in d.items(value.get("messages"), "messages") {
        let message = bytes(d, message);
        let block = block_at(d, out.len(), &message);
        d.push(&mut blocks, block);
        d.extend(out, &message);
    }
    blocks
}

// The block of a message at an offset. The prefix states how long the metadata are, and the rest is
// the body.
fn block_at(d: &mut Decoder, offset: usize, message: &[u8]) -> Block {
    let meta_data_length = stated_length(d, message).saturating_add(8);
    let length = signed(d, message.len());
    Block {
        offset: signed(d, offset),
        meta_data_length,
        body_length: length.saturating_sub(meta_data_length as i64),
    }
}

// The length that the prefix of a message states.
fn stated_length(d: &mut Decoder, message: &[u8]) -> i32 {
    match message {
        [_, _, _, _, a, b, c, e, ..] => i32::from_le_bytes([*a, *b, *c, *e]),
        _ => {
            d.miss("messages");
            0
        }
    }
}

fn signed(d: &mut Decoder, count: usize) -> i64 {
    match i64::try_from(count) {
        Ok(count) => count,
        Err(_) => {
            d.miss("messages");
            0
        }
    }
}

fn footer_of(d: &mut Decoder, value: &Value, blocks: &[Block]) -> Vec<u8> {
    match value.get("footer_bytes") {
        Some(footer) => bytes(d, footer),
        None => {
            let table = d.member(value, "footer");
            footer(d, table, blocks)
        }
    }
}

// Appends a footer, its length and the magic.
fn put_footer(d: &mut Decoder, out: &mut Vec<u8>, footer: &[u8]) {
    d.extend(out, footer);
    match u32::try_from(footer.len()) {
        Ok(length) => d.extend(out, &length.to_le_bytes()),
        Err(_) => d.miss("footer"),
    }
    d.extend(out, b"ARROW1");
}
