//! Messages as they are written to a stream. `"framed": {"message": BYTES, "body": BYTES}` gives
//! `{"bytes": HEX, "lengths": [16, 128]}`: the bytes, and the lengths of the padded metadata with
//! its prefix and of the padded body. `"continuation_of": 0` gives `{"bytes": HEX, "length": 8}`:
//! the prefix of metadata of so many bytes.

use cases_notation::bytes::bytes;
use cases_notation::decoder::Decoder;
use cases_notation::text::Text;
use ipc_write::common::EncodedData;
use ipc_write::common_sync::{write_continuation, write_message};
use serde_json::Value;

/// A message and its body, with their padding.
pub fn framed(d: &mut Decoder, out: &mut Text, value: &Value) {
    let encoded = encoded_of(d, value);
    let mut sent: Vec<u8> = d.list();
    let written = write_message(&mut sent, &encoded);
    if let Some((head, body)) = d.take(written) {
        out.put("{\"bytes\":");
        out.hex(&sent);
        out.put(",\"lengths\":");
        out.pair(&head, &body);
        out.put("}");
    }
}

fn encoded_of(d: &mut Decoder, value: &Value) -> EncodedData {
    let message = d.member(value, "message");
    let message = bytes(d, message);
    let body = d.member(value, "body");
    EncodedData {
        ipc_message: message,
        arrow_data: bytes(d, body),
    }
}

/// The prefix of a message.
pub fn continuation_of(d: &mut Decoder, out: &mut Text, value: &Value) {
    let length = d.number(Some(value), "continuation_of");
    let mut sent: Vec<u8> = d.list();
    let written = write_continuation(&mut sent, length);
    if let Some(length) = d.take(written) {
        out.put("{\"bytes\":");
        out.hex(&sent);
        out.put(",\"length\":");
        out.show(&length);
        out.put("}");
    }
}
