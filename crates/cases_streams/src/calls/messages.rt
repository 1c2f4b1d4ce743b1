//! The messages of streams. `"frames_of": [BYTES, ..]` reads the frames of pieces of a stream, of
//! each piece up to its end, and gives `["Waiting", {"message": HEX}, "Mark", ..]`. No frame has a
//! body.
//!
//! `"records_of": STREAM` gives `{"end": "Mark", "records": [{"body": BYTES, "message": MESSAGE},
//! ..]}`: the messages after the first one, as in `views.rt` of `cases_notation`.

use crate::written::stream;
use cases_notation::bytes::bytes;
use cases_notation::calls::views::put_encoded;
use cases_notation::decoder::Decoder;
use cases_notation::text::Text;
use ipc_devices::{MemFile, read_bytes};
use ipc_readers::read::begun::{Begun, Frame};
use ipc_readers::read::frame::read_frame;
use ipc_table_views::MessageRef;
use serde_json::Value;

/// The frames of pieces of a stream.
pub fn frames_of(d: &mut Decoder, out: &mut Text, value: &Value) {
    let mut begun = Begun::new();
    out.put("[");
    for piece in d.items(Some(value), "frames_of") {
        let piece = bytes(d, piece);
        put_frames(d, out, &mut begun, &piece);
    }
    out.put("]");
}

// The frames of a piece, up to its end. All but the last one have bytes.
fn put_frames(d: &mut Decoder, out: &mut Text, begun: &mut Begun, piece: &[u8]) {
    let mut input = MemFile::new(piece);
    let mut metadata = d.list();
    for _ in 0..piece.len().saturating_add(1) {
        let frame = next_frame(d, &mut input, begun, &mut metadata);
        out.comma();
        put_frame(out, frame, &metadata);
        if frame == Frame::Waiting {
            break;
        }
    }
}

type Input<'a> = MemFile<&'a [u8]>;

// The next frame. An error counts as the end.
fn next_frame(
    d: &mut Decoder,
    input: &mut Input<'_>,
    begun: &mut Begun,
    metadata: &mut Vec<u8>,
) -> Frame {
    let frame = read_frame(input, begun, metadata);
    d.take(frame).unwrap_or(Frame::Waiting)
}

fn put_frame(out: &mut Text, frame: Frame, metadata: &[u8]) {
    if frame != Frame::Message {
        return out.name(&frame);
    }
    out.put("{\"message\":");
    out.hex(metadata);
    out.put("}");
}

/// The messages of a stream after the first one.
pub fn records_of(d: &mut Decoder, out: &mut Text, value: &Value) {
    let stream = stream(d, value);
    let mut input = MemFile::new(stream.as_slice());
    let mut metadata = d.list();
    let first = next_frame(d, &mut input, &mut Begun::new(), &mut metadata);
    if first != Frame::Message {
        return d.miss("a stream");
    }
    out.put("{\"records\":[");
    let end = put_records(d, out, &mut input, stream.len());
    out.put("],\"end\":");
    out.name(&end);
    out.put("}");
}

// Appends so many messages at most, and returns the frame after the last one.
fn put_records(d: &mut Decoder, out: &mut Text, input: &mut Input<'_>, most: usize) -> Frame {
    let mut metadata = d.list();
    for _ in 0..most {
        let frame = next_frame(d, input, &mut Begun::new(), &mut metadata);
        if frame != Frame::Message {
            return frame;
        }
        out.comma();
        put_record(d, out, input, &metadata);
    }
    Frame::Message
}

fn put_record(d: &mut Decoder, out: &mut Text, input: &mut Input<'_>, metadata: &[u8]) {
    let Ok(message) = MessageRef::read_as_root(metadata) else {
        return d.miss("a message");
    };
    match message.body_length() {
        Ok(length) if length >= 0 => {
            let body = read_bytes(d.alloc(), input, length as usize);
            if let Some(body) = d.take(body) {
                put_encoded(out, &body, &message);
            }
        }
        _ => d.miss("a body"),
    }
}
