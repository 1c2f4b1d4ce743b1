//! Devices. `"device_by": {"device": KIND, "bytes": BYTES, "calls": [CALL, ..]}` makes the calls on
//! a device with these bytes, and gives `{"answers": [..], "bytes": HEX}`: the result of each call,
//! and the bytes after all calls. The kinds are `"memory"`, a file in memory; `"lent"`, the same by
//! a borrow; `"watched"`, a device of the standard library; and `"vector"`, a vector of bytes,
//! which has the calls of a writer only.
//!
//! A call is `{"read": 2}` or `{"pass": 2}`, which give bytes (`pass` gives null if the device has
//! no slice of so many bytes); `{"skip": 2}`, `{"seek": 2}` or `"flush"`, which give `"ok"`;
//! `{"write": BYTES}`, `"end"`, `"position"`, `"given"` or `"failures"`, which give a number.

use cases_notation::bytes::bytes;
use cases_notation::decoder::Decoder;
use cases_notation::text::Text;
use ipc_devices::{MemFile, Reads, Seeks, Watched, Writes, read_bytes};
use serde_json::Value;
use std::fmt::Display;
use std::io;
use std::io::Cursor;

#[derive(Clone, Copy)]
enum Kind {
    Memory,
    Lent,
    Watched,
    Vector,
}

const KINDS: [(&str, Kind); 4] = [
    ("memory", Kind::Memory),
    ("lent", Kind::Lent),
    ("watched", Kind::Watched),
    ("vector", Kind::Vector),
];

/// The results of a device's calls, and its bytes after them.
pub fn device_by(d: &mut Decoder, out: &mut Text, value: &Value) {
    let held = d.member(value, "bytes");
    let held = bytes(d, held);
    let calls = d.items(value.get("calls"), "calls");
    out.put("{\"answers\":[");
    let held = match d.choice(value.get("device"), &KINDS, "device", Kind::Vector) {
        Kind::Memory => by_memory(d, out, held, calls),
        Kind::Lent => by_borrow(d, out, held, calls),
        Kind::Watched => by_standard(d, out, held, calls),
        Kind::Vector => by_vector(d, out, held, calls),
    };
    out.put("],\"bytes\":");
    out.hex(&held);
    out.put("}");
}

fn by_memory(d: &mut Decoder, out: &mut Text, held: Vec<u8>, calls: &[Value]) -> Vec<u8> {
    let mut file = MemFile::new(held);
    make_calls(d, out, &mut file, calls);
    file.into_inner()
}

fn by_borrow(d: &mut Decoder, out: &mut Text, held: Vec<u8>, calls: &[Value]) -> Vec<u8> {
    let mut file = MemFile::new(held);
    make_calls(d, out, &mut &mut file, calls);
    file.into_inner()
}

fn by_standard(d: &mut Decoder, out: &mut Text, held: Vec<u8>, calls: &[Value]) -> Vec<u8> {
    let mut file = Watched::new(Cursor::new(held));
    make_calls(d, out, &mut file, calls);
    file.into_inner().into_inner()
}

fn by_vector(d: &mut Decoder, out: &mut Text, mut held: Vec<u8>, calls: &[Value]) -> Vec<u8> {
    for call in calls {
        out.comma();
        write_or_flush(d, out, &mut held, call);
    }
    held
}

fn make_calls<D: Reads + Writes + Seeks>(
    d: &mut Decoder,
    out: &mut Text,
    device: &mut D,
    calls: &[Value],
) {
    for call in calls {
        out.comma();
        match call {
            Value::String(name) => make_plain_call(d, out, device, name.as_str(), call),
            _ => make_move(d, out, device, call),
        }
    }
}

// A call without parts.
fn make_plain_call<D: Reads + Writes + Seeks>(
    d: &mut Decoder,
    out: &mut Text,
    device: &mut D,
    name: &str,
    call: &Value,
) {
    match name {
        "end" => put_number(d, out, device.seek_end()),
        "position" => put_number(d, out, device.position()),
        "given" => out.show(&device.given()),
        "failures" => out.show(&device.failures()),
        _ => write_or_flush(d, out, device, call),
    }
}

fn put_number<T: Display + Drop>(d: &mut Decoder, out: &mut Text, answer: io::Result<T>) {
    if let Some(number) = d.take(answer) {
        out.show(&number);
    }
}

fn put_ok(d: &mut Decoder, out: &mut Text, answer: io::Result<()>) {
    if d.take(answer).is_some() {
        out.put("\"ok\"");
    }
}

// ---- calls that read or move

#[derive(Clone, Copy)]
enum Move {
    Seek,
    Skip,
    Pass,
    Read,
}

const MOVES: [(&str, Move); 4] = [
    ("seek", Move::Seek),
    ("skip", Move::Skip),
    ("pass", Move::Pass),
    ("read", Move::Read),
];

// A call that reads or moves, or else one that writes.
fn make_move<D: Reads + Writes + Seeks>(
    d: &mut Decoder,
    out: &mut Text,
    device: &mut D,
    call: &Value,
) {
    match move_of(d, call) {
        Some((Move::Seek, offset)) => put_ok(d, out, device.seek_to(offset as u64)),
        Some((Move::Skip, count)) => put_ok(d, out, device.skip(count)),
        Some((Move::Pass, count)) => put_passed(out, device.pass(count)),
        Some((Move::Read, count)) => read(d, out, device, count),
        None => write_or_flush(d, out, device, call),
    }
}

// A call that reads or moves, with its count or offset.
fn move_of(d: &mut Decoder, call: &Value) -> Option<(Move, usize)> {
    for (name, meant) in &MOVES {
        if let Some(count) = call.get(*name) {
            return Some((*meant, d.count(Some(count), *name)));
        }
    }
    None
}

fn put_passed(out: &mut Text, passed: Option<&[u8]>) {
    match passed {
        Some(bytes) => out.hex(bytes),
        None => out.put("null"),
    }
}

// The most bytes that a call reads.
const MOST: usize = 1 << 20;

fn read<R: Reads>(d: &mut Decoder, out: &mut Text, device: &mut R, count: usize) {
    let read = read_bytes(d.alloc(), device, count.min(MOST));
    if let Some(bytes) = d.take(read) {
        out.hex(&bytes);
    }
}

// ---- calls that write

fn write_or_flush<W: Writes>(d: &mut Decoder, out: &mut Text, device: &mut W, call: &Value) {
    if let Some(written) = call.get("write") {
        return write(d, out, device, written);
    }
    match call.as_str() {
        Some("flush") => put_ok(d, out, Writes::flush(device)),
        _ => d.miss("calls"),
    }
}

fn write<W: Writes>(d: &mut Decoder, out: &mut Text, device: &mut W, written: &Value) {
    let written = bytes(d, written);
    put_number(d, out, device.write(&written));
}
