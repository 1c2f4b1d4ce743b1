//! Runs of `ipconvert`.
//!
//! A run is `{"words": [WORD, ..], "input": STREAM, "path": FILE}`: the arguments, the stream at
//! its input, if there is one, and the file at the path in the arguments. Its output is what it
//! writes; with the first argument `append` that is the file at the path.
//!
//! What a run writes can be part of a case. It is the stream
//! `{"converted": STREAM, "words": [WORD, ..]}` or the file `{"converted": RUN, ..}`.

use crate::programs::{Program, Run, run_beside, run_of, words_of};
use cases_files::files::file;
use cases_notation::decoder::Decoder;
use cases_streams::written::stream;
use ipc_devices::MemFile;
use serde_json::Value;

/// A run of `ipconvert`, and what it has written.
#[derive(Drop)]
pub struct Conversion {
    pub run: Run,
    pub written: Vec<u8>,
    pub is_file: bool,
}

/// Runs `ipconvert`.
pub fn converted(d: &mut Decoder, value: &Value) -> Conversion {
    let words = words_of(d, value);
    let input = match value.get("input") {
        Some(input) => stream(d, input),
        None => d.list(),
    };
    match value.get("path") {
        Some(path) => converted_beside(d, &words, &input, path),
        None => {
            let run = run_of(d.alloc(), Program::Ipconvert, &words, &input);
            conversion_of(d, run, &words)
        }
    }
}

// The same with a file at the path that the words name.
fn converted_beside(d: &mut Decoder, words: &[String], input: &[u8], path: &Value) -> Conversion {
    let mut place = MemFile::new(file(d, path));
    let run = run_beside(d.alloc(), Program::Ipconvert, words, input, &mut place);
    if !is_append(words) {
        return conversion_of(d, run, words);
    }
    Conversion {
        run,
        written: place.into_inner(),
        is_file: true,
    }
}

// One that writes to its output.
fn conversion_of(d: &mut Decoder, run: Run, words: &[String]) -> Conversion {
    let mut written = d.list();
    d.extend(&mut written, &run.out);
    Conversion {
        run,
        written,
        is_file: is_to_file(words),
    }
}

fn is_append(words: &[String]) -> bool {
    match words {
        [first, ..] => first.as_str() == "append",
        [] => false,
    }
}

fn is_to_file(words: &[String]) -> bool {
    match words {
        [_, to, ..] => to.as_str() == "file",
        _ => false,
    }
}

/// Replaces each `"converted"` part of a case by what `ipconvert` writes, as hex digits.
pub fn put_converted(d: &mut Decoder, case: &mut Value) {
    if let Value::Object(members) = case {
        for parts in members.values_mut() {
            put_converted_parts(d, parts);
        }
    }
}

// Those of the parts of a call: of the parts themselves, or of the items of their list.
fn put_converted_parts(d: &mut Decoder, parts: &mut Value) {
    match parts {
        Value::Array(items) => {
            for item in items {
                put_converted_part(d, item);
            }
        }
        _ => put_converted_part(d, parts),
    }
}

fn put_converted_part(d: &mut Decoder, part: &mut Value) {
    if part.get("converted").is_none() {
        return;
    }
    if part.get("words").is_some() {
        let written = converted_stream(d, part);
        *part = hex_of(d, &written);
    } else {
        put_converted_file(d, part);
    }
}

// A file's bytes, to which the changes beside them are made.
fn put_converted_file(d: &mut Decoder, part: &mut Value) {
    let conversion = d.member(part, "converted");
    let written = converted(d, conversion).written;
    let digits = hex_of(d, &written);
    let Value::Object(members) = part else {
        return d.miss("converted");
    };
    let name = d.owned("bytes");
    let inserted = members.insert(name, digits);
    let _ = d.take(inserted);
}

/// What `ipconvert` writes of the stream `"converted"`, with the words beside it.
pub fn converted_stream(d: &mut Decoder, value: &Value) -> Vec<u8> {
    let words = words_of(d, value);
    let input = d.member(value, "converted");
    let input = stream(d, input);
    run_of(d.alloc(), Program::Ipconvert, &words, &input).out
}

fn hex_of(d: &mut Decoder, bytes: &[u8]) -> Value {
    let digits = hex::encode(d.alloc(), bytes);
    match d.take(digits) {
        Some(digits) => Value::String(digits),
        None => Value::Null,
    }
}
