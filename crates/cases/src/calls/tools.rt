//! The calls of the programs.
//!
//! - `"ipcat": {"words": [WORD, ..], "input": STREAM}` runs ipcat in memory, and gives its status
//!   and what it prints. The words are its arguments. The input `{"demo": true}` is the stream that
//!   `ipcat demo` writes. Output that isn't UTF-8 is given by its length. With `"path": FILE` that
//!   file is at the path in the arguments.
//! - `"ipconvert"` of the same parts runs ipconvert. It gives its status, its standard error, and
//!   what `ipcat stream` prints of its output, or null if that is empty.
//! - `"ipcat_cut"` of the same parts runs ipcat on each prefix of the input. It gives how many
//!   there are, the lengths of those on which it waits, how many end too soon, and the lengths of
//!   those with any other result.
//! - `"ipcat_damaged"` sets each byte of the input in turn to a `"byte"`. It gives how many runs
//!   print the input or refuse it by one of the `"classes"`, and the offsets of the bytes with any
//!   other result.

use crate::programs::{Program, Run, run_beside, run_of, words, words_of};
use cases_files::files::file;
use cases_notation::bytes::bytes;
use cases_notation::damages::{Damage, damaged};
use cases_notation::decoder::Decoder;
use cases_notation::text::Text;
use cases_streams::written::stream;
use ipc_devices::MemFile;
use serde_json::Value;
use std::alloc::Global;

// The input: empty where a case has none.
fn input_of(d: &mut Decoder, value: &Value) -> Vec<u8> {
    match value.get("input") {
        None => d.list(),
        Some(input) if input.get("demo").is_some() => demo(d),
        Some(input) => stream(d, input),
    }
}

fn demo(d: &mut Decoder) -> Vec<u8> {
    let words = words(d, &["demo"]);
    run_of(d.alloc(), Program::Ipcat, &words, &[]).out
}

/// The result of a run of ipcat.
pub fn ipcat(d: &mut Decoder, out: &mut Text, value: &Value) {
    let words = words_of(d, value);
    let input = input_of(d, value);
    let run = match value.get("path") {
        None => run_of(d.alloc(), Program::Ipcat, &words, &input),
        Some(path) => {
            let mut place = MemFile::new(file(d, path));
            run_beside(d.alloc(), Program::Ipcat, &words, &input, &mut place)
        }
    };
    out.put("{\"out\":");
    put_printed(out, &run.out);
    put_ending(out, &run);
}

/// The result of a run of ipconvert, and what ipcat prints of its output.
pub fn ipconvert(d: &mut Decoder, out: &mut Text, value: &Value) {
    let given = words_of(d, value);
    let input = input_of(d, value);
    let run = run_of(d.alloc(), Program::Ipconvert, &given, &input);
    out.put("{\"out\":");
    if run.out.is_empty() {
        out.put("null");
    } else {
        let stream = words(d, &["stream"]);
        put_printed(
            out,
            &run_of(d.alloc(), Program::Ipcat, &stream, &run.out).out,
        );
    }
    put_ending(out, &run);
}

fn put_ending(out: &mut Text, run: &Run) {
    out.put(",\"err\":");
    put_printed(out, &run.err);
    out.put(",\"status\":");
    out.show(&run.status);
    out.put("}");
}

// A text, or how many bytes there are where they aren't UTF-8.
fn put_printed(out: &mut Text, printed: &[u8]) {
    match str::from_utf8(printed) {
        Ok(text) => out.quoted(text),
        Err(_) => {
            out.put("{\"bytes\":");
            out.show(&printed.len());
            out.put("}");
        }
    }
}

// How a run ends on an input that was cut or damaged.
#[derive(Clone, Copy)]
enum Ending {
    Waiting,
    Ended,
    Answered,
    Other,
}

// How many runs ended in each way, or the offsets of the cuts and damages that did.
#[derive(Drop)]
struct Endings {
    ended: u64,
    answered: u64,
    other: Text,
    waiting: Text,
}

impl Endings {
    fn new(alloc: Global) -> Endings {
        let mut other = Text::new(alloc);
        other.put("[");
        let mut waiting = Text::new(alloc);
        waiting.put("[");
        Endings {
            ended: 0,
            answered: 0,
            other,
            waiting,
        }
    }

    fn add(&mut self, offset: usize, ending: Ending) {
        match ending {
            Ending::Ended => self.ended = self.ended.saturating_add(1),
            Ending::Answered => self.answered = self.answered.saturating_add(1),
            Ending::Other => put_offset(&mut self.other, offset),
            Ending::Waiting => put_offset(&mut self.waiting, offset),
        }
    }
}

fn put_offset(offsets: &mut Text, offset: usize) {
    offsets.comma();
    offsets.show(&offset);
}

/// How ipcat ends on each beginning of an input.
pub fn ipcat_cut(d: &mut Decoder, out: &mut Text, value: &Value) {
    let words = words_of(d, value);
    let input = input_of(d, value);
    let endings = endings_of_cuts(d.alloc(), &words, &input);
    out.put("{\"cuts\":");
    out.show(&input.len());
    out.put(",\"ended\":");
    out.show(&endings.ended);
    out.put(",\"other\":");
    out.finished(d, endings.other);
    out.put("],\"waiting\":");
    out.finished(d, endings.waiting);
    out.put("]}");
}

fn endings_of_cuts(alloc: Global, words: &[String], input: &[u8]) -> Endings {
    let whole = run_of(alloc, Program::Ipcat, words, input);
    let mut endings = Endings::new(alloc);
    for cut in 0..input.len() {
        let run = run_of(alloc, Program::Ipcat, words, &input[..cut]);
        endings.add(cut, ending_of_cut(&run, &whole));
    }
    endings
}

fn ending_of_cut(run: &Run, whole: &Run) -> Ending {
    let is_sound = run.status == 0 && run.err.is_empty();
    if is_sound && is_beginning(&run.out, "waiting\n", &whole.out) {
        return Ending::Waiting;
    }
    let is_ended = run.status == 1 && is_text(&run.err, "ipcat: input ended\n");
    if is_ended && whole.out.starts_with(&run.out) {
        return Ending::Ended;
    }
    Ending::Other
}

// Whether what is printed before this mark is a beginning of what the whole input prints.
fn is_beginning(printed: &[u8], mark: &str, whole: &[u8]) -> bool {
    match printed.strip_suffix(mark.as_bytes()) {
        Some(first) => whole.starts_with(first),
        None => false,
    }
}

fn is_text(printed: &[u8], text: &str) -> bool {
    printed == text.as_bytes()
}

/// How ipcat ends on an input in which one byte is another one.
pub fn ipcat_damaged(d: &mut Decoder, out: &mut Text, value: &Value) {
    let words = words_of(d, value);
    let input = input_of(d, value);
    let endings = endings_of_damages(d, &words, &input, value);
    out.put("{\"answered\":");
    out.show(&endings.answered);
    out.put(",\"other\":");
    out.finished(d, endings.other);
    out.put("]}");
}

fn endings_of_damages(d: &mut Decoder, words: &[String], input: &[u8], value: &Value) -> Endings {
    let byte = byte_of(d, value);
    let classes = d.items(value.get("classes"), "classes");
    let mut endings = Endings::new(d.alloc());
    for offset in 0..input.len() {
        let damaged = damaged(d, input, Damage::Set { offset, byte });
        let run = run_of(d.alloc(), Program::Ipcat, words, &damaged);
        endings.add(offset, ending_of_damage(&run, classes));
    }
    endings
}

fn byte_of(d: &mut Decoder, value: &Value) -> u8 {
    let byte = d.member(value, "byte");
    match bytes(d, byte).as_slice() {
        [byte] => *byte,
        _ => {
            d.miss("byte");
            0
        }
    }
}

// The input is printed, or refused by its class.
fn ending_of_damage(run: &Run, classes: &[Value]) -> Ending {
    match run.status {
        0 if run.err.is_empty() => Ending::Answered,
        1 if is_class(&run.err, classes) => Ending::Answered,
        _ => Ending::Other,
    }
}

// A line that names one of these classes.
fn is_class(line: &[u8], classes: &[Value]) -> bool {
    let Some(class) = line.strip_prefix(b"ipcat: ") else {
        return false;
    };
    let Some(class) = class.strip_suffix(b"\n") else {
        return false;
    };
    for known in classes {
        if let Value::String(name) = known {
            if name.as_bytes() == class {
                return true;
            }
        }
    }
    false
}
