//! The programs `ipcat` and `ipconvert`, run in memory.

use cases_notation::decoder::Decoder;
use ipc_devices::{MemFile, Reads, Seeks, Writes};
use ipc_programs::{cat, convert};
use serde_json::Value;
use std::alloc::Global;

/// The programs.
#[derive(Clone, Copy)]
pub enum Program {
    Ipcat,
    Ipconvert,
}

/// The result of a run.
#[derive(Drop)]
pub struct Run {
    pub status: u8,
    pub out: Vec<u8>,
    pub err: Vec<u8>,
}

/// Runs a program with these words on an input.
pub fn run_of(alloc: Global, program: Program, words: &[String], input: &[u8]) -> Run {
    run_with(alloc, program, words, input, None::<MemFile<Vec<u8>>>)
}

/// Runs it where this file is at the path that the words name.
pub fn run_beside(
    alloc: Global,
    program: Program,
    words: &[String],
    input: &[u8],
    file: &mut MemFile<Vec<u8>>,
) -> Run {
    run_with(alloc, program, words, input, Some(file))
}

fn run_with<F: Reads + Writes + Seeks + Drop>(
    alloc: Global,
    program: Program,
    words: &[String],
    input: &[u8],
    file: Option<F>,
) -> Run {
    let mut out = Vec::new(alloc);
    let mut err = Vec::new(alloc);
    let mut input = MemFile::new(input);
    let status = match program {
        Program::Ipcat => cat::run(alloc, words, &mut input, file, &mut out, &mut err),
        Program::Ipconvert => {
            let (file, append_to) = match convert::place_of(words) {
                Some(place) if place.is_written => (None, file),
                _ => (file, None),
            };
            convert::run(
                alloc, words, &mut input, file, append_to, &mut out, &mut err,
            )
        }
    };
    Run { status, out, err }
}

/// The words of a case.
pub fn words_of(d: &mut Decoder, value: &Value) -> Vec<String> {
    let mut words = d.list();
    for word in d.items(value.get("words"), "words") {
        let word = d.string(Some(word), "words");
        d.push(&mut words, word);
    }
    words
}

/// One word or several, as the words of a run.
pub fn words(d: &mut Decoder, texts: &[&str]) -> Vec<String> {
    let mut words = d.list();
    for text in texts {
        let word = d.owned(*text);
        d.push(&mut words, word);
    }
    words
}
