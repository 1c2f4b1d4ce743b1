//! Runs `ipcat` and `ipconvert` in turn, as their mains do, and prints each run's status.
//!
//! They run on the file `numbers.arrow` and on standard input. The arguments of each run are
//! printed too.
#![tactic(auto)]

use ipc_programs::{cat, convert};
use std::alloc::{AllocError, Global};
use std::io;
use std::rt::Files;

#[derive(Clone, Copy)]
enum Program {
    Ipcat,
    Ipconvert,
}

// The runs, each with its arguments. Standard input has a schema message, which the third run
// reads, then a stream, and then a stream that is cut inside its second chunk.
const RUNS: [(Program, &str); 9] = [
    (Program::Ipcat, "file numbers.arrow"),
    (Program::Ipcat, "file nosuch.arrow"),
    (Program::Ipcat, "stream 0,0"),
    (Program::Ipconvert, "numbers.arrow stream"),
    (Program::Ipcat, "file numbers.arrow"),
    (Program::Ipconvert, "append numbers.arrow"),
    (Program::Ipcat, "file numbers.arrow"),
    (Program::Ipconvert, "append numbers.arrow"),
    (Program::Ipcat, "file numbers.arrow"),
];

fn words_in(alloc: Global, line: &str) -> Result<Vec<String>, AllocError> {
    let mut words = Vec::new(alloc);
    for word in line.split(' ') {
        words.push(word.to_string(alloc)?)?;
    }
    Ok(words)
}

// Runs a program with the arguments in a line, and returns its exit status.
fn run<R: Files + Input + Print + Eprint + AllocGlobal>(
    rt: &R,
    program: Program,
    line: &str,
) -> Result<u8, AllocError> {
    let words = words_in(rt.alloc(), line)?;
    match program {
        Program::Ipcat => Ok(cat::start(rt, Ok(words))),
        Program::Ipconvert => Ok(convert::start(rt, Ok(words))),
    }
}

fn name_of(program: Program) -> &'static str {
    match program {
        Program::Ipcat => "ipcat",
        Program::Ipconvert => "ipconvert",
    }
}

fn main(rt: HostRuntime) -> io::Result<()> {
    for (program, line) in RUNS {
        let name = name_of(program);
        println!(rt; "{name} {line}")?;
        let status = run(&rt, program, line)?;
        println!(rt; "status {status}")?;
    }
    Ok(())
}
