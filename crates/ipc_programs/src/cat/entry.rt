//! Runs `ipcat` in a process.
ghost use Rattle.std.specs.Prelude.{◌≡◌, ◌≤◌, map, string_bytes, IfOk, None};
ghost use Rattle.ipc_programs.specs.CatWords.{asked};

use crate::cat::{path_of, run};
use crate::class::tell;
use crate::process::{ErrorOutput, known_words};
use arrow2_ipc::io::ipc::fault::Watched;
use std::fs::File;
use std::io;
use std::rt::Files;

/// Runs `ipcat` in a process, and returns the exit status.
///
/// It is [`run`] with the files of the system and standard input, output and error. The status is 1
/// if the arguments can't be allocated, and 2 if one of them isn't UTF-8.
pub fn start<R: Files + Input + Print + Eprint + AllocGlobal>(
    rt: &R,
    words: io::Result<Vec<String>>,
) -> u8
    ensures status { result ≤ 2 }
    ensures usage { IfOk words (λ known.
        asked (map string_bytes known.items) ≡ None → result ≡ 2) }
{
    let mut err = Watched::new(ErrorOutput::new(rt));
    let words = match known_words(rt.alloc(), words) {
        Ok(words) => words,
        Err(fault) => {
            let _ = tell(&mut err, "ipcat", &fault);
            return 1;
        }
    };
    let file = match path_of(&words) {
        Some(path) => File::open(rt, path).ok().map(Watched::new),
        None => None,
    };
    let mut input = Watched::new(rt.reader());
    let mut out = Watched::new(io::writer(rt));
    run(rt.alloc(), &words, &mut input, file, &mut out, &mut err)
}
