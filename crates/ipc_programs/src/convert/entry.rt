//! Runs `ipconvert` in a process.
ghost use Rattle.std.specs.Prelude.{◌≡◌, ◌≤◌, map, string_bytes, IfOk, None};
ghost use Rattle.ipc_programs.specs.ConvertWords.{asked};

use crate::class::tell;
use crate::convert::{Place, place_of, run};
use crate::process::{ErrorOutput, known_words};
use arrow2_ipc::io::ipc::fault::Watched;
use std::fs::OpenOptions;
use std::io;
use std::rt::Files;

/// Runs `ipconvert` in a process, and returns the exit status.
///
/// It is [`run`] with the files of the system and standard input, output and error. The status is 1
/// if the arguments can't be allocated, and 2 if one of them isn't UTF-8. A file that is only read
/// is opened for reading alone.
pub fn start<R: Files + Input + Print + Eprint + AllocGlobal>(
    rt: &R,
    words: io::Result<Vec<String>>,
) -> u8
    ensures status { result ≤ 2 }
    ensures usage { IfOk words (λ known.
        asked (map string_bytes known.items) ≡ None → result ≡ 2) }
{
    let mut err = Watched::new(ErrorOutput::new(rt));
    let words = match known_words(rt.alloc(), words) {
        Ok(words) => words,
        Err(fault) => {
            let _ = tell(&mut err, "ipconvert", &fault);
            return 1;
        }
    };
    let (file, append_to) = match place_of(&words) {
        Some(place) if place.is_written => (None, open(rt, place)),
        Some(place) => (open(rt, place), None),
        None => (None, None),
    };
    let mut input = Watched::new(rt.reader());
    let mut out = Watched::new(io::writer(rt));
    run(
        rt.alloc(),
        &words,
        &mut input,
        file,
        append_to,
        &mut out,
        &mut err,
    )
}

// Opens a file, for writing only if it is written to.
fn open<R: Files>(rt: &R, place: Place<'_>) -> Option<Watched<R::File>> {
    let mut options = OpenOptions::new();
    options.read(true).write(place.is_written);
    options.open(rt, place.path).ok().map(Watched::new)
}
