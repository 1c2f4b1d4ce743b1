//! The arguments and the standard error of a process.
ghost use Rattle.std.specs.Prelude.{◌≡◌, IfErr, IfOk, Ok};
ghost use Rattle.ipc_devices.specs.Faults.{OwnFault};

use arrow2_ipc::io::ipc::fault::Fault;
use std::alloc::Global;
use std::io::ErrorKind;
use std::rt::Env;
use std::{env, io, str};

/// The arguments of the process, without the name of the program.
///
/// `InvalidData` if one of them isn't UTF-8, `OutOfMemory` if they can't be allocated.
pub fn words_of<R: Env + AllocGlobal>(rt: &R) -> io::Result<Vec<String>> {
    let mut words = env::args(rt)?;
    let _program = words.next();
    let words: Vec<String> = words.collect(rt.alloc())?;
    Ok(words)
}

/// The arguments of a call; none, which is wrong, if one isn't UTF-8.
///
/// `Memory` if they can't be allocated.
pub(crate) fn known_words(
    alloc: Global,
    words: io::Result<Vec<String>>,
) -> Result<Vec<String>, Fault>
    ensures given { IfOk words (λ known. result ≡ Ok known) }
    ensures only { IfErr result (λ e. OwnFault e ⊥) }
{
    match words {
        Ok(words) => Ok(words),
        Err(error) if error.kind() == ErrorKind::InvalidData => Ok(Vec::new(alloc)),
        Err(error) if error.kind() == ErrorKind::OutOfMemory => Err(Fault::Memory),
        Err(error) => Err(Fault::Io(error)),
    }
}

/// The standard error of a process, to which text is written.
#[derive(Drop)]
pub(crate) struct ErrorOutput<'a, R> {
    rt: &'a R,
}

impl<'a, R> ErrorOutput<'a, R> {
    /// The standard error of this process.
    pub(crate) fn new(rt: &'a R) -> ErrorOutput<'a, R> {
        ErrorOutput { rt }
    }
}

impl<R: Eprint> io::Write for ErrorOutput<'_, R> {
    fn write(&mut self, buf: &[u8]) -> io::Result<usize> {
        let Ok(text) = str::from_utf8(buf) else {
            return Err(io::Error::from(ErrorKind::InvalidData));
        };
        self.rt.eprint(text)?;
        Ok(buf.len())
    }

    fn flush(&mut self) -> io::Result<()> {
        Ok(())
    }
}
