//! `ipconvert`: copies Arrow IPC streams and files, and appends streams to files.
ghost use Rattle.std.specs.Prelude.{◌≡◌, ◌⊎◌, ◌≤◌, codes, map, option_and_then, option_map, string_bytes, false, true, None, Some, Ok, Err, IfErr, IfOk, IfSome, IsTrue, OnOk};
ghost use Rattle.ipc_devices.specs.Faults.{IsIo, OwnFault};
ghost use Rattle.ipc_convert.specs.Chunks.{NoneFailed};
ghost use Rattle.ipc_convert.specs.Copies.{TakesStream};
ghost use Rattle.ipc_programs.specs.Api.{ConvertCause, ConvertState, RunsConvert};
ghost use Rattle.ipc_programs.specs.Lines.{Told};
ghost use Rattle.ipc_programs.specs.Refusals.{AskedCause};
ghost use Rattle.ipc_programs.specs.ConvertWords.{IsMissing, IsOpened, asked, wanted_by, place_for, reads_input, writes_output};
ghost use Rattle.ipc_programs.specs.Written.{Appended, CopiesAsAsked};

mod copies;
mod entry;
mod forms;

use crate::class::tell;
use arrow2_ipc::io::ipc::fault::{Failures, Fault, Reads, Seeks, Writes};
use copies::{append_input, copy_file, copy_input};
pub use entry::start;
pub use forms::Place;
use forms::{Form, Source, form_of, place_in};
use ipc_write::common_sync::write_all;
use std::alloc::Global;
use std::io;
use std::io::ErrorKind;

const USAGE: &str = "usage: ipconvert FROM TO [ORDER] | ipconvert append PATH\n";

/// The file that the arguments name, to read from or to append to.
///
/// None if there is none or they are wrong.
pub fn place_of(words: &[String]) -> Option<Place<'_>>
    ensures { option_map (λ place. (place.path.now, place.is_written)) result
        ≡ option_and_then place_for (asked (map string_bytes words.now)) }
{
    place_in(form_of(words)?)
}

/// Runs `ipconvert` with these arguments, and returns the exit status.
///
/// `FROM TO [ORDER]` copies. `FROM` is `-`, for the stream `input`, or the path of a file. `TO` is
/// `stream` or `file`, written to `out`. `ORDER` is the byte order of what is written, `little`
/// (the default) or `big`.
///
/// `append PATH` appends the chunks of the stream `input` to the file at that path, which keeps its
/// byte order. `out` isn't used.
///
/// - `file`: the file at the path, if it is read; `append_to`: if it is appended to (see
///   [`place_of`]). It is None if it can't be opened, which is an error if the arguments need it.
/// - `err`: for the usage or the class of an error; a failed write to it is ignored.
///
/// The status is
///
/// - 0: all was written and flushed, also of a stream that waits for more. No call of `input` or
///   `out` failed, nor of a file that was appended to. Nothing after the end mark was read from
///   `input`.
/// - 1: an error, whose class was written to `err`. A class other than `no memory` and
///   `input or output failed` names a condition that is true. It is one of what `input` gave, of
///   `file` or `append_to` if that is in memory, or of what can't be written of them.
/// - 2: wrong arguments, which are checked before anything is read. The usage was written to `err`.
///
/// A stream that waits is copied as a stream that waits, or as a whole file. An error before the
/// schema is sent leaves `out`, or the file that is appended to, as it was. After a later error a
/// copied stream has no end mark. A file is finished with the chunks that were written, if its
/// device takes the footer and there is memory for it. `out` is flushed after a copy, also after an
/// error.
pub fn run<
    R: Reads,
    F: Reads + Seeks + Drop,
    A: Reads + Writes + Seeks + Drop,
    O: Writes,
    E: Writes,
>(
    alloc: Global,
    words: &[String],
    input: &mut R,
    file: Option<F>,
    append_to: Option<A>,
    out: &mut O,
    err: &mut E,
) -> u8
    ensures status { result ≤ 2 }
    ensures exact { result ≡ 0 → RunsConvert R.gives R.device F.device A.device O.device
        (asked (map string_bytes words.now)) input.old input.new file append_to
        out.old out.new err.old err.new }
    ensures causes { ConvertCause R.gives R.device F.device A.device O.device E.device
        (asked (map string_bytes words.now)) input.old file append_to out.old result
        err.old err.new USAGE.now }
    ensures unopened_told { IfSome (option_and_then place_for (asked (map string_bytes words.now)))
        (λ place. IsMissing place.1 file append_to → Told E.device err.old err.new
        (codes "ipconvert: input or output failed\n")) }
    ensures state { ConvertState (asked (map string_bytes words.now)) file append_to
        input.old input.new out.old out.new }
{
    let Some(form) = form_of(words) else {
        let _ = write_all(err, USAGE.as_bytes());
        return 2;
    };
    match run_form(alloc, form, input, file, append_to, out) {
        Ok(()) => 0,
        Err(fault) => {
            let _ = tell(err, "ipconvert", &fault);
            1
        }
    }
}

fn run_form<R: Reads, F: Reads + Seeks + Drop, A: Reads + Writes + Seeks + Drop, O: Writes>(
    alloc: Global,
    form: Form<'_>,
    input: &mut R,
    file: Option<F>,
    append_to: Option<A>,
    out: &mut O,
) -> Result<(), Fault>
    ensures unopened { IfSome (place_for (wanted_by form.entry))
        (λ place. IfOk result (λ _. IsOpened place.1 file append_to)) }
    ensures missing { IfSome (place_for (wanted_by form.entry))
        (λ place. IsMissing place.1 file append_to → IfErr result IsIo) }
    ensures spared { IfSome (place_for (wanted_by form.entry)) (λ place.
        IsMissing place.1 file append_to → (input.new ≡ input.old) × (out.new ≡ out.old)) }
    ensures unread { reads_input (wanted_by form.entry) ≡ false → input.new ≡ input.old }
    ensures unwritten { writes_output (wanted_by form.entry) ≡ false → out.new ≡ out.old }
    ensures flushed { writes_output (wanted_by form.entry) ≡ true
        → OnOk result (IsTrue (O.device.is_flushed out.new)) }
    ensures taken { reads_input (wanted_by form.entry) ≡ true → OnOk result (TakesStream R.gives input.old input.new) }
    ensures copied { IsTrue O.device.is_memory → OnOk result
        (CopiesAsAsked R.gives F.device (wanted_by form.entry) input.old
        input.new file (O.device.memory out.old) (O.device.memory out.new)) }
    ensures appended { OnOk result (Appended R.gives A.device
        (wanted_by form.entry) input.old input.new append_to) }
    ensures done { OnOk result
        (NoneFailed R.device.failures O.device.failures input.old out.old input.new out.new) }
    ensures refused { IfErr result (λ e. OwnFault e
        (AskedCause R.gives R.device F.device A.device O.device
        (wanted_by form.entry) input.old file append_to out.old e)) }
{
    match form {
        Form::Convert(Source::Input, target, write_options) => {
            drop(file);
            drop(append_to);
            let failures = out.failures();
            let copied = copy_input(alloc, input, &mut *out, target, write_options);
            flushed(copied, out, failures)
        }
        Form::Convert(Source::File(_), target, write_options) => {
            drop(append_to);
            let failures = out.failures();
            let copied = copy_file(alloc, opened(file)?, &mut *out, target, write_options);
            flushed(copied, out, failures)
        }
        Form::Append(_) => {
            drop(file);
            append_input(alloc, opened(append_to)?, input)?;
            Ok(())
        }
    }
}

// The file at a path, or an `Io` error if it couldn't be opened.
pub(crate) fn opened<F>(file: Option<F>) -> Result<F, Fault>
    ensures there { IfOk result (λ device. file ≡ Some device) }
    ensures missing { IfErr result IsIo }
{
    match file {
        Some(file) => Ok(file),
        None => Err(Fault::Io(io::Error::from(ErrorKind::NotFound))),
    }
}

// The result of a copy, after a flush. The contract of the copy doesn't say whether a call of `out`
// failed: so `out` is asked for failures.
fn flushed<O: Writes>(
    copied: Result<(), Fault>,
    out: &mut O,
    failures_before: u64,
) -> Result<(), Fault>
    ensures same { IfOk result (λ done. copied ≡ Ok done) }
    ensures done { OnOk result (O.device.failures out.new ≡ failures_before) }
    ensures flushed { OnOk result (IsTrue (O.device.is_flushed out.new)) }
    ensures memory { IsTrue O.device.is_memory
        → O.device.memory out.new ≡ O.device.memory out.old }
    ensures fault { IfErr result (λ e. (copied ≡ Err e) ⊎ IsIo e) }
{
    let sent = out.flush();
    copied?;
    sent?;
    if out.failures() != failures_before {
        return Err(Fault::Io(io::Error::from(ErrorKind::Other)));
    }
    Ok(())
}
