//! `ipcat`: writes an example as an Arrow IPC stream, and prints streams and files.
ghost use Rattle.std.specs.Prelude.{◌≡◌, ◌⊎◌, ◌≤◌, codes, map, option_and_then, option_map, string_bytes, false, None, Ok, Err, IfErr, IfOk, IfSome, IsSome, OnOk};
ghost use Rattle.ipc_devices.specs.Faults.{IsIo, OwnFault};
ghost use Rattle.ipc_programs.specs.Api.{CatCause, CatState, RunsCat};
ghost use Rattle.ipc_programs.specs.Lines.{Told};
ghost use Rattle.ipc_programs.specs.Printing.{Printed, Prints, PrintsAll};
ghost use Rattle.ipc_programs.specs.CatRefusals.{AsksForOthers, FileHasOthers, ShowFileCause, ShowCause};
ghost use Rattle.ipc_programs.specs.CatWords.{HasNumbers, NamesNumbers, asked, columns_by, wanted_by, opened_for, reads_input};
ghost use Rattle.ipc_programs.specs.Shown.{ReadsFile, Shows};
ghost use Rattle.ipc_programs.specs.declared.cat.show.Outcome.TheVariants.{Done, WrongWords};

mod chosen;
mod demo;
mod entry;
mod file;
mod forms;
mod output;
mod printer;
mod show;
mod slots;

use crate::class::tell;
use crate::convert::opened;
use arrow2_ipc::io::ipc::fault::{Fault, Reads, Seeks, Writes};
use demo::put_demo;
pub use entry::start;
use file::show_file;
use forms::{FileWords, Form, form_of};
use ipc_write::common_sync::write_all;
use printer::Printer;
use show::{Outcome, show_stream};
use std::alloc::Global;

const USAGE: &str = "usage: ipcat demo | ipcat stream [COLS] | ipcat file PATH [COLS [LIMIT]]\n";

/// The path that the arguments name; None if there is none or they are wrong.
pub fn path_of(words: &[String]) -> Option<&str>
    ensures { option_map (λ path. path.now) result
        ≡ option_and_then opened_for (asked (map string_bytes words.now)) }
{
    match form_of(words)? {
        Form::File(file) => Some(file.path),
        Form::Demo | Form::Stream(_) => None,
    }
}

/// Runs `ipcat` with these arguments, and returns the exit status.
///
/// - `input`: the stream for the form `stream`.
/// - `file`: the file at the path that the arguments name (see [`path_of`]), or None if it can't be
///   opened. None is an error if the arguments need it.
/// - `out`: for what is printed. `err`: for the usage or the class of an error; a failed write to
///   it is ignored.
///
/// The status is
///
/// - 0: all was printed to `out`, after what was there, and flushed. No call of `out` failed. What
///   was read is valid.
/// - 1: an error, whose class was written to `err`. A class other than `no memory` and
///   `input or output failed` names a condition that is true of what `input` gave, or of `file` if
///   it is in memory. It is read by the columns and up to the limit in the arguments.
/// - 2: wrong arguments, or column positions that repeat or aren't in the schema. The usage was
///   written to `err`. Positions are checked after the schema is read, and before anything is
///   printed. That order is tested by cases: no contract states what is printed.
pub fn run<R: Reads, F: Reads + Seeks + Drop, O: Writes, E: Writes>(
    alloc: Global,
    words: &[String],
    input: &mut R,
    file: Option<F>,
    out: &mut O,
    err: &mut E,
) -> u8
    ensures status { result ≤ 2 }
    ensures exact { result ≡ 0 → RunsCat R.gives F.device O.device
        (asked (map string_bytes words.now)) input.old file out.old out.new err.old err.new }
    ensures causes { CatCause R.gives R.device F.device E.device
        (asked (map string_bytes words.now)) input.old file result err.old err.new USAGE.now }
    ensures unopened_told { IfSome (option_and_then opened_for (asked (map string_bytes words.now)))
        (λ path. file ≡ None → Told E.device err.old err.new
        (codes "ipcat: input or output failed\n")) }
    ensures state { CatState (asked (map string_bytes words.now))
        input.old input.new out.old out.new }
{
    let outcome = match form_of(words) {
        Some(form) => run_form(alloc, form, input, file, out),
        None => Ok(Outcome::WrongWords),
    };
    match outcome {
        Ok(Outcome::Done) => 0,
        Ok(Outcome::WrongWords) => {
            let _ = write_all(err, USAGE.as_bytes());
            2
        }
        Err(fault) => {
            let _ = tell(err, "ipcat", &fault);
            1
        }
    }
}

fn run_form<R: Reads, F: Reads + Seeks + Drop, O: Writes>(
    alloc: Global,
    form: Form<'_>,
    input: &mut R,
    file: Option<F>,
    out: &mut O,
) -> Result<Outcome, Fault>
    requires { HasNumbers form }
    ensures unopened { IfSome (opened_for (wanted_by form.entry)) (λ path. IfOk result (λ _. IsSome file)) }
    ensures missing { IfSome (opened_for (wanted_by form.entry)) (λ path. file ≡ None → IfErr result IsIo) }
    ensures shown { IfOk result (λ outcome. outcome ≡ Done
        → Shows R.gives F.device (wanted_by form.entry) input.old file) }
    ensures wrong { IfOk result (λ outcome. outcome ≡ WrongWords
        → AsksForOthers R.gives R.device F.device (wanted_by form.entry) input.old file) }
    ensures unread { reads_input (wanted_by form.entry) ≡ false → input.new ≡ input.old }
    ensures refused { IfErr result (λ e. OwnFault e (ShowCause R.gives R.device F.device
        (wanted_by form.entry) input.old file e)) }
    ensures printed { OnOk result (Printed O.device out.old out.new) }
{
    let mut printer = Printer::new(alloc, out);
    let outcome = print_form(alloc, form, input, file, &mut printer);
    printer.into_inner();
    outcome
}

// Prints what a form needs.
fn print_form<R: Reads, F: Reads + Seeks + Drop, O: Writes>(
    alloc: Global,
    form: Form<'_>,
    input: &mut R,
    file: Option<F>,
    printer: &mut Printer<O>,
) -> Result<Outcome, Fault>
    requires { HasNumbers form }
    ensures unopened { IfSome (opened_for (wanted_by form.entry))
        (λ path. IfOk result (λ _. IsSome file)) }
    ensures missing { IfSome (opened_for (wanted_by form.entry))
        (λ path. file ≡ None → IfErr result IsIo) }
    ensures shown { IfOk result (λ outcome. outcome ≡ Done
        → Shows R.gives F.device (wanted_by form.entry) input.old file) }
    ensures wrong { IfOk result (λ outcome. outcome ≡ WrongWords
        → AsksForOthers R.gives R.device F.device (wanted_by form.entry) input.old file) }
    ensures unread { reads_input (wanted_by form.entry) ≡ false → input.new ≡ input.old }
    ensures refused { IfErr result (λ e. OwnFault e (ShowCause R.gives R.device F.device
        (wanted_by form.entry) input.old file e)) }
    ensures prints { OnOk result (PrintsAll O.device printer.old printer.new) }
{
    match form {
        Form::Demo => {
            let shown = show_demo(alloc, printer);
            sent(shown, printer)
        }
        Form::Stream(columns) => {
            let shown = show_stream(alloc, input, columns, printer);
            sent(shown, printer)
        }
        Form::File(words) => {
            let shown = show_opened(alloc, file, words, printer);
            sent(shown, printer)
        }
    }
}

fn show_demo<O: Writes>(alloc: Global, printer: &mut Printer<O>) -> Result<Outcome, Fault>
    ensures done { IfOk result (λ outcome. outcome ≡ Done) }
    ensures only { IfErr result (λ e. OwnFault e ⊥) }
    ensures prints { OnOk result (Prints O.device printer.old printer.new) }
{
    put_demo(alloc, printer)?;
    Ok(Outcome::Done)
}

// The outcome of a form, after all that it printed was sent.
fn sent<O: Writes>(
    shown: Result<Outcome, Fault>,
    printer: &mut Printer<O>,
) -> Result<Outcome, Fault>
    ensures same { IfOk result (λ outcome. shown ≡ Ok outcome) }
    ensures first { IfErr shown (λ fault. result ≡ Err fault) }
    ensures fault { IfErr result (λ e. (shown ≡ Err e) ⊎ OwnFault e ⊥) }
    ensures all { OnOk result (PrintsAll O.device printer.old printer.new) }
{
    let sent = printer.send();
    let outcome = shown?;
    sent?;
    Ok(outcome)
}

fn show_opened<F: Reads + Seeks + Drop, O: Writes>(
    alloc: Global,
    file: Option<F>,
    words: FileWords<'_>,
    printer: &mut Printer<O>,
) -> Result<Outcome, Fault>
    requires { NamesNumbers words.columns }
    ensures opened { IfOk result (λ _. IsSome file) }
    ensures missing { file ≡ None → IfErr result IsIo }
    ensures shown { IfSome file (λ device. IfOk result (λ outcome. outcome ≡ Done
        → ReadsFile F.device device (columns_by words.entry.columns) words.entry.limit)) }
    ensures wrong { IfSome file (λ device. IfOk result (λ outcome. outcome ≡ WrongWords
        → FileHasOthers F.device device (columns_by words.entry.columns))) }
    ensures refused { IfSome file (λ device. IfErr result (λ e. OwnFault e
        (ShowFileCause F.device device (columns_by words.entry.columns) words.entry.limit e))) }
    ensures prints { OnOk result (Prints O.device printer.old printer.new) }
{
    show_file(alloc, opened(file)?, words, printer)
}
