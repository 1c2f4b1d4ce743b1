//! Prints a stream: its schema, and its chunks row by row.
ghost use Rattle.std.specs.Prelude.{◌≡◌, IfErr, IfOk, IfSome, None, OnOk};
ghost use Rattle.ipc_convert.specs.Sources.{NextOfStreamCause};
ghost use Rattle.ipc_devices.specs.Faults.{OwnFault};
ghost use Rattle.ipc_programs.specs.Printing.{Prints, PrintsAll};
ghost use Rattle.ipc_programs.specs.CatWords.{NamesNumbers, columns_by};
ghost use Rattle.ipc_programs.specs.CatRefusals.{OpensStream, ShowStreamCause, StreamHasOthers};
ghost use Rattle.ipc_programs.specs.Shown.{AllCame, GivesReadable, OneCame, StopsComing};
ghost use Rattle.ipc_programs.specs.declared.cat.show.Outcome.TheVariants.{Done, WrongWords};

use crate::cat::chosen::{Chosen, chosen_among};
use crate::cat::forms::Columns;
use crate::cat::printer::{Printer, put_number, put_text};
use crate::cat::slots::put_slot;
use arrow2_ipc::array::AnyArray;
use arrow2_ipc::chunk::Chunk;
use arrow2_ipc::datatypes::Field;
use arrow2_ipc::io::ipc::fault::{ArgFault, Fault, Reads, Writes};
use arrow2_ipc::io::ipc::read::{StreamReader, read_stream_metadata};
use ipc_convert::chunks::{Ending, Next, Source};
use std::alloc::Global;

/// The outcome of a form without an error.
#[derive(Clone, Copy, PartialEq, Eq)]
pub enum Outcome {
    Done,

    /// Column positions repeat, or aren't in the schema.
    WrongWords,
}

/// Prints the requested columns of a stream, until it ends or waits.
///
/// Its schema is read first, and then the column positions are checked. Other columns aren't read.
/// `Argument(TooLarge)` if `2^64 - 1` chunks came and no end.
pub fn show_stream<R: Reads + Drop, W: Writes>(
    alloc: Global,
    input: R,
    columns: Columns<'_>,
    printer: &mut Printer<W>,
) -> Result<Outcome, Fault>
    requires { NamesNumbers columns }
    ensures shown { IfOk result (λ outcome. outcome ≡ Done
        → GivesReadable R.gives input (columns_by columns.entry)) }
    ensures wrong { IfOk result (λ outcome. outcome ≡ WrongWords
        → StreamHasOthers R.gives R.device input (columns_by columns.entry)) }
    ensures refused { IfErr result (λ e. OwnFault e
        (ShowStreamCause R.gives R.device input (columns_by columns.entry) e)) }
    ensures prints { OnOk result (Prints W.device printer.old printer.new) }
{
    let Some(mut reader) = open_stream(alloc, input, columns)? else {
        return Ok(Outcome::WrongWords);
    };
    put_schema(printer, &reader.schema().fields)?;
    let ending = show_chunks(&mut reader, printer)?;
    put_ending(printer, ending)?;
    Ok(Outcome::Done)
}

// A reader of the requested columns, after the schema. None if a position isn't in the schema, or
// repeats.
fn open_stream<R: Reads + Drop>(
    alloc: Global,
    input: R,
    columns: Columns<'_>,
) -> Result<Option<StreamReader<R>>, Fault>
    requires { NamesNumbers columns }
    ensures wrong { IfOk result (λ reader. reader ≡ None
        → StreamHasOthers R.gives R.device input (columns_by columns.entry)) }
    ensures opens { IfOk result (λ reader. IfSome reader (OpensStream R.gives input (columns_by columns.entry))) }
    ensures refused { IfErr result (λ e. OwnFault e
        (ShowStreamCause R.gives R.device input (columns_by columns.entry) e)) }
{
    let mut input = input;
    let metadata = read_stream_metadata(alloc, &mut input)?;
    let count = metadata.schema.fields.len();
    let Chosen::Columns(projection) = chosen_among(alloc, columns, count)? else {
        return Ok(None);
    };
    let reader = StreamReader::new(alloc, input, metadata, projection)?;
    Ok(Some(reader))
}

// Prints each chunk before the next is read, and returns how they ended.
fn show_chunks<R: Reads + Drop, W: Writes>(
    reader: &mut StreamReader<R>,
    printer: &mut Printer<W>,
) -> Result<Ending, Fault>
    ensures came { IfOk result (λ ending. AllCame R.gives reader.old ending reader.new) }
    ensures stops { IfErr result (λ e. OwnFault e (StopsComing R.gives reader.old e)) }
    ensures prints { OnOk result (Prints W.device printer.old printer.new) }
{
    for _ in 0..u64::MAX {
        if let Some(ending) = show_chunk(reader, printer)? {
            return Ok(ending);
        }
    }
    Err(Fault::Argument(ArgFault::TooLarge))
}

// Prints the next chunk, or returns how the chunks ended.
fn show_chunk<R: Reads + Drop, W: Writes>(
    reader: &mut StreamReader<R>,
    printer: &mut Printer<W>,
) -> Result<Option<Ending>, Fault>
    ensures came { IfOk result (λ ending. OneCame R.gives reader.old ending reader.new) }
    ensures broken { IfErr result (λ e. OwnFault e (NextOfStreamCause R.gives reader.old e)) }
    ensures prints { OnOk result (Prints W.device printer.old printer.new) }
{
    match reader.next_chunk()? {
        Next::Chunk(chunk) => {
            send_chunk(printer, &chunk)?;
            Ok(None)
        }
        Next::End(ending) => Ok(Some(ending)),
    }
}

// Prints how the chunks ended.
fn put_ending<W: Writes>(printer: &mut Printer<W>, ending: Ending) -> Result<(), Fault>
    ensures only { IfErr result (λ e. OwnFault e ⊥) }
    ensures prints { OnOk result (Prints W.device printer.old printer.new) }
{
    match ending {
        Ending::Waits => printer.put(b"waiting\n"),
        Ending::Over => printer.put(b"end\n"),
    }
}

/// Prints a chunk row by row, and sends the buffer.
pub fn send_chunk<W: Writes>(printer: &mut Printer<W>, chunk: &Chunk<AnyArray>) -> Result<(), Fault>
    ensures only { IfErr result (λ e. OwnFault e ⊥) }
    ensures all { OnOk result (PrintsAll W.device printer.old printer.new) }
{
    put_chunk(printer, chunk)?;
    printer.send()
}

/// Prints the names of these fields.
pub fn put_schema<W: Writes>(printer: &mut Printer<W>, fields: &[Field]) -> Result<(), Fault>
    ensures only { IfErr result (λ e. OwnFault e ⊥) }
    ensures prints { OnOk result (Prints W.device printer.old printer.new) }
{
    printer.put(b"schema ")?;
    put_number(printer, fields.len())?;
    printer.put(b"\n")?;
    for field in fields {
        put_text(printer, field.name.as_bytes())?;
        printer.put(b"\n")?;
    }
    Ok(())
}

/// Prints a chunk row by row.
pub fn put_chunk<W: Writes>(printer: &mut Printer<W>, chunk: &Chunk<AnyArray>) -> Result<(), Fault>
    ensures only { IfErr result (λ e. OwnFault e ⊥) }
    ensures prints { OnOk result (Prints W.device printer.old printer.new) }
{
    printer.put(b"chunk ")?;
    put_number(printer, chunk.len())?;
    printer.put(b"\n")?;
    for row in 0..chunk.len() {
        put_row(printer, chunk.arrays(), row)?;
    }
    Ok(())
}

fn put_row<W: Writes>(
    printer: &mut Printer<W>,
    arrays: &[AnyArray],
    row: usize,
) -> Result<(), Fault>
    ensures only { IfErr result (λ e. OwnFault e ⊥) }
    ensures prints { OnOk result (Prints W.device printer.old printer.new) }
{
    for (column, array) in arrays.iter().enumerate() {
        put_tab(printer, column)?;
        put_cell(printer, array, row)?;
    }
    printer.put(b"\n")
}

// Prints the separator before each column but the first.
fn put_tab<W: Writes>(printer: &mut Printer<W>, column: usize) -> Result<(), Fault>
    ensures only { IfErr result (λ e. OwnFault e ⊥) }
    ensures prints { OnOk result (Prints W.device printer.old printer.new) }
{
    if column == 0 {
        return Ok(());
    }
    printer.put(b"\t")
}

// Prints the value in a row. A row outside of the column, which no chunk has, prints as `null`.
fn put_cell<W: Writes>(printer: &mut Printer<W>, array: &AnyArray, row: usize) -> Result<(), Fault>
    ensures only { IfErr result (λ e. OwnFault e ⊥) }
    ensures prints { OnOk result (Prints W.device printer.old printer.new) }
{
    if row < array.len() {
        put_slot(printer, array, row)
    } else {
        printer.put(b"null")
    }
}
