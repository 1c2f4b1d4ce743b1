//! Prints a file: its schema, and its chunks row by row.
ghost use Rattle.std.specs.Prelude.{◌≡◌, ◌<◌, IfErr, IfOk, IfSome, IsTrue, List, None, Some, Err, Ok, OnOk, false};
ghost use Rattle.lower_arrays.specs.declared.array.AnyArray.{AnyArray as Array};
ghost use Rattle.ipc_devices.specs.Faults.{OwnFault};
ghost use Rattle.ipc_file_readers.specs.Readers.{NextStep, blocks_left};
ghost use Rattle.ipc_file_readers.specs.declared.read.reader.state.FileReader.{FileReader as Reader};
ghost use Rattle.ipc_file_round_trip.specs.Steps.{GivesThenFails};
ghost use Rattle.ipc_programs.specs.Printing.{Prints};
ghost use Rattle.ipc_programs.specs.Shown.{GaveBlocks, ReadsFile};
ghost use Rattle.ipc_programs.specs.CatWords.{NamesNumbers, columns_by};
ghost use Rattle.ipc_programs.specs.CatRefusals.{FileHasOthers, OpensFile, ShowFileCause};
ghost use Rattle.ipc_programs.specs.declared.cat.show.Outcome.TheVariants.{Done, WrongWords};

use crate::cat::chosen::{Chosen, chosen_among};
use crate::cat::forms::FileWords;
use crate::cat::printer::Printer;
use crate::cat::show::{Outcome, put_schema, send_chunk};
use arrow2_ipc::io::ipc::fault::{Fault, Reads, Seeks, Writes};
use arrow2_ipc::io::ipc::read::{FileReader, read_file_metadata};
use std::alloc::Global;

/// Prints the requested columns and rows of a file, block by block.
///
/// Its metadata are read first, and then the column positions are checked. Its dictionaries are
/// read with the first block. Other columns aren't read.
pub fn show_file<F: Reads + Seeks + Drop, W: Writes>(
    alloc: Global,
    file: F,
    words: FileWords<'_>,
    printer: &mut Printer<W>,
) -> Result<Outcome, Fault>
    requires { NamesNumbers words.columns }
    ensures shown { IfOk result (λ outcome. outcome ≡ Done
        → ReadsFile F.device file (columns_by words.entry.columns) words.entry.limit) }
    ensures wrong { IfOk result (λ outcome. outcome ≡ WrongWords
        → FileHasOthers F.device file (columns_by words.entry.columns)) }
    ensures refused { IfErr result (λ e. OwnFault e
        (ShowFileCause F.device file (columns_by words.entry.columns) words.entry.limit e)) }
    ensures prints { OnOk result (Prints W.device printer.old printer.new) }
{
    let Some(mut reader) = open_file(alloc, file, words)? else {
        return Ok(Outcome::WrongWords);
    };
    put_schema(printer, &reader.schema().fields)?;
    show_blocks(&mut reader, printer)?;
    printer.put(b"end\n")?;
    Ok(Outcome::Done)
}

// A reader of the requested columns and rows. None if a position isn't in the schema, or repeats.
fn open_file<F: Reads + Seeks + Drop>(
    alloc: Global,
    file: F,
    words: FileWords<'_>,
) -> Result<Option<FileReader<F>>, Fault>
    requires { NamesNumbers words.columns }
    ensures wrong { IfOk result (λ reader. reader ≡ None
        → FileHasOthers F.device file (columns_by words.entry.columns)) }
    ensures opens { IfOk result (λ reader. IfSome reader
        (OpensFile F.device file (columns_by words.entry.columns) words.entry.limit)) }
    ensures refused { IfErr result (λ e. OwnFault e
        (ShowFileCause F.device file (columns_by words.entry.columns) words.entry.limit e)) }
{
    let mut file = file;
    let metadata = read_file_metadata(alloc, &mut file)?;
    let count = metadata.schema.fields.len();
    let Chosen::Columns(projection) = chosen_among(alloc, words.columns, count)? else {
        return Ok(None);
    };
    let reader = FileReader::new(alloc, file, metadata, projection, words.limit)?;
    Ok(Some(reader))
}

// Prints the chunks of all blocks.
fn show_blocks<F: Reads + Seeks + Drop, W: Writes>(
    reader: &mut FileReader<F>,
    printer: &mut Printer<W>,
) -> Result<(), Fault>
    ensures shown { IfOk result (λ _. GaveBlocks F.device reader.old) }
    ensures broken { IfErr result (λ e. OwnFault e (GivesThenFails F.device reader.old e)) }
    ensures prints { OnOk result (Prints W.device printer.old printer.new) }
{
    while show_block(reader, printer)? {}
    Ok(())
}

// Prints the chunk of the next block, and returns whether there was one.
fn show_block<F: Reads + Seeks + Drop, W: Writes>(
    reader: &mut FileReader<F>,
    printer: &mut Printer<W>,
) -> Result<bool, Fault>
    ensures shown { IfOk result (λ more. IsTrue more
        → (chunk : List Array)
        × NextStep F.device reader.old (Some (Ok chunk)) reader.new) }
    ensures all { IfOk result (λ more. more ≡ false
        → NextStep F.device reader.old None reader.new) }
    ensures fewer { IfOk result (λ more. IsTrue more → blocks_left reader.new < blocks_left reader.old) }
    ensures broken { IfErr result (λ e. OwnFault e ((left : Reader F)
        × NextStep F.device reader.old (Some (Err e)) left)) }
    ensures prints { OnOk result (Prints W.device printer.old printer.new) }
{
    let Some(next) = reader.next() else {
        return Ok(false);
    };
    let chunk = next?;
    send_chunk(printer, &chunk)?;
    Ok(true)
}
