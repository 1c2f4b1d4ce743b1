//! Writes streams and files as files.
ghost use Rattle.std.specs.Prelude.{◌≡◌, IfErr, IfOk, OnOk};
ghost use Rattle.lower.specs.TypeViews.{fields_view, pairs_of};
ghost use Rattle.ipc_base.specs.IdTrees.{all_ids_view};
ghost use Rattle.ipc_devices.specs.Device.{IsAnswered};
ghost use Rattle.ipc_devices.specs.Faults.{IfIo, OnIo, OwnFault};
ghost use Rattle.ipc_convert.specs.Api.{CopiesFileToFile, CopiesStreamToFile};
ghost use Rattle.ipc_convert.specs.Failures.{OutputFails, SendFails};
ghost use Rattle.ipc_convert.specs.Steps.{BeginsFile, EndsAnyway, EndsCopy, WithPairsCause};
ghost use Rattle.ipc_file_write.specs.FileWriters.{seen};
ghost use Rattle.ipc_write.specs.Writers.{order_of};

use crate::chunks::{Ending, copy_chunks};
use ipc_base::ipc::IpcField;
use ipc_devices::fault::Fault;
use ipc_devices::{Reads, Seeks, Writes};
use ipc_encode::common::WriteOptions;
use ipc_file_readers::read::reader::FileReader;
use ipc_file_write::file::FileWriter;
use ipc_files::read::file::read_file_metadata;
use ipc_readers::read::stream::{StreamReader, read_stream_metadata};
use lower::datatypes::clones::clone_metadata;
use lower::datatypes::{Metadata, Schema};
use std::alloc::Global;

/// Copies the stream `input` as a file to `out`.
///
/// The file has the stream's schema in its normal form, with its dictionary ids, and no pairs. Each
/// chunk is written as soon as it is read, and then the footer, if the stream ends or waits. On
/// `Ok` both devices are returned, no call of either failed, and nothing after the end mark was
/// read from the input.
///
/// # Errors
/// - Before anything is written: those of [`read_stream_metadata`], and the `Argument` errors of a
///   schema that can't be written.
/// - After that: those of the calls of [`StreamReader`] and [`FileWriter`].
/// - `Argument(TooLarge)` also if `2^64 - 1` chunks came and no end.
///
/// After the latter two the file is finished with the chunks that were written, unless its device
/// failed or no memory was left for its footer. Each error but `Memory` and `Io` names a condition
/// that is true. `Io` comes only if a call of one of the devices failed, or if `out` is memory
/// whose growth was refused. It is the error that the device returned. An error drops both devices:
/// pass `&mut` to keep what was written.
pub fn stream_to_file<R: Reads + Drop, W: Writes + Drop>(
    alloc: Global,
    input: R,
    out: W,
    write_options: WriteOptions,
) -> Result<(R, W), Fault>
    ensures { CopiesStreamToFile R.gives R.device W.device (order_of write_options)
        input out result }
{
    let mut input = input;
    let metadata = read_stream_metadata(alloc, &mut input)?;
    let schema = metadata.schema.clone()?;
    let ids = metadata.ipc_schema.clone()?.fields;
    let mut reader = StreamReader::new(alloc, input, metadata, None)?;
    let pairs = Metadata::new(alloc);
    let mut writer = begin_file(alloc, out, schema, ids, pairs, write_options)?;
    let copied = copy_chunks(&mut reader, &mut writer);
    finish_file(copied, &mut writer)?;
    Ok((reader.into_inner(), writer.into_inner()))
}

/// Copies the file `file` as a file to `out`.
///
/// The copy has the file's schema in its normal form, with its dictionary ids, and its pairs. The
/// chunk of each block is written as soon as it is read, in order, and then the footer. The
/// dictionaries are read with the first block. The file begins where its device begins, and the
/// device must be there. On `Ok` both devices are returned, and no call of either failed.
///
/// # Errors
/// - Before anything is written: those of [`read_file_metadata`], and the `Argument` errors of a
///   schema that can't be written, or that is too heavy with the pairs (`TooLarge`).
/// - After that: those of the calls of [`FileReader`] and [`FileWriter`]. The copy is then finished
///   with the chunks that were written, unless its device failed or no memory was left for its
///   footer.
///
/// If `file` is in memory, each error but `Memory` and `Io` names a condition that is true. `Io`
/// comes only if a call of one of the devices failed, or if `out` is memory whose growth was
/// refused. It is the error that the device returned. An error drops both devices: pass `&mut` to
/// keep what was written.
pub fn file_to_file<F: Reads + Seeks + Drop, W: Writes + Drop>(
    alloc: Global,
    file: F,
    out: W,
    write_options: WriteOptions,
) -> Result<(F, W), Fault>
    ensures { CopiesFileToFile F.device W.device (order_of write_options) file out result }
{
    let mut file = file;
    let metadata = read_file_metadata(alloc, &mut file)?;
    let schema = metadata.schema.clone()?;
    let ids = metadata.ipc_schema.clone()?.fields;
    let pairs = clone_metadata(&metadata.custom_metadata)?;
    let mut reader = FileReader::new(alloc, file, metadata, None, None)?;
    let mut writer = begin_file(alloc, out, schema, ids, pairs, write_options)?;
    let copied = copy_chunks(&mut reader, &mut writer);
    finish_file(copied, &mut writer)?;
    let file = reader.into_inner();
    Ok((file, writer.into_inner()))
}

// A writer of a file, already started.
fn begin_file<W: Writes + Drop>(
    alloc: Global,
    out: W,
    schema: Schema,
    ids: Vec<IpcField>,
    pairs: Metadata,
    write_options: WriteOptions,
) -> Result<FileWriter<W>, Fault>
    ensures begins { IfOk result (λ w. BeginsFile W.device out (order_of write_options)
        (fields_view schema.fields.items)
        (pairs_of schema.metadata.entries) (all_ids_view ids.items) (pairs_of pairs.entries)
        (seen w)) }
    ensures only { IfErr result (λ e. OwnFault e
        (WithPairsCause (fields_view schema.fields.items)
        (pairs_of schema.metadata.entries)
        (all_ids_view ids.items) (pairs_of pairs.entries) e)) }
    ensures done { IfOk result (λ w. W.device.failures (seen w).device ≡ W.device.failures out) }
    ensures failed { OnIo result (OutputFails W.device out) }
    ensures answered { IfIo result (IsAnswered W.device) }
{
    let mut writer = FileWriter::new(alloc, out, schema, Some(ids), write_options)?;
    writer.set_custom_metadata(pairs)?;
    writer.start()?;
    Ok(writer)
}

// Finishes a file, whatever the result of the copy, and returns that result. If the copy was `Ok`,
// `Io` comes from a call that sends the end.
pub(crate) fn finish_file<W: Writes + Drop>(
    copied: Result<Ending, Fault>,
    writer: &mut FileWriter<W>,
) -> Result<Ending, Fault>
    ensures ends { IfOk result
        (λ ending. EndsCopy W.device copied ending (seen writer.old) (seen writer.new)) }
    ensures anyway { EndsAnyway W.device copied result (seen writer.old) (seen writer.new) }
    ensures failed { OnIo result (OnOk copied (SendFails W.device
        (seen writer.old).device (seen writer.new).device)) }
    ensures answered { IfIo result (λ e. OnOk copied (IsAnswered W.device e)) }
{
    let finished = writer.finish();
    let ending = copied?;
    finished?;
    Ok(ending)
}
