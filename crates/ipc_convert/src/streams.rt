//! Writes streams and files as streams.
ghost use Rattle.std.specs.Prelude.{◌≡◌, IfErr, OnOk};
ghost use Rattle.ipc_devices.specs.Device.{IsAnswered};
ghost use Rattle.ipc_devices.specs.Faults.{IfIo, OnIo};
ghost use Rattle.ipc_convert.specs.Api.{CopiesFileToStream, CopiesStreamToStream};
ghost use Rattle.ipc_convert.specs.Failures.{SendFails};
ghost use Rattle.ipc_convert.specs.Steps.{EndsAsSource};
ghost use Rattle.ipc_write.specs.Writers.{RefusesFinish, order_of, seen};

use crate::chunks::{Ending, copy_chunks};
use ipc_devices::fault::Fault;
use ipc_devices::{Reads, Seeks, Writes};
use ipc_encode::common::WriteOptions;
use ipc_file_readers::read::reader::FileReader;
use ipc_files::read::file::read_file_metadata;
use ipc_readers::read::stream::{StreamReader, read_stream_metadata};
use ipc_write::stream::StreamWriter;
use std::alloc::Global;

/// Copies the stream `input` as a stream to `out`.
///
/// The copy has the stream's schema in its normal form, with its dictionary ids. Each chunk is
/// written as soon as it is read, and the end mark if the stream has one. If the stream waits for
/// more, so does the copy. On `Ok` both devices are returned, no call of either failed, and nothing
/// after the end mark was read from the input.
///
/// # Errors
/// - Those of [`read_stream_metadata`] and of the calls of [`StreamReader`] and [`StreamWriter`].
///   An `Argument` error says that a schema or a chunk can't be written.
/// - `Argument(TooLarge)` also if `2^64 - 1` chunks came and no end.
///
/// Each error but `Memory` and `Io` names a condition that is true. `Io` comes only if a call of
/// one of the devices failed, or if `out` is memory whose growth was refused. It is the error that
/// the device returned. The chunks that were taken before the error have been written, without the
/// end mark. An error drops both devices: pass `&mut` to keep what was written.
pub fn stream_to_stream<R: Reads + Drop, W: Writes + Drop>(
    alloc: Global,
    input: R,
    out: W,
    write_options: WriteOptions,
) -> Result<(R, W), Fault>
    ensures { CopiesStreamToStream R.gives R.device W.device (order_of write_options)
        input out result }
{
    let mut input = input;
    let metadata = read_stream_metadata(alloc, &mut input)?;
    let ids = metadata.ipc_schema.clone()?.fields;
    let mut reader = StreamReader::new(alloc, input, metadata, None)?;
    let mut writer = StreamWriter::new(alloc, out, write_options);
    writer.start(&reader.metadata().schema, Some(ids))?;
    let ending = copy_chunks(&mut reader, &mut writer)?;
    end_stream(ending, &mut writer)?;
    Ok((reader.into_inner(), writer.into_inner()))
}

/// Copies the file `file` as a stream to `out`.
///
/// The copy has the file's schema in its normal form, with its dictionary ids, but not the file's
/// pairs, as a stream has none. The chunk of each block is written as soon as it is read, in order,
/// and then the end mark. The dictionaries are read with the first block. The file begins where its
/// device begins, and the device must be there. On `Ok` both devices are returned, and no call of
/// either failed.
///
/// # Errors
/// Those of [`read_file_metadata`] and of the calls of [`FileReader`] and [`StreamWriter`]. An
/// `Argument` error says that the schema or a chunk can't be written.
///
/// If the file is in memory, each error but `Memory` and `Io` names a condition that is true. `Io`
/// comes only if a call of one of the devices failed, or if `out` is memory whose growth was
/// refused. It is the error that the device returned. The chunks that were taken before the error
/// have been written, without the end mark. An error drops both devices: pass `&mut` to keep what
/// was written.
pub fn file_to_stream<F: Reads + Seeks + Drop, W: Writes + Drop>(
    alloc: Global,
    file: F,
    out: W,
    write_options: WriteOptions,
) -> Result<(F, W), Fault>
    ensures { CopiesFileToStream F.device W.device (order_of write_options) file out result }
{
    let mut file = file;
    let metadata = read_file_metadata(alloc, &mut file)?;
    let ids = metadata.ipc_schema.clone()?.fields;
    let mut reader = FileReader::new(alloc, file, metadata, None, None)?;
    let mut writer = StreamWriter::new(alloc, out, write_options);
    writer.start(&reader.metadata().schema, Some(ids))?;
    let ending = copy_chunks(&mut reader, &mut writer)?;
    end_stream(ending, &mut writer)?;
    let file = reader.into_inner();
    Ok((file, writer.into_inner()))
}

// Writes the end mark of a stream if its source is over.
fn end_stream<W: Writes + Drop>(ending: Ending, writer: &mut StreamWriter<W>) -> Result<(), Fault>
    ensures ends { OnOk result (EndsAsSource W.device ending (seen writer.old) (seen writer.new)) }
    ensures done { OnOk result
        (W.device.failures (seen writer.new).device
        ≡ W.device.failures (seen writer.old).device) }
    ensures failed { OnIo result (SendFails W.device
        (seen writer.old).device (seen writer.new).device) }
    ensures answered { IfIo result (IsAnswered W.device) }
    ensures only { IfErr result (RefusesFinish (seen writer.old).state) }
{
    match ending {
        Ending::Waits => Ok(()),
        Ending::Over => writer.finish(),
    }
}
