//! Appends the chunks of a stream to a file.
ghost use Rattle.std.specs.Prelude.{◌≡◌, IfErr};
ghost use Rattle.lower.specs.TypeViews.{schema_view};
ghost use Rattle.ipc_base.specs.IdTrees.{all_ids_view};
ghost use Rattle.ipc_devices.specs.Faults.{Answers, OnIo, OwnFault};
ghost use Rattle.ipc_devices.specs.declared.fault.ArgFault.TheVariants.{FieldsDiffer};
ghost use Rattle.ipc_devices.specs.declared.fault.Fault.TheVariants.{Argument};
ghost use Rattle.ipc_convert.specs.Api.{AppendsStream};
ghost use Rattle.ipc_convert.specs.Copies.{AreSame};

use crate::chunks::copy_chunks;
use crate::files::finish_file;
use ipc_base::ipc::IpcField;
use ipc_devices::fault::{ArgFault, Fault};
use ipc_devices::{Reads, Seeks, Writes};
use ipc_encode::common::WriteOptions;
use ipc_file_write::file::FileWriter;
use ipc_files::read::file::read_file_metadata;
use ipc_readers::read::stream::{StreamMetadata, StreamReader, read_stream_metadata};
use ipc_schema_write::dictionaries::are_same_ids;
use lower::datatypes::{Schema, is_same_schema};
use std::alloc::Global;

/// Appends the chunks of the stream `input` to the file `file`.
///
/// Each chunk is written as soon as it is read, and then a footer with all chunks. The file begins
/// where its device begins, and the device must be there. The file keeps its byte order and its
/// pairs. On `Ok` both devices are returned, no call of either failed, and nothing after the end
/// mark was read from the input.
///
/// # Errors
/// Before anything is written, so that the file is as it was:
///
/// - Those of [`read_file_metadata`], `try_from_file` and [`read_stream_metadata`].
/// - `Argument(FieldsDiffer)`: the schemas of the stream and the file differ in their normal form,
///   or their dictionary ids differ.
///
/// After that:
///
/// - Those of the calls of [`StreamReader`] and [`FileWriter`].
/// - `Argument(TooLarge)`: `2^64 - 1` chunks came and no end.
///
/// The file is then finished with the chunks that were written. It isn't if its device failed, no
/// memory was left for its footer, or it has more than `2^25` blocks. Even so its old chunks are
/// still there, if they need no byte after the append offset.
///
/// If the file is in memory, each error but `Memory` and `Io` names a condition that is true. `Io`
/// comes only if a call of one of the devices failed, or if the file is in memory and its growth
/// was refused. It is the error that the device returned. An error drops both devices: pass `&mut`
/// to keep what was written.
pub fn append_stream<F: Reads + Writes + Seeks + Drop, R: Reads + Drop>(
    alloc: Global,
    file: F,
    input: R,
) -> Result<(F, R), Fault>
    ensures { AppendsStream R.gives F.device R.device file input result }
{
    let mut file = file;
    let metadata = read_file_metadata(alloc, &mut file)?;
    let ids = metadata.ipc_schema.clone()?.fields;
    let mut writer = FileWriter::try_from_file(alloc, file, metadata, WriteOptions::default())?;
    let mut input = input;
    let metadata = read_stream_metadata(alloc, &mut input)?;
    check_schema(&metadata, writer.schema(), &ids)?;
    let mut reader = StreamReader::new(alloc, input, metadata, None)?;
    let copied = copy_chunks(&mut reader, &mut writer);
    finish_file(copied, &mut writer)?;
    Ok((writer.into_inner(), reader.into_inner()))
}

// Refuses a stream with another schema, in the normal form, or other dictionary ids.
fn check_schema(metadata: &StreamMetadata, schema: &Schema, ids: &[IpcField]) -> Result<(), Fault>
    ensures exact { Answers result (AreSame (schema_view metadata.now.schema) (all_ids_view metadata.now.ipc_schema.fields.items) (schema_view schema.now) (all_ids_view ids.now)) (λ _. Unit {0}) }
    ensures only { IfErr result (λ e. OwnFault e (e ≡ Argument FieldsDiffer)) }
    ensures own { OnIo result ⊥ }
{
    let normal = metadata.schema.normal()?;
    if is_same_schema(&normal, &schema.normal()?)
        && are_same_ids(&metadata.ipc_schema.fields, ids)
    {
        return Ok(());
    }
    Err(Fault::Argument(ArgFault::FieldsDiffer))
}
