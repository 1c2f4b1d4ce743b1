//! The metadata of a file, within a limit.
ghost use Rattle.std.specs.Prelude.{◌≤◌, IsTrue, IfErr, IfOk};
ghost use Rattle.ipc_devices.specs.Faults.{OwnFault};
ghost use Rattle.lower.specs.TypeViews.{fields_view};
ghost use Rattle.ipc_base.specs.Fitting.{AllFit};
ghost use Rattle.ipc_base.specs.IdTrees.{all_ids_view};
ghost use Rattle.ipc_costs.specs.Sizes.{metadata_size};
ghost use Rattle.ipc_files.specs.Files.{ReadsFooter};
ghost use Rattle.ipc_files.specs.Footers.{file_seen};
ghost use Rattle.ipc_limits.specs.Files.{FileFaultWithin, GivesFileWithin};

use ipc_costs::cost::footer_cost;
use ipc_devices::fault::{ArgFault, Fault};
use ipc_devices::{Reads, Seeks};
use ipc_files::read::file::{FileMetadata, deserialize_footer, read_footer};
use std::alloc::Global;

/// Reads the metadata of a file, unless its footer costs more than `limit`.
///
/// The cost is that of [`footer_cost`]. Otherwise it is [`read_file_metadata`]. The returned
/// metadata have at most `limit` fields, pairs, union ids and text bytes together, the file's own
/// pairs included.
///
/// # Errors
/// - Those of [`read_file_metadata`].
/// - `Argument(TooLarge)` exactly if the whole footer was read and costs more. Only the memory of
///   the footer was allocated then.
///
/// After an error the reader may be at any position.
///
/// [`read_file_metadata`]: ipc_files::read::file::read_file_metadata
pub fn read_file_metadata_within<R: Reads + Seeks>(
    alloc: Global,
    reader: &mut R,
    limit: u64,
) -> Result<FileMetadata, Fault>
    ensures only { IfErr result (λ e. OwnFault e (FileFaultWithin e)) }
    ensures device { ReadsFooter R.device reader.old result reader.new }
    ensures memory { IsTrue R.device.is_memory →
        GivesFileWithin limit (R.device.memory reader.old).place (R.device.memory reader.old).whole
        result }
    ensures fits { IfOk result (λ m. AllFit (fields_view m.schema.fields.items)
        (all_ids_view m.ipc_schema.fields.items)) }
    ensures bounded { IfOk result (λ m. metadata_size (file_seen m) ≤ limit) }
{
    let footer = read_footer(alloc, reader)?;
    if footer_cost(&footer.bytes, limit).is_none() {
        return Err(Fault::Argument(ArgFault::TooLarge));
    }
    deserialize_footer(alloc, &footer.bytes, footer.size)
}
