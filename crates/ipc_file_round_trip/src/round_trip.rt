//! What a file writer wrote is what a file reader reads.
ghost use Rattle.std.specs.Prelude.{not};
ghost use Rattle.lower.specs.TypeViews.{fields_view, pairs_of};
ghost use Rattle.ipc_schema_write.specs.WriterAnswers.{byte_order};
ghost use Rattle.ipc_write.specs.Writers.{chosen_ids};
ghost use Rattle.ipc_file_round_trip.specs.Api.{MakesFileRoundTrip};

use crate::read::{WholeFile, read_file};
use ipc_base::ipc::IpcField;
use ipc_devices::Fault;
use ipc_encode::common::WriteOptions;
use ipc_file_write::calls::{WrittenFile, write_file};
use ipc_write::calls::StreamCall;
use lower::datatypes::{Metadata, Schema};
use std::alloc::Global;

/// The file that was read back, and the results of its writer's calls.
#[derive(Drop)]
pub struct FileRoundTrip {
    /// The content of the file.
    pub file: WholeFile,
    /// The result of each call.
    pub answers: Vec<Result<(), Fault>>,
}

/// Makes these calls of a file writer in memory, and reads the file back.
///
/// Calls after a refused one are made too. The file is finished at the end unless one of the calls
/// did it. It has the schema in its normal form, these pairs, the byte order of the options, and
/// exactly the chunks whose `write` returned `Ok`. The dictionary ids are `ipc_fields`, or 0, 1, 2
/// and so on.
///
/// # Errors
/// Reading back only fails with `Memory`.
///
/// - `Argument(TooLarge)`: the schema and the pairs weigh more than `2^30`, before any call; or the
///   file has more than `2^25` blocks.
/// - `State(NotStarted)`: no `start` was `Ok`.
/// - `State(Failed)`: a call returned `Io`; `Io`: the vector has no room for the end. Both come
///   only if the vector's growth was refused.
/// - `Memory`.
pub fn file_round_trip(
    alloc: Global,
    schema: Schema,
    ipc_fields: Option<Vec<IpcField>>,
    custom_metadata: Metadata,
    options: WriteOptions,
    calls: &[StreamCall],
) -> Result<FileRoundTrip, Fault>
    ensures { let fields = fields_view schema.fields.items in
        MakesFileRoundTrip (byte_order (not options.big_endian)) fields
        (pairs_of schema.metadata.entries) (chosen_ids ipc_fields fields)
        (pairs_of custom_metadata.entries) calls.now result }
{
    let written = write_file(alloc, schema, ipc_fields, custom_metadata, options, calls)?;
    let WrittenFile { bytes, answers } = written;
    let file = read_file(alloc, &bytes)?;
    Ok(FileRoundTrip { file, answers })
}
