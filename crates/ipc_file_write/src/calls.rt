//! Lists of calls of a file writer, their results, and the bytes after them.
ghost use Rattle.std.specs.Prelude.{◌≡◌, ◌⊎◌, IfErr, IfOk, OnErr, OnOk, not};
ghost use Rattle.lower.specs.TypeViews.{fields_view, pairs_of};
ghost use Rattle.ipc_schema_write.specs.WriterAnswers.{byte_order};
ghost use Rattle.ipc_write.specs.Writers.{chosen_ids};
ghost use Rattle.ipc_write.specs.declared.stream.WriterState.TheVariants.{Finished, Started};
ghost use Rattle.ipc_file_write.specs.Calls.{EndsFile, FirstAreMade, IsMade, MakesCall, RunsFile};
ghost use Rattle.ipc_file_write.specs.FileWriters.{seen};
ghost use Rattle.ipc_file_write.specs.WrittenFiles.{RefusesEnd, WritesWholeFile};

use crate::file::FileWriter;
use ipc_base::ipc::IpcField;
use ipc_devices::{Fault, Writes};
use ipc_encode::common::WriteOptions;
use ipc_write::calls::StreamCall;
use ipc_write::stream::WriterState;
use lower::datatypes::{Metadata, Schema};
use std::alloc::{AllocError, Global};

/// Makes a call and returns its result.
///
/// `start` has the schema and ids that the writer was made with, `write` the ids of the start.
/// After an error the writer is as that call leaves it.
pub fn run_call<W: Writes + Drop>(
    writer: &mut FileWriter<W>,
    call: &StreamCall,
) -> Result<(), Fault>
    ensures made { IsMade W.device (seen writer.old) call.now result (seen writer.new) }
    ensures moves { MakesCall W.device (seen writer.old) call.now result (seen writer.new) }
{
    match call {
        StreamCall::Start => writer.start(),
        StreamCall::Write(chunk) => writer.write(*chunk, None),
        StreamCall::Finish => writer.finish(),
    }
}

/// Makes the calls in order, also after a refused one, and returns all results.
///
/// A file in memory then has the chunks that it had, and after them exactly those whose `write`
/// returned `Ok`.
///
/// `AllocError` if a result can't be stored. The calls up to that one were made, and none after it.
pub fn run_calls<W: Writes + Drop>(
    alloc: Global,
    writer: &mut FileWriter<W>,
    calls: &[StreamCall],
) -> Result<Vec<Result<(), Fault>>, AllocError>
    ensures ran { IfOk result (λ answers.
        RunsFile W.device (seen writer.old) calls.now answers.items (seen writer.new)) }
    ensures refused { OnErr result
        (FirstAreMade W.device (seen writer.old) calls.now (seen writer.new)) }
{
    let mut answers = Vec::new(alloc);
    for call in calls {
        answers.push(run_call(writer, call))?;
    }
    Ok(answers)
}

/// A file in memory, and the results of its writer's calls.
#[derive(Drop)]
pub struct WrittenFile {
    /// The bytes of the file.
    pub bytes: Vec<u8>,
    /// The result of each call in order, or of the `write` of each chunk.
    pub answers: Vec<Result<(), Fault>>,
}

// The bytes of a file that is finished, now or by an earlier call.
fn ended(mut writer: FileWriter<Vec<u8>>) -> Result<Vec<u8>, Fault>
    ensures ok { IfOk result (λ bytes. EndsFile (seen writer) bytes.items) }
    ensures state { OnOk result (((seen writer).state ≡ Started) ⊎ ((seen writer).state ≡ Finished)) }
    ensures only { IfErr result (RefusesEnd (seen writer)) }
{
    match writer.state() {
        WriterState::Finished => Ok(writer.into_inner()),
        _ => {
            writer.finish()?;
            Ok(writer.into_inner())
        }
    }
}

/// Makes these calls of a file writer in memory, and finishes the file.
///
/// Calls after a refused one are made too. The file is finished at the end unless one of the calls
/// did it. It then has the schema in its normal form, these pairs, and exactly the chunks whose
/// `write` returned `Ok`. The dictionary ids are `ipc_fields`, or 0, 1, 2 and so on.
///
/// # Errors
/// - `Argument(TooLarge)`: the schema and the pairs weigh more than `2^30`, before any call; or the
///   file has more than `2^25` blocks.
/// - `State(NotStarted)`: no `start` was `Ok`.
/// - `State(Failed)`: a call returned `Io`; `Io`: the vector has no room for the end. Both come
///   only if the vector's growth was refused.
/// - `Memory`.
pub fn write_file(
    alloc: Global,
    schema: Schema,
    ipc_fields: Option<Vec<IpcField>>,
    custom_metadata: Metadata,
    options: WriteOptions,
    calls: &[StreamCall],
) -> Result<WrittenFile, Fault>
    ensures { let fields = fields_view schema.fields.items in
        WritesWholeFile (byte_order (not options.big_endian)) fields
        (pairs_of schema.metadata.entries) (chosen_ids ipc_fields fields)
        (pairs_of custom_metadata.entries) calls.now result }
{
    let mut writer = FileWriter::new(alloc, Vec::new(alloc), schema, ipc_fields, options)?;
    writer.set_custom_metadata(custom_metadata)?;
    let answers = run_calls(alloc, &mut writer, calls)?;
    let bytes = ended(writer)?;
    Ok(WrittenFile { bytes, answers })
}
