//! Lists of calls of a file writer, including those that set its pairs.
ghost use Rattle.std.specs.Prelude.{◌≡◌, IfOk, OnErr};
ghost use Rattle.lower.specs.TypeViews.{pairs_of};
ghost use Rattle.ipc_model.specs.WriterStates.{IsRun, answered};
ghost use Rattle.ipc_model.specs.Writers.{taken};
ghost use Rattle.ipc_file_write.specs.Api.{SetsPairs};
ghost use Rattle.ipc_file_write.specs.Calls.{GrowsBy};
ghost use Rattle.ipc_file_write.specs.FileWriters.{seen};
ghost use Rattle.ipc_calls.specs.FileCalls.{AreMade, FirstAreMade, IsMade, KeepsFile};
ghost use Rattle.ipc_calls.specs.FileCalls.{ended_as, last_pairs, stage_of};

use ipc_base::chunk::Chunk;
use ipc_base::ipc::IpcField;
use ipc_devices::{Fault, Writes};
use ipc_file_write::file::FileWriter;
use lower::datatypes::Metadata;
use lower::datatypes::clones::clone_metadata;
use lower_arrays::array::AnyArray;
use std::alloc::{AllocError, Global};

/// A call of a file writer with its arguments. The schema is the writer's.
#[derive(Clone, Copy)]
pub enum FileCall<'a> {
    /// `set_custom_metadata` with these pairs.
    SetCustomMetadata(&'a Metadata),
    /// `start`.
    Start,
    /// `write` with these ids, or without any.
    Write(&'a Chunk<AnyArray>, Option<&'a [IpcField]>),
    /// `finish`.
    Finish,
}

// Sets a copy of the pairs. `AllocError` if they can't be copied.
fn set_pairs<W: Writes + Drop>(
    writer: &mut FileWriter<W>,
    pairs: &Metadata,
) -> Result<Result<(), Fault>, AllocError>
    ensures made { IfOk result (λ answer. SetsPairs W.device (seen writer.old)
        (pairs_of pairs.now.entries) answer (seen writer.new)) }
    ensures none { OnErr result (seen writer.new ≡ seen writer.old) }
{
    let copy = clone_metadata(pairs)?;
    Ok(writer.set_custom_metadata(copy))
}

/// Makes a call, and returns its result.
///
/// `AllocError` if the pairs to be set can't be copied; nothing was done then.
pub fn run_call<W: Writes + Drop>(
    writer: &mut FileWriter<W>,
    call: &FileCall,
) -> Result<Result<(), Fault>, AllocError>
    ensures made { IfOk result (λ answer. IsMade W.device
        (seen writer.old) call.now answer (seen writer.new)) }
    ensures none { OnErr result (seen writer.new ≡ seen writer.old) }
{
    match call {
        FileCall::SetCustomMetadata(pairs) => set_pairs(writer, *pairs),
        FileCall::Start => Ok(writer.start()),
        FileCall::Write(chunk, ids) => Ok(writer.write(*chunk, *ids)),
        FileCall::Finish => Ok(writer.finish()),
    }
}

/// Makes the calls in order, also after a refused one, and returns all results.
///
/// The pairs are then those of the last `set_custom_metadata` that was `Ok`, or else those from
/// before. A file in memory has the chunks that it had, and then exactly those whose `write`
/// returned `Ok`. If it is finished, its footer has the pairs.
///
/// `AllocError` if pairs can't be copied or a result can't be stored. The calls before that were
/// made, and none after it.
pub fn run_calls<W: Writes + Drop>(
    alloc: Global,
    writer: &mut FileWriter<W>,
    calls: &[FileCall],
) -> Result<Vec<Result<(), Fault>>, AllocError>
    ensures made { IfOk result (λ answers. AreMade W.device
        (seen writer.old) calls.now answers.items (seen writer.new)) }
    ensures run { IfOk result (λ answers. IsRun (stage_of (seen writer.old))
        (ended_as calls.now answers.items) (stage_of (seen writer.new))) }
    ensures follows { IfOk result (λ answers. GrowsBy W.device
        (seen writer.old) (seen writer.new) (taken (answered (ended_as calls.now answers.items)))) }
    ensures keeps { IfOk result (λ answers. KeepsFile (seen writer.old) (seen writer.new)
        (last_pairs calls.now answers.items (seen writer.old).pairs)) }
    ensures refused { OnErr result (FirstAreMade W.device
        (seen writer.old) calls.now (seen writer.new)) }
{
    let mut answers = Vec::new(alloc);
    for call in calls {
        let answer = run_call(writer, call)?;
        answers.push(answer)?;
    }
    Ok(answers)
}
