//! Lists of calls of a stream writer, each with its own schema or ids.
ghost use Rattle.std.specs.Prelude.{◌≡◌, IfOk, OnErr, option_map};
ghost use Rattle.lower.specs.TypeViews.{fields_view, pairs_of};
ghost use Rattle.ipc_base.specs.IdTrees.{all_ids_view};
ghost use Rattle.ipc_model.specs.WriterStates.{IsRun, answered};
ghost use Rattle.ipc_model.specs.Writers.{taken};
ghost use Rattle.ipc_write.specs.Api.{StartsStream};
ghost use Rattle.ipc_write.specs.Writers.{seen};
ghost use Rattle.ipc_calls.specs.StreamCalls.{AreMade, FirstAreMade, IsMade, LeadsTo};
ghost use Rattle.ipc_calls.specs.StreamCalls.{ended_as, head_left, ids_for, stage_of, vec_ids};

use ipc_base::chunk::Chunk;
use ipc_base::ipc::{IpcField, clone_ipc_fields};
use ipc_devices::{Fault, Writes};
use ipc_write::stream::StreamWriter;
use lower::datatypes::Schema;
use lower_arrays::array::AnyArray;
use std::alloc::{AllocError, Global};

/// A call of a stream writer with its arguments.
#[derive(Clone, Copy)]
pub enum WriterCall<'a> {
    /// `start` with this schema and these ids, or with default ids.
    Start(&'a Schema, Option<&'a Vec<IpcField>>),
    /// `write` with these ids, or without any.
    Write(&'a Chunk<AnyArray>, Option<&'a [IpcField]>),
    /// `finish`.
    Finish,
}

// A copy of the ids, if there are any.
fn copied(ids: Option<&Vec<IpcField>>) -> Result<Option<Vec<IpcField>>, AllocError>
    ensures { IfOk result (λ copy.
        option_map (λ v. all_ids_view v.items) copy ≡ vec_ids ids.entry) }
{
    match ids {
        Some(ids) => Ok(Some(clone_ipc_fields(ids)?)),
        None => Ok(None),
    }
}

// Starts a stream with a copy of the ids. `AllocError` if they can't be copied.
fn start_with<W: Writes + Drop>(
    writer: &mut StreamWriter<W>,
    schema: &Schema,
    ids: Option<&Vec<IpcField>>,
) -> Result<Result<(), Fault>, AllocError>
    ensures made { let fields = fields_view schema.now.fields.items in
        IfOk result (λ answer. StartsStream W.device
        (seen writer.old) fields (pairs_of schema.now.metadata.entries)
        (ids_for (vec_ids ids.entry) fields) answer (seen writer.new)) }
    ensures none { OnErr result (seen writer.new ≡ seen writer.old) }
{
    let handed = copied(ids)?;
    Ok(writer.start(schema, handed))
}

/// Makes a call, and returns its result.
///
/// `AllocError` if the ids of a `start` can't be copied; nothing was done then.
pub fn run_call<W: Writes + Drop>(
    writer: &mut StreamWriter<W>,
    call: &WriterCall,
) -> Result<Result<(), Fault>, AllocError>
    ensures made { IfOk result (λ answer. IsMade W.device
        (seen writer.old) call.now answer (seen writer.new)) }
    ensures none { OnErr result (seen writer.new ≡ seen writer.old) }
{
    match call {
        WriterCall::Start(schema, ids) => start_with(writer, *schema, *ids),
        WriterCall::Write(chunk, ids) => Ok(writer.write(*chunk, *ids)),
        WriterCall::Finish => Ok(writer.finish()),
    }
}

/// Makes the calls in order, also after a refused one, and returns all results.
///
/// A stream in memory then has the schema and ids of the `start` that was `Ok`. After the chunks
/// that it had, it has exactly those whose `write` returned `Ok`.
///
/// `AllocError` if the ids of a `start` can't be copied or a result can't be stored. The calls
/// before that were made, and none after it.
pub fn run_calls<W: Writes + Drop>(
    alloc: Global,
    writer: &mut StreamWriter<W>,
    calls: &[WriterCall],
) -> Result<Vec<Result<(), Fault>>, AllocError>
    ensures made { IfOk result (λ answers. AreMade W.device
        (seen writer.old) calls.now answers.items (seen writer.new)) }
    ensures run { IfOk result (λ answers. IsRun (stage_of (seen writer.old))
        (ended_as calls.now answers.items) (stage_of (seen writer.new))) }
    ensures leads { IfOk result (λ answers. LeadsTo W.device (seen writer.old) (seen writer.new)
        (λ head. head_left (seen writer.old).order calls.now answers.items head)
        (taken (answered (ended_as calls.now answers.items)))) }
    ensures refused { OnErr result (FirstAreMade W.device
        (seen writer.old) calls.now (seen writer.new)) }
{
    let mut answers = Vec::new(alloc);
    for call in calls {
        let answer = run_call(writer, call)?;
        answers.push(answer)?;
    }
    Ok(answers)
}
