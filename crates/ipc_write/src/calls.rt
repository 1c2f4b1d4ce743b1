//! Lists of calls of a stream writer, their results, and the bytes after them.
ghost use Rattle.std.specs.Prelude.{IfOk, OnErr};
ghost use Rattle.lower.specs.TypeViews.{fields_view, pairs_of};
ghost use Rattle.ipc_write.specs.Calls.{FirstAreMade, HandsIds, IsMade, RunsStream};
ghost use Rattle.ipc_write.specs.Writers.{chosen_ids, seen};

use crate::stream::StreamWriter;
use ipc_base::chunk::Chunk;
use ipc_base::ipc::{IpcField, clone_ipc_fields};
use ipc_devices::{Fault, Writes};
use lower::datatypes::Schema;
use lower_arrays::array::AnyArray;
use std::alloc::{AllocError, Global};

/// A call of a stream writer.
#[derive(Clone, Copy)]
pub enum StreamCall<'a> {
    /// `start`, with the ids of the list or else with default ids.
    Start,
    /// `write` without ids, so that those of the start apply.
    Write(&'a Chunk<AnyArray>),
    /// `finish`.
    Finish,
}

/// Makes a call and returns its result.
///
/// A `start` has this schema and these dictionary ids; without ids they are 0, 1, 2 and so on.
/// After an error the writer is as that call leaves it.
pub fn run_call<W: Writes + Drop>(
    writer: &mut StreamWriter<W>,
    schema: &Schema,
    ipc_fields: Option<Vec<IpcField>>,
    call: &StreamCall,
) -> Result<(), Fault>
    ensures { let fields = fields_view schema.now.fields.items in
        IsMade W.device fields (pairs_of schema.now.metadata.entries) (chosen_ids ipc_fields fields)
        (seen writer.old) call.now result (seen writer.new) }
{
    match call {
        StreamCall::Start => writer.start(schema, ipc_fields),
        StreamCall::Write(chunk) => writer.write(*chunk, None),
        StreamCall::Finish => writer.finish(),
    }
}

/// Makes the calls in order, also after a refused one, and returns all results.
///
/// Each `start` has this schema and these dictionary ids; without ids they are 0, 1, 2 and so on. A
/// stream in memory then has the chunks that it had, and after them exactly those whose `write`
/// returned `Ok`.
///
/// `AllocError` if the ids can't be copied or a result can't be stored. The calls before that were
/// made, and none after it.
pub fn run_calls<W: Writes + Drop>(
    alloc: Global,
    writer: &mut StreamWriter<W>,
    schema: &Schema,
    ipc_fields: Option<Vec<IpcField>>,
    calls: &[StreamCall],
) -> Result<Vec<Result<(), Fault>>, AllocError>
    ensures ran { let fields = fields_view schema.now.fields.items in
        IfOk result
        (λ answers. RunsStream W.device fields (pairs_of schema.now.metadata.entries)
        (chosen_ids ipc_fields fields)
        (seen writer.old) calls.now answers.items (seen writer.new)) }
    ensures refused { let fields = fields_view schema.now.fields.items in
        OnErr result
        (FirstAreMade W.device fields (pairs_of schema.now.metadata.entries)
        (chosen_ids ipc_fields fields)
        (seen writer.old) calls.now (seen writer.new)) }
{
    let mut answers = Vec::new(alloc);
    for call in calls {
        let ids = handed_to(call, &ipc_fields)?;
        answers.push(run_call(writer, schema, ids, call))?;
    }
    Ok(answers)
}

// The ids for a call: a copy of them for `start`, else none.
fn handed_to(
    call: &StreamCall,
    ipc_fields: &Option<Vec<IpcField>>,
) -> Result<Option<Vec<IpcField>>, AllocError>
    ensures { IfOk result (HandsIds call.now ipc_fields.now) }
{
    match (call, ipc_fields) {
        (StreamCall::Start, Some(ids)) => Ok(Some(clone_ipc_fields(ids)?)),
        _ => Ok(None),
    }
}
