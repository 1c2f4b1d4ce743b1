//! What a stream writer wrote is what a stream reader reads.
ghost use Rattle.std.specs.Prelude.{◌≡◌, ◌⊎◌, IfErr, IfOk, OnOk};
ghost use Rattle.lower.specs.TypeViews.{fields_view, pairs_of};
ghost use Rattle.ipc_write.specs.Writers.{chosen_ids, order_of, seen};
ghost use Rattle.ipc_write.specs.declared.stream.WriterState.TheVariants.{Finished, Started};
ghost use Rattle.ipc_round_trip.specs.Api.{MakesRoundTrip};
ghost use Rattle.ipc_round_trip.specs.RoundTrip.{EndsStream, FinishedLaw, OpenLaw, OpenReadableLaw, ReadableLaw, StreamEndCause};

use crate::read::{WholeStream, read_stream};
use ipc_base::ipc::IpcField;
use ipc_devices::Fault;
use ipc_write::calls::{StreamCall, run_calls};
use ipc_write::common::WriteOptions;
use ipc_write::stream::{StreamWriter, WriterState};
use lower::datatypes::Schema;
use std::alloc::Global;

/// The stream that was read back, and the results of its writer's calls.
#[derive(Drop)]
pub struct RoundTrip {
    /// The content of the stream.
    pub stream: WholeStream,
    /// The result of each call.
    pub answers: Vec<Result<(), Fault>>,
}

// The bytes of a stream that is finished, now or by an earlier call.
fn ended(mut writer: StreamWriter<Vec<u8>>) -> Result<Vec<u8>, Fault>
    ensures ok { IfOk result (λ bytes. EndsStream (seen writer) bytes.items) }
    ensures state { OnOk result (((seen writer).state ≡ Started) ⊎ ((seen writer).state ≡ Finished)) }
    ensures only { IfErr result (StreamEndCause (seen writer)) }
{
    match writer.state() {
        WriterState::Finished => Ok(writer.into_inner()),
        _ => {
            writer.finish()?;
            Ok(writer.into_inner())
        }
    }
}

/// Makes these calls of a stream writer in memory, and reads the stream back.
///
/// Calls after a refused one are made too. The stream is finished at the end unless one of the
/// calls did it. It has the schema in its normal form, and exactly the chunks whose `write`
/// returned `Ok`. The dictionary ids are `ipc_fields`, or 0, 1, 2 and so on.
///
/// # Errors
/// Reading back only fails with `Memory`.
///
/// - `State(NotStarted)`: no `start` was `Ok`.
/// - `State(Failed)`: a call returned `Io`, as the growth of the vector was refused.
/// - `Io`: the vector had no room for the eight bytes of the end, and its growth was refused.
/// - `Memory`.
pub fn round_trip(
    alloc: Global,
    schema: &Schema,
    ipc_fields: Option<Vec<IpcField>>,
    calls: &[StreamCall],
    write_options: WriteOptions,
) -> Result<RoundTrip, Fault>
    ensures { let fields = fields_view schema.now.fields.items in
        MakesRoundTrip (order_of write_options) fields (pairs_of schema.now.metadata.entries)
        (chosen_ids ipc_fields fields) calls.now result }
{
    let mut writer = StreamWriter::new(alloc, Vec::new(alloc), write_options);
    let answers = run_calls(alloc, &mut writer, schema, ipc_fields, calls)?;
    let bytes = ended(writer)?;
    let stream = read_stream(alloc, &bytes)?;
    Ok(RoundTrip { stream, answers })
}

/// Reading a written stream gives its schema and its chunks.
///
/// The stream ends or waits as the writer left it. Such a stream can always be read.
pub fn reads_back()
    ensures finished { FinishedLaw }
    ensures readable { ReadableLaw }
    ensures open_readable { OpenReadableLaw }
    ensures open { OpenLaw }
{}
