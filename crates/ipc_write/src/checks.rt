//! What stream and file writers check: their state, and what they were started with.
ghost use Rattle.std.specs.Prelude.{◌≡◌, ◌↔◌, Err, IfErr, IfSome, IsSomeAnd, IsTrue, OnErr, OnOk};
ghost use Rattle.ipc_devices.specs.Acts.{IsIoOf};
ghost use Rattle.lower_arrays.specs.AnyLayouts.{layout_of};
ghost use Rattle.lower_arrays.specs.Slots.{IsArray};
ghost use Rattle.ipc_base.specs.IdTrees.{all_ids_view};
ghost use Rattle.ipc_devices.specs.declared.fault.ArgFault.TheVariants.{FieldsDiffer};
ghost use Rattle.ipc_devices.specs.declared.fault.Fault.TheVariants.{Argument, State};
ghost use Rattle.ipc_write.specs.Writers.{HasType, LeavesFlushed, RefusesFlush, RefusesState, fault_if_failed, fault_unless_new, fault_unless_started, normal_view, seen_ids};
ghost use Rattle.ipc_write.specs.Sending.{Flushes};
ghost use Rattle.ipc_write.specs.declared.stream.WriterState.TheVariants.{Failed, New, Started};

use crate::stream::WriterState;
use ipc_base::ipc::IpcField;
use ipc_devices::{ArgFault, Fault, StateFault, Writes};
use ipc_schema_write::dictionaries::are_same_ids;
use lower::datatypes::{DataType, is_same_normal_type};
use lower_arrays::array::AnyArray;

/// Refuses the states in which a writer takes no chunk and can't finish.
///
/// The errors are `State(NotStarted)`, `State(Finished)` and `State(Failed)`.
pub fn check_started(state: WriterState) -> Result<(), Fault>
    ensures ok { OnOk result (state ≡ Started) }
    ensures only { IfErr result (RefusesState (fault_unless_started state)) }
{
    match state {
        WriterState::New => Err(Fault::State(StateFault::NotStarted)),
        WriterState::Started => Ok(()),
        WriterState::Finished => Err(Fault::State(StateFault::Finished)),
        WriterState::Failed => Err(Fault::State(StateFault::Failed)),
    }
}

/// Refuses the states in which a writer can't start.
///
/// The errors are `State(AlreadyStarted)`, `State(Finished)` and `State(Failed)`.
pub fn check_new(state: WriterState) -> Result<(), Fault>
    ensures ok { OnOk result (state ≡ New) }
    ensures only { IfErr result (RefusesState (fault_unless_new state)) }
{
    match state {
        WriterState::New => Ok(()),
        WriterState::Started => Err(Fault::State(StateFault::AlreadyStarted)),
        WriterState::Finished => Err(Fault::State(StateFault::Finished)),
        WriterState::Failed => Err(Fault::State(StateFault::Failed)),
    }
}

/// Refuses dictionary ids other than those that the writer was started with.
///
/// The error is `Argument(FieldsDiffer)`.
pub fn check_ids(ipc_fields: Option<&[IpcField]>, own: &[IpcField]) -> Result<(), Fault>
    ensures ok { OnOk result
        (IfSome (seen_ids ipc_fields.entry) (λ given. given ≡ all_ids_view own.now)) }
    ensures only { IfErr result (λ e. (e ≡ Argument FieldsDiffer)
        × IsSomeAnd (seen_ids ipc_fields.entry) (λ given. ¬ (given ≡ all_ids_view own.now))) }
{
    match ipc_fields {
        Some(given) if !are_same_ids(given, own) => Err(Fault::Argument(ArgFault::FieldsDiffer)),
        _ => Ok(()),
    }
}

/// Whether a column has this type, comparing both in their normal form.
pub fn has_type(column: &AnyArray, data_type: &DataType) -> bool
    ensures same { IsTrue result ↔ HasType column.now (normal_view data_type.now) }
    ensures array { IsArray (layout_of column.now) }
{
    is_same_normal_type(column.data_type(), data_type)
}

/// Returns `sent`, and sets the state to `Failed` if it is an error.
pub fn note_failure(state: &mut WriterState, sent: Result<(), Fault>) -> Result<(), Fault>
    ensures same { result ≡ sent }
    ensures stays { OnOk sent (state.new ≡ state.old) }
    ensures failed { OnErr sent (state.new ≡ Failed) }
{
    if sent.is_err() {
        *state = WriterState::Failed;
    }
    sent
}

// Flushes a device. The only error is `Io`.
fn flush_device<W: Writes>(writer: &mut W) -> Result<(), Fault>
    ensures flushes { Flushes W.device writer.old result writer.new }
    ensures only { IfErr result (IsIoOf W.device) }
{
    match writer.flush() {
        Ok(()) => Ok(()),
        Err(error) => Err(Fault::Io(error)),
    }
}

/// Flushes the device of a writer that hasn't failed.
///
/// If that fails, the state is `Failed`, except that a finished writer stays so. The errors are
/// `State(Failed)` and `Io`.
pub fn flush<W: Writes>(writer: &mut W, state: &mut WriterState) -> Result<(), Fault>
    ensures flushes { Flushes W.device writer.old result writer.new }
    ensures only { IfErr result (RefusesFlush state.old) }
    ensures first { IfSome (fault_if_failed state.old) (λ e. result ≡ Err (State e)) }
    ensures state { LeavesFlushed result state.old state.new }
{
    match *state {
        WriterState::Failed => Err(Fault::State(StateFault::Failed)),
        WriterState::Finished => flush_device(writer),
        _ => {
            let flushed = flush_device(writer);
            note_failure(state, flushed)
        }
    }
}
