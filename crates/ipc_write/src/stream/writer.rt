//! The state of a stream writer.
ghost use Rattle.std.specs.Prelude.{◌≡◌, false};

use crate::stream::WriterState;
use ipc_base::ipc::IpcField;
use ipc_tracker::DictionaryTracker;
use lower::datatypes::DataType;
use lower::types::Endianness;
use std::alloc::Global;

/// Writes a stream: a schema, then chunks, then the end mark.
///
/// See "IPC Streaming Format" in the Arrow columnar format. Call `start`, then `write` any number
/// of times, then `finish`; another order is refused. A refused call leaves the device, the
/// writer's state and the dictionaries that it remembers as they were. After `Io` each of the three
/// returns `State(Failed)`; `into_inner` still returns the device.
#[derive(Drop)]
pub struct StreamWriter<W> {
    pub(crate) alloc: Global,
    pub(crate) writer: W,
    // the byte order of numbers
    pub(crate) order: Endianness,
    pub(crate) state: WriterState,
    // the types of the columns
    pub(crate) types: Vec<DataType>,
    pub(crate) ipc_fields: Vec<IpcField>,
    // the dictionaries that were written; later ones may replace them
    pub(crate) dictionary_tracker: DictionaryTracker,
    ghost replaces: { dictionary_tracker.cannot_replace ≡ false },
}
