//! Theorems on reading streams. The functions do nothing.
ghost use Rattle.ipc_readers.specs.ChosenStreams.{PrunedLaw, WholeLaw};
ghost use Rattle.ipc_readers.specs.Runs.{FailsLaw, ReadLaw, WaitsLaw};

use crate::read::stream::reader::StreamReader;
use ipc_devices::Reads;

/// Reading from memory, any calls of `next` return the chunks that the stream defines.
///
/// They come in order, with the requested columns, as for any reader with the same dictionaries.
/// Then the calls return None or `Waiting`, if the stream doesn't end in an error. A call whose
/// allocation fails returns `Memory`, and later calls None.
pub fn reading_of_streams<R: Reads + Drop>(reader: &StreamReader<R>)
    ensures { ReadLaw R.gives R.device reader.now }
{}

/// A call of `next` that returns `Waiting` loses nothing, on any device.
///
/// The bytes read since then are dictionary messages, whose values are recorded, and a partial
/// prefix, at which the next call continues.
pub fn waiting_loses_nothing<R: Reads + Drop>(reader: &StreamReader<R>)
    ensures { WaitsLaw R.gives R.device reader.now }
{}

/// On any device, `next` returns `Io` only if a call of the device failed.
pub fn faults_of_devices<R: Reads + Drop>(reader: &StreamReader<R>)
    ensures { FailsLaw R.gives R.device reader.now }
{}

/// Without a projection, `chosen_meaning` of a stream is its `meaning`.
pub fn whole_streams()
    ensures { WholeLaw }
{}

/// With a projection, a stream without an error gives the requested columns of its chunks.
///
/// They have the order in which they are requested.
pub fn pruned_streams()
    ensures { PrunedLaw }
{}
