//! Streams and files that chunks are read from.
ghost use Rattle.ipc_devices.specs.Device.{IsAnswered};
ghost use Rattle.ipc_readers.specs.Streams.{device_of};
ghost use Rattle.ipc_file_readers.specs.Readers as files;
ghost use Rattle.ipc_convert.specs.SourceLaws.{file_came_in_order, file_came_nothing, stream_came_in_order, stream_came_nothing};
ghost use Rattle.ipc_convert.specs.Sources.{NextOfFileCause, FileCame, FileStopped, NextOfStreamCause, StreamCame, StreamStopped};

use crate::chunks::{Ending, Next, Source};
use ipc_devices::fault::Fault;
use ipc_devices::{Reads, Seeks};
use ipc_file_readers::read::reader::FileReader;
use ipc_readers::read::stream::{StreamReader, StreamState};

impl<R: Reads + Drop> Source for StreamReader<R> {
    ghost came = { StreamCame R.gives };

    ghost stopped = { StreamStopped R.gives };

    ghost breaks = { NextOfStreamCause R.gives };

    ghost failures = { λ r. R.device.failures (device_of r) };

    ghost answered = { IsAnswered R.device };

    ghost came_nothing = { stream_came_nothing R.gives R.laws.nothing };

    ghost came_in_order = { stream_came_in_order R.gives R.laws.in_order };

    fn next_chunk(&mut self) -> Result<Next, Fault> {
        match self.next() {
            None => Ok(Next::End(Ending::Over)),
            Some(Err(fault)) => Err(fault),
            Some(Ok(StreamState::Waiting)) => Ok(Next::End(Ending::Waits)),
            Some(Ok(StreamState::Some(chunk))) => Ok(Next::Chunk(chunk)),
        }
    }
}

impl<F: Reads + Seeks + Drop> Source for FileReader<F> {
    ghost came = { FileCame F.device };

    ghost stopped = { FileStopped F.device };

    ghost breaks = { NextOfFileCause F.device };

    ghost failures = { λ r. F.device.failures (files.device_of r) };

    ghost answered = { IsAnswered F.device };

    ghost came_nothing = { file_came_nothing F.device };

    ghost came_in_order = { file_came_in_order F.device };

    fn next_chunk(&mut self) -> Result<Next, Fault> {
        match self.next() {
            None => Ok(Next::End(Ending::Over)),
            Some(Err(fault)) => Err(fault),
            Some(Ok(chunk)) => Ok(Next::Chunk(chunk)),
        }
    }
}
