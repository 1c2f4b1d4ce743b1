//! Streams and files that chunks are written to.
ghost use Rattle.ipc_devices.specs.Device.{IsAnswered};
ghost use Rattle.ipc_convert.specs.SinkLaws.{file_took_in_order, file_took_nothing, stream_took_in_order, stream_took_nothing};
ghost use Rattle.ipc_write.specs.Writers.{seen};
ghost use Rattle.ipc_file_write.specs.FileWriters as files;
ghost use Rattle.ipc_convert.specs.Failures.{SendFails};
ghost use Rattle.ipc_convert.specs.Sinks.{FileWriterCause, FileTook, StreamTakeCause, StreamTook};

use crate::chunks::Sink;
use ipc_base::chunk::Chunk;
use ipc_devices::Writes;
use ipc_devices::fault::Fault;
use ipc_file_write::file::FileWriter;
use ipc_write::stream::StreamWriter;
use lower_arrays::array::AnyArray;

impl<W: Writes + Drop> Sink for StreamWriter<W> {
    ghost took = { StreamTook W.device };

    ghost refuses = { StreamTakeCause };

    ghost failures = { λ w. W.device.failures (seen w).device };

    ghost fails = { λ v w. SendFails W.device (seen v).device (seen w).device };

    ghost answered = { IsAnswered W.device };

    ghost took_nothing = { stream_took_nothing W.device };

    ghost took_in_order = { stream_took_in_order W.device };

    fn take_chunk(&mut self, chunk: &Chunk<AnyArray>) -> Result<(), Fault> {
        self.write(chunk, None)
    }
}

impl<W: Writes + Drop> Sink for FileWriter<W> {
    ghost took = { FileTook W.device };

    ghost refuses = { FileWriterCause };

    ghost failures = { λ w. W.device.failures (files.seen w).device };

    ghost fails = { λ v w. SendFails W.device (files.seen v).device (files.seen w).device };

    ghost answered = { IsAnswered W.device };

    ghost took_nothing = { file_took_nothing W.device };

    ghost took_in_order = { file_took_in_order W.device };

    fn take_chunk(&mut self, chunk: &Chunk<AnyArray>) -> Result<(), Fault> {
        self.write(chunk, None)
    }
}
