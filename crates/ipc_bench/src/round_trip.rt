//! The example is written to, and read from, a device that moves single bytes.

use crate::stream_read::next_example;
use arrow2_ipc::io::ipc::fault::{Fault, Watched, Writes};
use arrow2_ipc::io::ipc::read::{StreamReader, read_stream_metadata};
use arrow2_ipc::io::ipc::write::{StreamWriter, WriteOptions};
use bench_devices::faulty::{OneByte, TestFile};
use bench_devices::fixtures::{Example, empty_buffer, make_example};
use bench_devices::trace::{Call, Trace};
use std::alloc::Global;

// Writes the stream of five equal chunks.
fn write_stream<W: Writes + Drop>(alloc: Global, example: &Example, device: W) -> Result<W, Fault> {
    let mut writer = StreamWriter::new(alloc, device, WriteOptions::default());
    writer.start(&example.schema, None)?;
    for _ in 0..5 {
        writer.write(&example.chunk, None)?;
    }
    writer.finish()?;
    Ok(writer.into_inner())
}

// What six calls of a reader return.
fn read_stream(alloc: Global, example: &Example, bytes: Vec<u8>) -> Result<Trace, Fault> {
    let mut device = Watched::new(OneByte::new(bytes));
    let metadata = read_stream_metadata(alloc, &mut device)?;
    let mut reader = StreamReader::new(alloc, device, metadata, None)?;
    let mut trace = Trace::new();
    for _ in 0..6 {
        trace.add(Call::Next, next_example(&mut reader, example));
    }
    trace.unless_out_of_memory()
}

const FIVE_CHUNKS: &str = "
    next example
    next example
    next example
    next example
    next example
    next end
    ";

#[test]
fn stream_is_written_and_read_byte_by_byte(rt: HostRuntime) -> Result<(), Fault> {
    let alloc = rt.alloc();
    let example = make_example(alloc)?;
    let whole = write_stream(alloc, &example, empty_buffer(alloc)?)?;
    let device = Watched::new(OneByte::new(empty_buffer(alloc)?));
    let device = write_stream(alloc, &example, device)?;
    assert!(rt; device.into_inner().into_bytes() == whole);
    let trace = read_stream(alloc, &example, whole)?;
    assert!(rt;
        trace.is(FIVE_CHUNKS),
        "expected:{FIVE_CHUNKS}\ngot:{trace}"
    );
    Ok(())
}
