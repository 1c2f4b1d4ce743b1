//! The example is written to, and read from, a device that moves single bytes.

use arrow2_ipc::io::ipc::fault::{Fault, Watched, Writes};
use arrow2_ipc::io::ipc::read::{FileReader, read_file_metadata};
use arrow2_ipc::io::ipc::write::{FileWriter, WriteOptions};
use bench_devices::faulty::{OneByte, TestFile};
use bench_devices::fixtures::{Example, empty_buffer, make_example};
use bench_devices::trace::{Answer, Call, Trace};
use std::alloc::Global;

// Writes the file of five equal chunks.
fn write_file<W: Writes + Drop>(alloc: Global, example: &Example, device: W) -> Result<W, Fault> {
    let schema = example.schema.clone()?;
    let mut writer = FileWriter::new(alloc, device, schema, None, WriteOptions::default())?;
    writer.start()?;
    for _ in 0..5 {
        writer.write(&example.chunk, None)?;
    }
    writer.finish()?;
    Ok(writer.into_inner())
}

// What six calls of a reader return.
fn read_file(alloc: Global, example: &Example, bytes: Vec<u8>) -> Result<Trace, Fault> {
    let mut device = Watched::new(OneByte::new(bytes));
    let metadata = read_file_metadata(alloc, &mut device)?;
    let mut reader = FileReader::new(alloc, device, metadata, None, None)?;
    let mut trace = Trace::new();
    for _ in 0..6 {
        let answer = match reader.next() {
            Some(Ok(chunk)) => example.answer(&chunk),
            Some(Err(fault)) => Answer::of_fault(&fault),
            None => Answer::End,
        };
        trace.add(Call::Next, answer);
    }
    trace.unless_out_of_memory()
}

const FIVE_CHUNKS: &str = "
    next example
    next example
    next example
    next example
    next example
    next end
    ";

#[test]
fn file_is_written_and_read_byte_by_byte(rt: HostRuntime) -> Result<(), Fault> {
    let alloc = rt.alloc();
    let example = make_example(alloc)?;
    let whole = write_file(alloc, &example, empty_buffer(alloc)?)?;
    let device = Watched::new(OneByte::new(empty_buffer(alloc)?));
    let device = write_file(alloc, &example, device)?;
    assert!(rt; device.into_inner().into_bytes() == whole);
    let trace = read_file(alloc, &example, whole)?;
    assert!(rt;
        trace.is(FIVE_CHUNKS),
        "expected:{FIVE_CHUNKS}\ngot:{trace}"
    );
    Ok(())
}
