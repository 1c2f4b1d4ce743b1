//! A stream is written.

use crate::scenario::StreamFixture;
use arrow2_ipc::io::ipc::fault::{Fault, Watched, Writes};
use arrow2_ipc::io::ipc::write::StreamWriter;
use bench_devices::dictionary_chunks::DictionaryChunks;
use bench_devices::faulty::TestFile;
use bench_devices::trace::{Call, Trace};
use ipc_write::calls::{StreamCall, run_call};
use std::alloc::Global;

/// The traces of `write_stream` where a call of the device fails.
pub const ON_DEVICE_FAILURE: &[&str] = &[
    "
    start io
    write failed
    write failed
    write failed
    finish failed
    start failed
    write failed
    finish failed
    device: 1 failure
    device: prefix
    ",
    "
    start ok
    write io
    write failed
    write failed
    finish failed
    start failed
    write failed
    finish failed
    device: 1 failure
    device: prefix
    ",
    "
    start ok
    write ok
    write io
    write failed
    finish failed
    start failed
    write failed
    finish failed
    device: 1 failure
    device: prefix
    ",
    "
    start ok
    write ok
    write ok
    write io
    finish failed
    start failed
    write failed
    finish failed
    device: 1 failure
    device: prefix
    ",
    "
    start ok
    write ok
    write ok
    write ok
    finish io
    start failed
    write failed
    finish failed
    device: 1 failure
    device: prefix
    ",
    "
    start ok
    write ok
    write ok
    write ok
    finish io
    start failed
    write failed
    finish failed
    device: 1 failure
    device: complete
    ",
    "
    start ok
    write ok
    write ok
    write ok
    finish ok
    start already finished
    write already finished
    finish already finished
    device: no failure
    device: complete
    ",
];

/// The traces of `write_stream` where an allocation may fail.
pub const ON_ALLOCATION_FAILURE: &[&str] = &[
    "
    start ok
    write ok
    write ok
    write ok
    finish ok
    start already finished
    write already finished
    finish already finished
    device: no failure
    device: complete
    ",
];

/// Writes the stream of the three chunks, and makes three more calls after its end.
pub fn write_stream<D: TestFile>(
    alloc: Global,
    fixture: &StreamFixture,
    device: Watched<D>,
) -> Trace {
    let mut writer = StreamWriter::new(alloc, device, fixture.options);
    let mut trace = Trace::new();
    run_calls(&mut writer, &fixture.chunks, &mut trace);
    trace.add_device(writer.into_inner(), &fixture.stream);
    trace
}

fn run_calls<W: Writes + Drop>(
    writer: &mut StreamWriter<W>,
    chunks: &DictionaryChunks,
    trace: &mut Trace,
) {
    let [a, b, c] = &chunks.chunks;
    let calls = [
        StreamCall::Start,
        StreamCall::Write(a),
        StreamCall::Write(b),
        StreamCall::Write(c),
        StreamCall::Finish,
        StreamCall::Start,
        StreamCall::Write(a),
        StreamCall::Finish,
    ];
    for call in &calls {
        // A call that failed for want of memory is made again.
        let result = match run_call(writer, &chunks.schema, None, call) {
            Err(Fault::Memory) => run_call(writer, &chunks.schema, None, call),
            result => result,
        };
        trace.add_result(Call::of_writer(call), &result);
    }
}
