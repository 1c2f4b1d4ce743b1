//! A file is written.

use crate::scenario::FileFixture;
use arrow2_ipc::datatypes::Metadata;
use arrow2_ipc::io::ipc::fault::{Fault, Watched, Writes};
use arrow2_ipc::io::ipc::write::FileWriter;
use bench_devices::dictionary_chunks::DictionaryChunks;
use bench_devices::faulty::TestFile;
use bench_devices::trace::{Answer, Call, Trace};
use ipc_file_write::calls::run_call;
use ipc_write::calls::StreamCall;
use std::alloc::Global;

/// The traces of `write_file` where a call of the device fails.
pub const ON_DEVICE_FAILURE: &[&str] = &[
    "
    start io
    write failed
    write failed
    write failed
    write failed
    write failed
    write failed
    finish failed
    start failed
    write failed
    finish failed
    set_custom_metadata failed
    device: 1 failure
    device: prefix
    ",
    "
    start ok
    write io
    write failed
    write failed
    write failed
    write failed
    write failed
    finish failed
    start failed
    write failed
    finish failed
    set_custom_metadata failed
    device: 1 failure
    device: prefix
    ",
    "
    start ok
    write ok
    write io
    write failed
    write failed
    write failed
    write failed
    finish failed
    start failed
    write failed
    finish failed
    set_custom_metadata failed
    device: 1 failure
    device: prefix
    ",
    "
    start ok
    write ok
    write ok
    write refused
    write io
    write failed
    write failed
    finish failed
    start failed
    write failed
    finish failed
    set_custom_metadata failed
    device: 1 failure
    device: prefix
    ",
    "
    start ok
    write ok
    write ok
    write refused
    write ok
    write io
    write failed
    finish failed
    start failed
    write failed
    finish failed
    set_custom_metadata failed
    device: 1 failure
    device: prefix
    ",
    "
    start ok
    write ok
    write ok
    write refused
    write ok
    write ok
    write io
    finish failed
    start failed
    write failed
    finish failed
    set_custom_metadata failed
    device: 1 failure
    device: prefix
    ",
    "
    start ok
    write ok
    write ok
    write refused
    write ok
    write ok
    write ok
    finish io
    start failed
    write failed
    finish failed
    set_custom_metadata failed
    device: 1 failure
    device: prefix
    ",
    "
    start ok
    write ok
    write ok
    write refused
    write ok
    write ok
    write ok
    finish io
    start failed
    write failed
    finish failed
    set_custom_metadata failed
    device: 1 failure
    device: complete
    ",
    "
    start ok
    write ok
    write ok
    write refused
    write ok
    write ok
    write ok
    finish ok
    start already finished
    write already finished
    finish already finished
    set_custom_metadata already finished
    device: no failure
    device: complete
    ",
];

/// The traces of `write_file` where an allocation may fail.
pub const ON_ALLOCATION_FAILURE: &[&str] = &[
    "
    start ok
    write ok
    write ok
    write refused
    write ok
    write ok
    write ok
    finish ok
    start already finished
    write already finished
    finish already finished
    set_custom_metadata already finished
    device: no failure
    device: complete
    ",
];

/// The traces of `start_file` where a call of the device fails.
pub const START_ON_DEVICE_FAILURE: &[&str] = &[
    "
    try_new io
    device: 1 failure
    device: prefix
    ",
    "
    try_new ok
    device: no failure
    device: prefix
    ",
];

/// The traces of `start_file` where an allocation may fail.
pub const START_ON_ALLOCATION_FAILURE: &[&str] = &[
    "
    try_new ok
    device: no failure
    device: prefix
    ",
    "
    try_new memory
    device: no failure
    device: prefix
    ",
];

/// Writes the file of the fixture, and makes four more calls after its end.
///
/// The chunk `c` is refused: its dictionary can't replace that of `a`.
pub fn write_file<D: TestFile>(
    alloc: Global,
    fixture: &FileFixture,
    device: Watched<D>,
) -> Result<Trace, Fault> {
    let schema = fixture.chunks.schema.clone()?;
    let mut writer = FileWriter::new(alloc, device, schema, None, fixture.options)?;
    let mut trace = Trace::new();
    run_calls(&mut writer, &fixture.chunks, &mut trace);
    let metadata = writer.set_custom_metadata(Metadata::new(alloc));
    trace.add_result(Call::SetCustomMetadata, &metadata);
    trace.add_device(writer.into_inner(), &fixture.file);
    Ok(trace)
}

fn run_calls<W: Writes + Drop>(
    writer: &mut FileWriter<W>,
    chunks: &DictionaryChunks,
    trace: &mut Trace,
) {
    let [a, b, c] = &chunks.chunks;
    let calls = [
        StreamCall::Start,
        StreamCall::Write(a),
        StreamCall::Write(b),
        StreamCall::Write(c),
        StreamCall::Write(a),
        StreamCall::Write(b),
        StreamCall::Write(a),
        StreamCall::Finish,
        StreamCall::Start,
        StreamCall::Write(a),
        StreamCall::Finish,
    ];
    for call in &calls {
        // A call that failed for want of memory is made again.
        let result = match run_call(writer, call) {
            Err(Fault::Memory) => run_call(writer, call),
            result => result,
        };
        trace.add_result(Call::of_writer(call), &result);
    }
}

/// Makes a writer that has started, on a device.
pub fn start_file<D: TestFile>(
    alloc: Global,
    fixture: &FileFixture,
    mut device: Watched<D>,
) -> Result<Trace, Fault> {
    let mut trace = Trace::new();
    let schema = fixture.chunks.schema.clone()?;
    let answer = match FileWriter::try_new(alloc, &mut device, schema, None, fixture.options) {
        Ok(_) => Answer::Success,
        Err(fault) => Answer::of_fault(&fault),
    };
    trace.add(Call::TryNew, answer);
    trace.add_device(device, &fixture.file);
    Ok(trace)
}
