//! Messages are written one by one.

use arrow2_ipc::io::ipc::fault::{Failures, Fault, Watched};
use arrow2_ipc::io::ipc::write::{EncodedData, write_all, write_continuation, write_message};
use bench_devices::faulty::TestFile;
use bench_devices::trace::{Answer, Call, Trace};
use std::alloc::Global;

/// The traces of `write_messages` where a call of the device fails.
pub const ON_DEVICE_FAILURE: &[&str] = &[
    "
    write_continuation io
    write_message ok
    write_all ok
    device: 1 failure
    ",
    "
    write_continuation ok
    write_message io
    write_all ok
    device: 1 failure
    ",
    "
    write_continuation ok
    write_message ok
    write_all io
    device: 1 failure
    ",
    "
    write_continuation ok
    write_message ok
    write_all ok
    device: no failure
    ",
];

/// The traces of `write_messages` where an allocation may fail.
pub const ON_ALLOCATION_FAILURE: &[&str] = &[
    "
    write_continuation ok
    write_message ok
    write_all ok
    device: no failure
    ",
];

/// Writes a continuation, a message, and two bytes.
///
/// The message has one byte, and its body too.
pub fn write_messages<D: TestFile>(alloc: Global, mut device: Watched<D>) -> Result<Trace, Fault> {
    let message = EncodedData {
        ipc_message: Vec::from_slice(alloc, b"b")?,
        arrow_data: Vec::from_slice(alloc, b"c")?,
    };
    let mut trace = Trace::new();
    let continuation = writes_continuation(&mut device);
    trace.add(Call::WriteContinuation, Answer::of_check(&continuation));
    let sent = writes_message(&mut device, &message);
    trace.add(Call::WriteMessage, Answer::of_check(&sent));
    trace.add_result(Call::WriteAll, &write_all(&mut device, b"de"));
    trace.add_failures(device.failures());
    Ok(trace)
}

// Whether a continuation takes as many bytes as it should.
fn writes_continuation<D: TestFile>(device: &mut Watched<D>) -> Result<bool, Fault> {
    Ok(write_continuation(device, 258)? == 8)
}

// Whether a message and its body take as many bytes as they should.
fn writes_message<D: TestFile>(
    device: &mut Watched<D>,
    message: &EncodedData,
) -> Result<bool, Fault> {
    let (metadata, body) = write_message(device, message)?;
    Ok(metadata == 16 && body == 64)
}
