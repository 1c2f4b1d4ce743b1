//! A device fails at each of its calls in turn.
//!
//! Streams are written and read on it, and messages are written.

use crate::scenario::{Scenario, ScenarioRun, StreamFixture, make_stream_fixture, run_one_byte};
use crate::{message_write, stream_read, stream_write};
use arrow2_ipc::io::ipc::fault::Fault;
use bench_devices::failing_runs::{Mismatch, first_mismatch};
use bench_devices::trace::Trace;
use std::alloc::Global;

// Each scenario, and its traces where the first call of the device fails, the second, and so on. A
// writer returns `Io` once, and then `State(Failed)`, and the device has a prefix of the stream. A
// reader of a stream returns the error once, and then None.
const SCENARIOS: [(&str, Scenario, &[&str]); 3] = [
    (
        "a stream is written",
        Scenario::WriteStream,
        stream_write::ON_DEVICE_FAILURE,
    ),
    (
        "a stream is read",
        Scenario::ReadStream,
        stream_read::ON_DEVICE_FAILURE,
    ),
    (
        "messages are written",
        Scenario::WriteMessages,
        message_write::ON_DEVICE_FAILURE,
    ),
];

// The first scenario, if any, that has a run without the expected trace: its name, and that run.
fn first_mismatch_of_all(
    alloc: Global,
    fixture: &StreamFixture,
) -> Result<Option<(&'static str, Mismatch<'static>)>, Fault> {
    for (name, scenario, expected) in SCENARIOS {
        let run = ScenarioRun { fixture, scenario };
        if let Some(mismatch) = first_mismatch(alloc, &run, expected)? {
            return Ok(Some((name, mismatch)));
        }
    }
    Ok(None)
}

#[test]
fn device_fails_at_each_call(rt: HostRuntime) -> Result<(), Fault> {
    let alloc = rt.alloc();
    for big_endian in [false, true] {
        let fixture = make_stream_fixture(alloc, big_endian)?;
        if let Some((name, mismatch)) = first_mismatch_of_all(alloc, &fixture)? {
            assert!(rt; false, "{name}: {mismatch}");
        }
    }
    Ok(())
}

// The first scenario, if any, whose trace is another one on a device that moves one byte a call.
// Returns its name, the trace of a run without a failure, and its own.
fn first_other_by_single_bytes(
    alloc: Global,
    fixture: &StreamFixture,
) -> Result<Option<(&'static str, &'static str, Trace)>, Fault> {
    for (name, scenario, expected) in SCENARIOS {
        let trace = run_one_byte(alloc, fixture, scenario)?.unless_out_of_memory()?;
        let expected = expected.last().copied().unwrap_or("");
        if !trace.is(expected) {
            return Ok(Some((name, expected, trace)));
        }
    }
    Ok(None)
}

#[test]
fn device_moves_one_byte_a_call(rt: HostRuntime) -> Result<(), Fault> {
    let alloc = rt.alloc();
    for big_endian in [false, true] {
        let fixture = make_stream_fixture(alloc, big_endian)?;
        if let Some((name, expected, trace)) = first_other_by_single_bytes(alloc, &fixture)? {
            assert!(rt; false, "{name}\nexpected:{expected}\ngot:{trace}");
        }
    }
    Ok(())
}
