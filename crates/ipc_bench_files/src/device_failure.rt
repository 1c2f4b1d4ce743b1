//! A device fails at each of its calls in turn.
//!
//! Files are written, read and appended to on it, and batches are read.

use crate::scenario::{FileFixture, Scenario, ScenarioRun, make_file_fixture, run_one_byte};
use crate::{append, batch_read, file_read, file_write};
use arrow2_ipc::io::ipc::fault::Fault;
use bench_devices::failing_runs::{Mismatch, first_mismatch};
use bench_devices::trace::Trace;
use std::alloc::Global;

// Each scenario, and its traces where the first call of the device fails, the second, and so on. A
// writer returns `Io` once, and then `State(Failed)`, and the device has a prefix of the file. A
// reader returns the error of a dictionary once, and then None; after a block that can't be read it
// returns the next blocks. A session that appends keeps the old chunks.
const SCENARIOS: [(&str, Scenario, &[&str]); 5] = [
    (
        "a file is written",
        Scenario::WriteFile,
        file_write::ON_DEVICE_FAILURE,
    ),
    (
        "a file is started",
        Scenario::StartFile,
        file_write::START_ON_DEVICE_FAILURE,
    ),
    (
        "a file is read",
        Scenario::ReadFile,
        file_read::ON_DEVICE_FAILURE,
    ),
    (
        "a file is appended to",
        Scenario::Append,
        append::ON_DEVICE_FAILURE,
    ),
    (
        "batches are read",
        Scenario::ReadBatches,
        batch_read::ON_DEVICE_FAILURE,
    ),
];

// The first scenario, if any, that has a run without the expected trace: its name, and that run.
fn first_mismatch_of_all(
    alloc: Global,
    fixture: &FileFixture,
) -> Result<Option<(&'static str, Mismatch<'static>)>, Fault> {
    for (name, scenario, expected) in SCENARIOS {
        let run = ScenarioRun { fixture, scenario };
        if let Some(mismatch) = first_mismatch(alloc, &run, expected)? {
            return Ok(Some((name, mismatch)));
        }
    }
    Ok(None)
}

#[test]
fn device_fails_at_each_call(rt: HostRuntime) -> Result<(), Fault> {
    let alloc = rt.alloc();
    for big_endian in [false, true] {
        let fixture = make_file_fixture(alloc, big_endian)?;
        if let Some((name, mismatch)) = first_mismatch_of_all(alloc, &fixture)? {
            assert!(rt; false, "{name}: {mismatch}");
        }
    }
    Ok(())
}

// The first scenario, if any, whose trace is another one on a device that moves one byte a call.
// Returns its name, the trace of a run without a failure, and its own.
fn first_other_by_single_bytes(
    alloc: Global,
    fixture: &FileFixture,
) -> Result<Option<(&'static str, &'static str, Trace)>, Fault> {
    for (name, scenario, expected) in SCENARIOS {
        let trace = run_one_byte(alloc, fixture, scenario)?.unless_out_of_memory()?;
        let expected = expected.last().copied().unwrap_or("");
        if !trace.is(expected) {
            return Ok(Some((name, expected, trace)));
        }
    }
    Ok(None)
}

#[test]
fn device_moves_one_byte_a_call(rt: HostRuntime) -> Result<(), Fault> {
    let alloc = rt.alloc();
    for big_endian in [false, true] {
        let fixture = make_file_fixture(alloc, big_endian)?;
        if let Some((name, expected, trace)) = first_other_by_single_bytes(alloc, &fixture)? {
            assert!(rt; false, "{name}\nexpected:{expected}\ngot:{trace}");
        }
    }
    Ok(())
}
