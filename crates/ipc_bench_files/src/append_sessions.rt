//! Two sessions append chunks to a file, by one call.

use crate::scenario::{FileFixture, Scenario, ScenarioRun, make_file_fixture, run_one_byte};
use crate::sessions::only_a;
use arrow2_ipc::array::AnyArray;
use arrow2_ipc::chunk::Chunk;
use arrow2_ipc::io::ipc::fault::{Failures, Fault, Watched};
use arrow2_ipc::io::ipc::write::run_sessions;
use bench_devices::dictionary_chunks::make_dictionary_chunks;
use bench_devices::dictionary_file::add_kept;
use bench_devices::failing_runs::first_mismatch;
use bench_devices::faulty::TestFile;
use bench_devices::trace::{Answer, Call, Trace};
use std::alloc::Global;

// The traces of `append_twice` where a call of the device fails.
const ON_DEVICE_FAILURE: &[&str] = &[
    "
    run_sessions io
    device: 1 failure
    old bytes: kept
    old chunks: kept
    ",
    "
    run_sessions failed
    device: 1 failure
    old bytes: kept
    old chunks: kept
    ",
    "
    run_sessions io
    device: 1 failure
    old bytes: kept
    old chunks: kept
    ",
    "
    run_sessions failed
    device: 1 failure
    old bytes: kept
    old chunks: kept
    ",
    "
    run_sessions io
    device: 1 failure
    old bytes: kept
    old chunks: kept
    ",
    "
    run_sessions ok
    device: no failure
    old bytes: kept
    old chunks: kept
    ",
];

/// The traces of `append_twice` where an allocation may fail.
pub const ON_ALLOCATION_FAILURE: &[&str] = &[
    "
    run_sessions ok
    device: no failure
    old bytes: kept
    old chunks: kept
    ",
    "
    run_sessions memory
    device: no failure
    old bytes: kept
    old chunks: kept
    ",
];

// Sessions of the chunks `a`, `b` and `c`, and of `a`.
fn make_sessions(alloc: Global) -> Result<Vec<Vec<Chunk<AnyArray>>>, Fault> {
    let first = Vec::from_array(alloc, make_dictionary_chunks(alloc)?.chunks)?;
    let second = only_a(alloc)?;
    Ok(vec![in alloc; first, second]?)
}

/// Appends to the file of the fixture by two sessions. The call returns the error of the first
/// session that can't finish.
pub fn append_twice<D: TestFile>(
    alloc: Global,
    fixture: &FileFixture,
    mut device: Watched<D>,
) -> Result<Trace, Fault> {
    let mut trace = Trace::new();
    let sessions = make_sessions(alloc)?;
    let answer = match run_sessions(alloc, &mut device, &sessions) {
        Ok(_) => Answer::Success,
        Err(fault) => Answer::of_fault(&fault),
    };
    trace.add(Call::RunSessions, answer);
    trace.add_failures(device.failures());
    let bytes = device.into_inner().into_bytes();
    add_kept(alloc, &fixture.chunks, &fixture.file, &bytes, &mut trace)?;
    Ok(trace)
}

const BY_SINGLE_BYTES: &str = "
    run_sessions ok
    device: no failure
    old bytes: kept
    old chunks: kept
    ";

// The expected traces count the calls of the device. A session without memory for a chunk leaves it
// out and makes fewer calls, so the test isn't one of those that `make refused` runs by default.
#[test]
fn device_fails_at_each_call_of_two_sessions(rt: HostRuntime) -> Result<(), Fault> {
    let alloc = rt.alloc();
    for big_endian in [false, true] {
        let fixture = make_file_fixture(alloc, big_endian)?;
        let scenario = Scenario::AppendTwice;
        let run = ScenarioRun {
            fixture: &fixture,
            scenario,
        };
        if let Some(mismatch) = first_mismatch(alloc, &run, ON_DEVICE_FAILURE)? {
            assert!(rt; false, "{mismatch}");
        }
        let trace = run_one_byte(alloc, &fixture, scenario)?.unless_out_of_memory()?;
        assert!(rt;
            trace.is(BY_SINGLE_BYTES),
            "expected:{BY_SINGLE_BYTES}\ngot:{trace}"
        );
    }
    Ok(())
}
