//! A session appends chunks to a file in memory that can't grow.

use crate::append::add_session;
use crate::scenario::{FileFixture, make_file_fixture};
use arrow2_ipc::io::ipc::fault::{Failures, Fault, MemFile};
use arrow2_ipc::io::ipc::write::append_session;
use bench_devices::dictionary_file::add_kept;
use bench_devices::failing_runs::{FailingRun, first_mismatch};
use bench_devices::faulty::NEVER;
use bench_devices::out_of_memory::OutOfMemory;
use bench_devices::trace::{Alternatives, Trace};
use std::alloc::Global;

// The traces of `append` where the file can't grow from one of its writes on. The device counts no
// failure.
const ON_DEVICE_FAILURE: &[&str] = &[
    "
    write io
    write failed
    write failed
    finish failed
    device: no failure
    old bytes: kept
    old chunks: kept
    ",
    "
    write ok
    write io
    write failed
    finish failed
    device: no failure
    old bytes: kept
    old chunks: kept
    ",
    "
    write ok
    write ok
    write refused
    finish io
    device: no failure
    old bytes: kept
    old chunks: kept
    ",
    "
    write ok
    write ok
    write refused
    finish ok
    device: no failure
    old bytes: kept
    old chunks: kept
    ",
];

// The traces of `append` where an allocation may fail, also that by which the file grows.
const ON_ALLOCATION_FAILURE: &[&str] = &[
    "
    write ok
    write ok
    write refused
    finish ok
    device: no failure
    old bytes: kept
    old chunks: kept
    ",
    "
    append_session memory
    device: no failure
    old bytes: kept
    old chunks: kept
    ",
    "
    write memory
    write ok
    write refused
    finish ok
    device: no failure
    old bytes: kept
    old chunks: kept
    ",
    "
    write ok
    write memory
    write refused
    finish ok
    device: no failure
    old bytes: kept
    old chunks: kept
    ",
    "
    write ok
    write ok
    write memory
    finish ok
    device: no failure
    old bytes: kept
    old chunks: kept
    ",
    "
    write ok
    write ok
    write refused
    finish memory
    device: no failure
    old bytes: kept
    old chunks: kept
    ",
    "
    write io
    write failed
    write failed
    finish failed
    device: no failure
    old bytes: kept
    old chunks: kept
    ",
    "
    write ok
    write io
    write failed
    finish failed
    device: no failure
    old bytes: kept
    old chunks: kept
    ",
    "
    write ok
    write ok
    write refused
    finish io
    device: no failure
    old bytes: kept
    old chunks: kept
    ",
];

// Appends the chunks `a`, `b` and `c` to the file of the fixture, in memory that can't grow from
// one of its writes on.
#[derive(Clone, Copy)]
struct AppendRun<'a> {
    fixture: &'a FileFixture,
}

impl<'a> FailingRun for AppendRun<'a> {
    fn run(&self, alloc: Global, failing: u64) -> Result<Trace, Fault> {
        let FileFixture { chunks, file, .. } = self.fixture;
        let memory = MemFile::new(Vec::from_slice(alloc, file)?);
        let mut device = OutOfMemory::new(memory, failing);
        let mut trace = Trace::new();
        add_session(
            &mut trace,
            &append_session(alloc, &mut device, &chunks.chunks),
        );
        trace.add_failures(device.failures());
        let bytes = device.into_inner().into_inner();
        add_kept(alloc, chunks, file, &bytes, &mut trace)?;
        Ok(trace)
    }
}

#[test]
fn memory_stops_growing_at_each_write(rt: HostRuntime) -> Result<(), Fault> {
    let alloc = rt.alloc();
    for big_endian in [false, true] {
        let fixture = make_file_fixture(alloc, big_endian)?;
        let run = AppendRun { fixture: &fixture };
        if let Some(mismatch) = first_mismatch(alloc, &run, ON_DEVICE_FAILURE)? {
            assert!(rt; false, "{mismatch}");
        }
    }
    Ok(())
}

#[test]
fn any_allocation_may_fail(rt: HostRuntime) -> Result<(), Fault> {
    let alloc = rt.alloc();
    let fixture = make_file_fixture(alloc, false)?;
    let trace = AppendRun { fixture: &fixture }.run(alloc, NEVER)?;
    let texts = Alternatives(ON_ALLOCATION_FAILURE);
    assert!(rt;
        trace.is_one_of(ON_ALLOCATION_FAILURE),
        "expected one of:{texts}\ngot:{trace}"
    );
    Ok(())
}
