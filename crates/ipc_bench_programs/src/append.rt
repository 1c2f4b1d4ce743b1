//! `ipconvert append` on a device that may fail.

use arrow2_ipc::io::ipc::fault::{Failures, Fault, MemFile, Watched};
use arrow2_ipc::io::ipc::write::WriteOptions;
use bench_devices::dictionary_chunks::{DictionaryChunks, make_dictionary_chunks};
use bench_devices::dictionary_file::{add_kept, make_dictionary_file};
use bench_devices::failing_runs::{FailingRun, first_mismatch};
use bench_devices::faulty::{Flaky, NEVER, OneByte, TestFile};
use bench_devices::fixtures::{buffer_of, empty_buffer};
use bench_devices::trace::{Alternatives, Answer, Call, Trace};
use ipc_programs::convert::run;
use std::alloc::Global;

const ON_DEVICE_FAILURE: &[&str] = &[
    "
    ipconvert io
    device: 1 failure
    old bytes: kept
    old chunks: kept
    ",
    "
    ipconvert ok
    device: no failure
    old bytes: kept
    old chunks: kept
    ",
];

const ON_ALLOCATION_FAILURE: &[&str] = &[
    "
    ipconvert ok
    device: no failure
    old bytes: kept
    old chunks: kept
    ",
    "
    ipconvert memory
    device: no failure
    old bytes: kept
    old chunks: kept
    ",
];

// The dictionary chunks, and the file of `a`, `b`, `a`, `b` and `a`.
#[derive(Drop)]
struct FileFixture {
    chunks: DictionaryChunks,
    file: Vec<u8>,
}

fn make_file_fixture(alloc: Global, big_endian: bool) -> Result<FileFixture, Fault> {
    let chunks = make_dictionary_chunks(alloc)?;
    let file = make_dictionary_file(alloc, &chunks, WriteOptions { big_endian })?;
    Ok(FileFixture { chunks, file })
}

// What a run returned, by its status and its error output.
fn answer_of(status: u8, err: &[u8]) -> Answer {
    if status == 0 && err.is_empty() {
        Answer::Success
    } else if status == 1 && err == b"ipconvert: input or output failed\n".as_slice() {
        Answer::Io
    } else if status == 1 && err == b"ipconvert: no memory\n".as_slice() {
        Answer::Memory
    } else {
        Answer::Refused
    }
}

// `ipconvert append` of the chunks of a file to the file itself, which is on this device. The input
// is the stream after the first eight bytes of the file.
fn append<D: TestFile>(
    alloc: Global,
    fixture: &FileFixture,
    mut device: Watched<D>,
) -> Result<Trace, Fault> {
    let words = vec![in alloc; "append".to_string(alloc)?, "p".to_string(alloc)?]?;
    let mut input = MemFile::new(fixture.file.get(8..).unwrap_or(&[]));
    let mut out = Vec::new(alloc);
    let mut err = empty_buffer(alloc)?;
    let no_file: Option<MemFile<Vec<u8>>> = None;
    let target = Some(&mut device);
    let status = run(
        alloc, &words, &mut input, no_file, target, &mut out, &mut err,
    );
    let mut trace = Trace::new();
    trace.add(Call::Convert, answer_of(status, &err));
    trace.add_failures(device.failures());
    let bytes = device.into_inner().into_bytes();
    add_kept(alloc, &fixture.chunks, &fixture.file, &bytes, &mut trace)?;
    Ok(trace)
}

// The same, on a device that fails.
#[derive(Clone, Copy)]
struct AppendRun<'a> {
    fixture: &'a FileFixture,
}

impl<'a> FailingRun for AppendRun<'a> {
    fn run(&self, alloc: Global, failing: u64) -> Result<Trace, Fault> {
        let device = Flaky::new(buffer_of(alloc, &self.fixture.file)?, failing);
        append(alloc, self.fixture, Watched::new(device))
    }
}

#[test]
fn device_fails_at_each_call(rt: HostRuntime) -> Result<(), Fault> {
    let alloc = rt.alloc();
    for big_endian in [false, true] {
        let fixture = make_file_fixture(alloc, big_endian)?;
        let run = AppendRun { fixture: &fixture };
        if let Some(mismatch) = first_mismatch(alloc, &run, ON_DEVICE_FAILURE)? {
            assert!(rt; false, "{mismatch}");
        }
    }
    Ok(())
}

#[test]
fn device_moves_one_byte_a_call(rt: HostRuntime) -> Result<(), Fault> {
    let alloc = rt.alloc();
    for big_endian in [false, true] {
        let fixture = make_file_fixture(alloc, big_endian)?;
        let device = OneByte::new(buffer_of(alloc, &fixture.file)?);
        let trace = append(alloc, &fixture, Watched::new(device))?.unless_out_of_memory()?;
        let expected = ON_DEVICE_FAILURE.last().copied().unwrap_or("");
        assert!(rt; trace.is(expected), "expected:{expected}\ngot:{trace}");
    }
    Ok(())
}

// In an ordinary run no allocation fails. `make refused` runs the test with each of its allocations
// failing in turn.
#[test]
fn any_allocation_may_fail(rt: HostRuntime) -> Result<(), Fault> {
    let alloc = rt.alloc();
    let fixture = make_file_fixture(alloc, false)?;
    let trace = AppendRun { fixture: &fixture }.run(alloc, NEVER)?;
    let texts = Alternatives(ON_ALLOCATION_FAILURE);
    assert!(rt;
        trace.is_one_of(ON_ALLOCATION_FAILURE),
        "expected one of:{texts}\ngot:{trace}"
    );
    Ok(())
}
