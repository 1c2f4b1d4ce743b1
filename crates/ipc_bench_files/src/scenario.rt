//! What is done with a device that may fail.

use crate::{append, append_sessions, batch_read, file_read, file_write};
use arrow2_ipc::io::ipc::fault::{Fault, Watched};
use arrow2_ipc::io::ipc::write::WriteOptions;
use bench_devices::dictionary_chunks::{DictionaryChunks, make_dictionary_chunks};
use bench_devices::dictionary_file::make_dictionary_file;
use bench_devices::failing_runs::FailingRun;
use bench_devices::faulty::{Flaky, OneByte, TestFile};
use bench_devices::fixtures::{buffer_of, empty_buffer};
use bench_devices::trace::Trace;
use std::alloc::Global;

/// What is done with a device.
#[derive(Clone, Copy)]
pub enum Scenario {
    WriteFile,
    StartFile,
    ReadFile,
    ReadBatches,
    Append,
    AppendTwice,
}

/// The chunks `a`, `b` and `c`, and the file of `a`, `b`, `a`, `b` and `a`.
///
/// It is the one that a writer with these options writes.
#[derive(Drop)]
pub struct FileFixture {
    pub chunks: DictionaryChunks,
    pub options: WriteOptions,
    pub file: Vec<u8>,
}

pub fn make_file_fixture(alloc: Global, big_endian: bool) -> Result<FileFixture, Fault> {
    let chunks = make_dictionary_chunks(alloc)?;
    let options = WriteOptions { big_endian };
    let file = make_dictionary_file(alloc, &chunks, options)?;
    Ok(FileFixture {
        chunks,
        options,
        file,
    })
}

// The bytes of the device when a scenario begins, in a buffer that doesn't grow.
fn input(alloc: Global, fixture: &FileFixture, scenario: Scenario) -> Result<Vec<u8>, Fault> {
    match scenario {
        Scenario::WriteFile | Scenario::StartFile => empty_buffer(alloc),
        _ => buffer_of(alloc, &fixture.file),
    }
}

/// The calls of a scenario.
#[derive(Clone, Copy)]
pub struct ScenarioRun<'a> {
    pub fixture: &'a FileFixture,
    pub scenario: Scenario,
}

impl<'a> FailingRun for ScenarioRun<'a> {
    fn run(&self, alloc: Global, failing: u64) -> Result<Trace, Fault> {
        let ScenarioRun { fixture, scenario } = *self;
        let device = Flaky::new(input(alloc, fixture, scenario)?, failing);
        run(alloc, fixture, scenario, Watched::new(device))
    }
}

/// What the calls of a scenario return whose device moves one byte a call.
pub fn run_one_byte(
    alloc: Global,
    fixture: &FileFixture,
    scenario: Scenario,
) -> Result<Trace, Fault> {
    let device = OneByte::new(input(alloc, fixture, scenario)?);
    run(alloc, fixture, scenario, Watched::new(device))
}

fn run<D: TestFile>(
    alloc: Global,
    fixture: &FileFixture,
    scenario: Scenario,
    device: Watched<D>,
) -> Result<Trace, Fault> {
    match scenario {
        Scenario::WriteFile => file_write::write_file(alloc, fixture, device),
        Scenario::StartFile => file_write::start_file(alloc, fixture, device),
        Scenario::ReadFile => file_read::read_file(alloc, fixture, device),
        Scenario::ReadBatches => batch_read::read_batches(alloc, fixture, device),
        Scenario::Append => append::append(alloc, fixture, device),
        Scenario::AppendTwice => append_sessions::append_twice(alloc, fixture, device),
    }
}
