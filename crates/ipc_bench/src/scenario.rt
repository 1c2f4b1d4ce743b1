//! What is done with a device that may fail.

use crate::{message_write, stream_read, stream_write};
use arrow2_ipc::io::ipc::fault::{Fault, Watched};
use arrow2_ipc::io::ipc::write::{StreamWriter, WriteOptions};
use bench_devices::dictionary_chunks::{DictionaryChunks, make_dictionary_chunks};
use bench_devices::failing_runs::FailingRun;
use bench_devices::faulty::{Flaky, OneByte, TestFile};
use bench_devices::fixtures::{buffer_of, empty_buffer};
use bench_devices::trace::Trace;
use std::alloc::Global;

/// What is done with a device.
#[derive(Clone, Copy)]
pub enum Scenario {
    WriteStream,
    ReadStream,
    WriteMessages,
}

/// The chunks `a`, `b` and `c`, and their stream.
///
/// It is the one that a writer with these options writes.
#[derive(Drop)]
pub struct StreamFixture {
    pub chunks: DictionaryChunks,
    pub options: WriteOptions,
    pub stream: Vec<u8>,
}

pub fn make_stream_fixture(alloc: Global, big_endian: bool) -> Result<StreamFixture, Fault> {
    let chunks = make_dictionary_chunks(alloc)?;
    let options = WriteOptions { big_endian };
    let mut writer = StreamWriter::new(alloc, empty_buffer(alloc)?, options);
    write_chunks(&mut writer, &chunks)?;
    Ok(StreamFixture {
        chunks,
        options,
        stream: writer.into_inner(),
    })
}

fn write_chunks(
    writer: &mut StreamWriter<Vec<u8>>,
    chunks: &DictionaryChunks,
) -> Result<(), Fault> {
    writer.start(&chunks.schema, None)?;
    for chunk in chunks.chunks.iter() {
        writer.write(chunk, None)?;
    }
    writer.finish()
}

// The bytes of the device when a scenario begins, in a buffer that doesn't grow.
fn input(alloc: Global, fixture: &StreamFixture, scenario: Scenario) -> Result<Vec<u8>, Fault> {
    match scenario {
        Scenario::ReadStream => buffer_of(alloc, &fixture.stream),
        Scenario::WriteStream | Scenario::WriteMessages => empty_buffer(alloc),
    }
}

/// The calls of a scenario.
#[derive(Clone, Copy)]
pub struct ScenarioRun<'a> {
    pub fixture: &'a StreamFixture,
    pub scenario: Scenario,
}

impl<'a> FailingRun for ScenarioRun<'a> {
    fn run(&self, alloc: Global, failing: u64) -> Result<Trace, Fault> {
        let ScenarioRun { fixture, scenario } = *self;
        let device = Flaky::new(input(alloc, fixture, scenario)?, failing);
        run(alloc, fixture, scenario, Watched::new(device))
    }
}

/// What the calls of a scenario return whose device moves one byte a call.
pub fn run_one_byte(
    alloc: Global,
    fixture: &StreamFixture,
    scenario: Scenario,
) -> Result<Trace, Fault> {
    let device = OneByte::new(input(alloc, fixture, scenario)?);
    run(alloc, fixture, scenario, Watched::new(device))
}

fn run<D: TestFile>(
    alloc: Global,
    fixture: &StreamFixture,
    scenario: Scenario,
    device: Watched<D>,
) -> Result<Trace, Fault> {
    match scenario {
        Scenario::WriteStream => Ok(stream_write::write_stream(alloc, fixture, device)),
        Scenario::ReadStream => stream_read::read_stream(alloc, fixture, device),
        Scenario::WriteMessages => message_write::write_messages(alloc, device),
    }
}
