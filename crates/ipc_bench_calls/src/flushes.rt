//! Writers that are flushed.

use arrow2_ipc::datatypes::Schema;
use arrow2_ipc::io::ipc::fault::{Fault, StateFault, Watched};
use arrow2_ipc::io::ipc::write::{FileWriter, StreamWriter, WriteOptions, WriterState};
use std::alloc::Global;
use std::io;
use std::io::ErrorKind;
use std::test::Fail;

// A device that takes all bytes, counts its flushes, and fails in one of them.
#[derive(Drop)]
struct Flushes {
    count: u64,
    failing: u64,
}

impl io::Write for Flushes {
    fn write(&mut self, buf: &[u8]) -> io::Result<usize> {
        Ok(buf.len())
    }

    fn flush(&mut self) -> io::Result<()> {
        self.count = self.count.saturating_add(1);
        if self.count == self.failing {
            return Err(io::Error::from(ErrorKind::TimedOut));
        }
        Ok(())
    }
}

// A device whose flush of this number fails; of number 0 none does.
fn device(failing: u64) -> Watched<Flushes> {
    Watched::new(Flushes { count: 0, failing })
}

fn no_columns(alloc: Global) -> Schema {
    Schema::from(Vec::new(alloc))
}

fn stream_to(alloc: Global, failing: u64) -> StreamWriter<Watched<Flushes>> {
    StreamWriter::new(alloc, device(failing), WriteOptions::default())
}

fn file_to(alloc: Global, failing: u64) -> Result<FileWriter<Watched<Flushes>>, Fault> {
    let options = WriteOptions::default();
    FileWriter::new(alloc, device(failing), no_columns(alloc), None, options)
}

fn is_timed_out(flushed: Result<(), Fault>) -> bool {
    match flushed {
        Err(Fault::Io(error)) => error.kind() == ErrorKind::TimedOut,
        _ => false,
    }
}

fn is_failed(answer: Result<(), Fault>) -> bool {
    matches!(answer, Err(Fault::State(StateFault::Failed)))
}

#[test]
fn streams_are_flushed_in_each_state(rt: HostRuntime) -> Result<(), Fail> {
    let mut writer = stream_to(rt.alloc(), 0);
    writer.flush()?;
    assert_eq!(rt; writer.state(), WriterState::New);
    writer.start(&no_columns(rt.alloc()), None)?;
    writer.flush()?;
    assert_eq!(rt; writer.state(), WriterState::Started);
    writer.finish()?;
    writer.flush()?;
    assert_eq!(rt; writer.state(), WriterState::Finished);
    assert_eq!(rt; writer.into_inner().into_inner().count, 4);
    Ok(())
}

#[test]
fn failed_flush_ends_a_stream(rt: HostRuntime) -> Result<(), Fail> {
    let mut writer = stream_to(rt.alloc(), 1);
    writer.start(&no_columns(rt.alloc()), None)?;
    assert!(rt; is_timed_out(writer.flush()));
    assert!(rt; is_failed(writer.flush()));
    assert!(rt; is_failed(writer.finish()));
    assert_eq!(rt; writer.into_inner().into_inner().count, 1);
    Ok(())
}

#[test]
fn finished_stream_stays_finished(rt: HostRuntime) -> Result<(), Fail> {
    let mut writer = stream_to(rt.alloc(), 2);
    writer.start(&no_columns(rt.alloc()), None)?;
    writer.finish()?;
    assert!(rt; is_timed_out(writer.flush()));
    assert_eq!(rt; writer.state(), WriterState::Finished);
    writer.flush()?;
    Ok(())
}

#[test]
fn files_are_flushed_in_each_state(rt: HostRuntime) -> Result<(), Fail> {
    let mut writer = file_to(rt.alloc(), 0)?;
    writer.flush()?;
    assert_eq!(rt; writer.state(), WriterState::New);
    writer.start()?;
    writer.flush()?;
    assert_eq!(rt; writer.state(), WriterState::Started);
    writer.finish()?;
    writer.flush()?;
    assert_eq!(rt; writer.state(), WriterState::Finished);
    assert_eq!(rt; writer.into_inner().into_inner().count, 4);
    Ok(())
}

#[test]
fn failed_flush_ends_a_file(rt: HostRuntime) -> Result<(), Fail> {
    let mut writer = file_to(rt.alloc(), 1)?;
    writer.start()?;
    assert!(rt; is_timed_out(writer.flush()));
    assert!(rt; is_failed(writer.flush()));
    assert!(rt; is_failed(writer.finish()));
    assert_eq!(rt; writer.into_inner().into_inner().count, 1);
    Ok(())
}

#[test]
fn finished_file_stays_finished(rt: HostRuntime) -> Result<(), Fail> {
    let mut writer = file_to(rt.alloc(), 2)?;
    writer.start()?;
    writer.finish()?;
    assert!(rt; is_timed_out(writer.flush()));
    assert_eq!(rt; writer.state(), WriterState::Finished);
    writer.flush()?;
    Ok(())
}
