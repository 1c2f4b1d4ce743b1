//! A session appends chunks to a file.

use crate::example_file::make_example_file;
use crate::scenario::FileFixture;
use crate::sessions::add_writes;
use arrow2_ipc::io::ipc::fault::{ArgFault, Failures, Fault, MemFile, Watched};
use arrow2_ipc::io::ipc::read::{FileMetadata, read_file, read_file_metadata};
use arrow2_ipc::io::ipc::write::{
    FileWriter, Session, WriteOptions, append_session, append_to_file,
};
use bench_devices::dictionary_file::add_kept;
use bench_devices::faulty::TestFile;
use bench_devices::fixtures::{error_of, make_example};
use bench_devices::trace::{Answer, Call, Trace};
use std::alloc::Global;

/// The traces of `append` where a call of the device fails.
pub const ON_DEVICE_FAILURE: &[&str] = &[
    "
    append_session io
    device: 1 failure
    old bytes: kept
    old chunks: kept
    ",
    "
    write io
    write failed
    write failed
    finish failed
    device: 1 failure
    old bytes: kept
    old chunks: kept
    ",
    "
    write ok
    write io
    write failed
    finish failed
    device: 1 failure
    old bytes: kept
    old chunks: kept
    ",
    "
    write ok
    write ok
    write refused
    finish io
    device: 1 failure
    old bytes: kept
    old chunks: kept
    ",
    "
    write ok
    write ok
    write refused
    finish ok
    device: no failure
    old bytes: kept
    old chunks: kept
    ",
];

/// The traces of `append` where an allocation may fail.
pub const ON_ALLOCATION_FAILURE: &[&str] = &[
    "
    write ok
    write ok
    write refused
    finish ok
    device: no failure
    old bytes: kept
    old chunks: kept
    ",
    "
    append_session memory
    device: no failure
    old bytes: kept
    old chunks: kept
    ",
    "
    write memory
    write ok
    write refused
    finish ok
    device: no failure
    old bytes: kept
    old chunks: kept
    ",
    "
    write ok
    write memory
    write refused
    finish ok
    device: no failure
    old bytes: kept
    old chunks: kept
    ",
    "
    write ok
    write ok
    write memory
    finish ok
    device: no failure
    old bytes: kept
    old chunks: kept
    ",
    "
    write ok
    write ok
    write refused
    finish memory
    device: no failure
    old bytes: kept
    old chunks: kept
    ",
];

/// Appends the chunks `a`, `b` and `c` to the file of the fixture. The chunk `c` is refused: its
/// dictionary can't replace that of `a`.
pub fn append<D: TestFile>(
    alloc: Global,
    fixture: &FileFixture,
    mut device: Watched<D>,
) -> Result<Trace, Fault> {
    let mut trace = Trace::new();
    add_session(
        &mut trace,
        &append_session(alloc, &mut device, &fixture.chunks.chunks),
    );
    trace.add_failures(device.failures());
    let bytes = device.into_inner().into_bytes();
    add_kept(alloc, &fixture.chunks, &fixture.file, &bytes, &mut trace)?;
    Ok(trace)
}

/// Adds what the calls of a session returned.
pub fn add_session<W: Drop>(trace: &mut Trace, outcome: &Result<Session<W>, Fault>) {
    match outcome {
        Ok(session) => {
            add_writes(trace, &session.answers);
            trace.add_result(Call::Finish, &session.end);
        }
        Err(fault) => trace.add(Call::AppendSession, Answer::of_fault(fault)),
    }
}

// Makes a writer that appends to a file by these metadata, which need not be its own.
fn start_appending(alloc: Global, bytes: &Vec<u8>, metadata: FileMetadata) -> Result<(), Fault> {
    let device = MemFile::new(bytes.clone()?);
    let writer = FileWriter::try_from_file(alloc, device, metadata, WriteOptions::default())?;
    drop(writer);
    Ok(())
}

fn is_too_large(outcome: Result<(), Fault>) -> Result<bool, Fault> {
    let fault = error_of(outcome)?;
    Ok(matches!(fault, Some(Fault::Argument(ArgFault::TooLarge))))
}

// The same, by metadata with this size of the file in bytes.
fn start_appending_at(alloc: Global, size: u64) -> Result<(), Fault> {
    let bytes = make_example_file(alloc)?;
    let mut metadata = read_file_metadata(alloc, &mut MemFile::new(bytes.as_slice()))?;
    metadata.size = size;
    start_appending(alloc, &bytes, metadata)
}

// The offsets of blocks are signed numbers of 64 bits.
#[test]
fn file_of_two_to_the_63_bytes_is_refused(rt: HostRuntime) -> Result<(), Fault> {
    let alloc = rt.alloc();
    assert!(rt; is_too_large(start_appending_at(alloc, 1 << 63))?);
    assert!(rt; is_too_large(start_appending_at(alloc, u64::MAX))?);
    start_appending_at(alloc, (1 << 63) - 1)
}

// The example's file, to which its chunk is appended once more. A write that fails for want of
// memory leaves its chunk out, and then this is `Memory`.
fn example_appended(alloc: Global) -> Result<Vec<u8>, Fault> {
    let bytes = make_example_file(alloc)?;
    let metadata = read_file_metadata(alloc, &mut MemFile::new(bytes.as_slice()))?;
    let chunks = vec![in alloc; make_example(alloc)?.chunk]?;
    let session = append_to_file(alloc, MemFile::new(bytes), metadata, &chunks)?;
    match (session.answers.first(), &session.end) {
        (Some(Ok(())), Ok(())) => Ok(session.device.into_inner()),
        _ => Err(Fault::Memory),
    }
}

#[test]
fn chunk_is_appended_by_metadata_that_were_read(rt: HostRuntime) -> Result<(), Fault> {
    let alloc = rt.alloc();
    let bytes = example_appended(alloc)?;
    assert_eq!(rt; read_file(alloc, &bytes)?.chunks.len(), 2);
    Ok(())
}
