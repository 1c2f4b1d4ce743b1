//! Properties of devices that no contract states.
//!
//! There are `Watched` devices that fail, that take nothing and that count their flushes. There are
//! vectors that grow, writers that flush, and reads of many bytes.

use arrow2_ipc::io::ipc::write::{FileWriter, StreamWriter, WriteOptions};
use bench_devices::fixtures::{error_of, make_example};
use ipc_devices::{
    Failures, Fault, MemFile, Reads, Seeks, StateFault, Watched, Writes, read_bytes, read_into,
};
use std::alloc::Global;
use std::io;
use std::io::{ErrorKind, SeekFrom};

// A device that fails in every call, each method with its own error.
#[derive(Drop)]
struct Broken;

impl io::Read for Broken {
    fn read(&mut self, _buf: &mut [u8]) -> io::Result<usize> {
        Err(io::Error::from(ErrorKind::BrokenPipe))
    }
}

impl io::Write for Broken {
    fn write(&mut self, _buf: &[u8]) -> io::Result<usize> {
        Err(io::Error::from(ErrorKind::StorageFull))
    }

    fn flush(&mut self) -> io::Result<()> {
        Err(io::Error::from(ErrorKind::TimedOut))
    }
}

impl io::Seek for Broken {
    fn seek(&mut self, _to: SeekFrom) -> io::Result<u64> {
        Err(io::Error::from(ErrorKind::NotSeekable))
    }
}

fn has_kind<X>(outcome: &io::Result<X>, kind: ErrorKind) -> bool {
    match outcome {
        Err(error) => error.kind() == kind,
        Ok(_) => false,
    }
}

// Whether each call that reads passes the error on as it is.
fn reads_fail(device: &mut Watched<Broken>) -> bool {
    has_kind(&device.read(&mut [0; 2]), ErrorKind::BrokenPipe)
        && has_kind(&device.skip(2), ErrorKind::BrokenPipe)
}

// The same of each call that writes, also of a write of nothing.
fn writes_fail(device: &mut Watched<Broken>) -> bool {
    has_kind(&device.write(b"ab"), ErrorKind::StorageFull)
        && has_kind(&device.write(b""), ErrorKind::StorageFull)
        && has_kind(&Writes::flush(device), ErrorKind::TimedOut)
}

// The same of each call that seeks.
fn seeks_fail(device: &mut Watched<Broken>) -> bool {
    has_kind(&device.seek_to(1), ErrorKind::NotSeekable)
        && has_kind(&device.seek_end(), ErrorKind::NotSeekable)
        && has_kind(&device.position(), ErrorKind::NotSeekable)
}

// Each error is counted once.
#[test]
fn watched_device_passes_errors_on(rt: HostRuntime) -> Result<(), Fault> {
    let mut device = Watched::new(Broken);
    assert!(rt; reads_fail(&mut device));
    assert!(rt; writes_fail(&mut device));
    assert!(rt; seeks_fail(&mut device));
    assert_eq!(rt; device.failures(), 8);
    assert_eq!(rt; device.given(), 0);
    Ok(())
}

// A write makes a full vector grow, and so does a write to a file over one.
#[test]
fn writes_grow_full_vectors(rt: HostRuntime) -> Result<(), Fault> {
    let mut bytes = Vec::from_slice(rt.alloc(), b"a")?;
    bytes.shrink_to_fit();
    assert_eq!(rt; bytes.write(b"bcd")?, 3);
    assert_eq!(rt; bytes.as_slice(), b"abcd".as_slice());
    bytes.shrink_to_fit();
    let mut file = MemFile::new(bytes);
    file.seek_to(3)?;
    assert_eq!(rt; file.write(b"xyz")?, 3);
    assert_eq!(rt; file.into_inner().as_slice(), b"abcxyz".as_slice());
    Ok(())
}

// As many bytes as are read at once, twice, and one byte more.
fn many_bytes(alloc: Global) -> Result<Vec<u8>, Fault> {
    let mut bytes = Vec::new(alloc);
    bytes.resize(65_536, 1)?;
    bytes.resize(131_073, 2)?;
    Ok(bytes)
}

// At most 65,536 bytes are read at once, whatever their number.
#[test]
fn many_bytes_are_read_in_pieces(rt: HostRuntime) -> Result<(), Fault> {
    let alloc = rt.alloc();
    let source = many_bytes(alloc)?;
    let mut bytes = Vec::from_slice(alloc, b"old")?;
    read_into(&mut MemFile::new(source.as_slice()), &mut bytes, 131_073)?;
    assert!(rt; bytes == source);
    let bytes = read_bytes(alloc, &mut MemFile::new(source.as_slice()), 65_537)?;
    assert!(rt; bytes.as_slice() == source.get(..65_537).unwrap_or(&[]));
    Ok(())
}

// A device that takes no bytes.
#[derive(Drop)]
struct TakesNothing;

impl io::Write for TakesNothing {
    fn write(&mut self, _buf: &[u8]) -> io::Result<usize> {
        Ok(0)
    }

    fn flush(&mut self) -> io::Result<()> {
        Ok(())
    }
}

// Whether this is the error of a read of `Broken`.
fn is_broken_pipe(fault: &Option<Fault>) -> bool {
    match fault {
        Some(Fault::Io(error)) => error.kind() == ErrorKind::BrokenPipe,
        _ => false,
    }
}

#[test]
fn watched_device_counts_failures(rt: HostRuntime) -> Result<(), Fault> {
    let mut broken = Watched::new(Broken);
    assert!(rt; is_broken_pipe(&error_of(read_bytes(rt.alloc(), &mut broken, 1))?));
    assert_eq!(rt; broken.failures(), 1);
    let mut full = Watched::new(TakesNothing);
    assert!(rt; full.write(b"a").is_err());
    assert_eq!(rt; full.failures(), 1);
    assert_eq!(rt; full.write(b"")?, 0);
    full.flush()?;
    Ok(())
}

// A device that counts its flushes.
#[derive(Drop)]
struct CountsFlushes {
    count: u64,
}

impl io::Write for CountsFlushes {
    fn write(&mut self, buf: &[u8]) -> io::Result<usize> {
        Ok(buf.len())
    }

    fn flush(&mut self) -> io::Result<()> {
        self.count = self.count.saturating_add(1);
        Ok(())
    }
}

#[test]
fn watched_device_forwards_flush(rt: HostRuntime) -> Result<(), Fault> {
    let mut device = Watched::new(CountsFlushes { count: 0 });
    Writes::flush(&mut device)?;
    let mut borrowed = &mut device;
    Writes::flush(&mut borrowed)?;
    assert_eq!(rt; device.failures(), 0);
    assert_eq!(rt; device.into_inner().count, 2);
    Ok(())
}

// Writes the example as a stream to a device.
fn write_stream<W: Writes + Drop>(
    alloc: Global,
    writer: &mut StreamWriter<W>,
) -> Result<(), Fault> {
    let example = make_example(alloc)?;
    writer.start(&example.schema, None)?;
    writer.write(&example.chunk, None)?;
    writer.finish()
}

// A writer of a file of the example on a device, which has all but the footer.
fn make_file_writer<W: Writes + Drop>(alloc: Global, device: W) -> Result<FileWriter<W>, Fault> {
    let example = make_example(alloc)?;
    let schema = example.schema.clone()?;
    let options = WriteOptions::default();
    let mut writer = FileWriter::try_new(alloc, device, schema, None, options)?;
    writer.write(&example.chunk, None)?;
    Ok(writer)
}

#[test]
fn finish_flushes_once(rt: HostRuntime) -> Result<(), Fault> {
    let alloc = rt.alloc();
    let mut device = Watched::new(CountsFlushes { count: 0 });
    let mut stream = StreamWriter::new(alloc, &mut device, WriteOptions::default());
    write_stream(alloc, &mut stream)?;
    drop(stream);
    assert_eq!(rt; device.into_inner().count, 1);
    let mut device = Watched::new(CountsFlushes { count: 0 });
    let mut file = make_file_writer(alloc, &mut device)?;
    file.finish()?;
    drop(file);
    assert_eq!(rt; device.into_inner().count, 1);
    Ok(())
}

// A device that takes all bytes, and whose flush fails.
#[derive(Drop)]
struct FlushFails;

impl io::Write for FlushFails {
    fn write(&mut self, buf: &[u8]) -> io::Result<usize> {
        Ok(buf.len())
    }

    fn flush(&mut self) -> io::Result<()> {
        Err(io::Error::from(ErrorKind::TimedOut))
    }
}

// Whether this is the error of a flush of `FlushFails`.
fn is_timed_out(fault: &Option<Fault>) -> bool {
    match fault {
        Some(Fault::Io(error)) => error.kind() == ErrorKind::TimedOut,
        _ => false,
    }
}

#[test]
fn failed_flush_is_an_error_of_finish(rt: HostRuntime) -> Result<(), Fault> {
    let alloc = rt.alloc();
    let device = Watched::new(FlushFails);
    let mut stream = StreamWriter::new(alloc, device, WriteOptions::default());
    assert!(rt; is_timed_out(&error_of(write_stream(alloc, &mut stream))?));
    let again = error_of(stream.finish())?;
    assert!(rt; matches!(again, Some(Fault::State(StateFault::Failed))));
    assert_eq!(rt; stream.into_inner().failures(), 1);
    let mut file = make_file_writer(alloc, Watched::new(FlushFails))?;
    assert!(rt; is_timed_out(&error_of(file.finish())?));
    let again = error_of(file.finish())?;
    assert!(rt; matches!(again, Some(Fault::State(StateFault::Failed))));
    assert_eq!(rt; file.into_inner().failures(), 1);
    Ok(())
}
