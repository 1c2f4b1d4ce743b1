//! `ipcat` and `ipconvert` print to a device that may fail.

use arrow2_ipc::io::ipc::fault::{Fault, MemFile, Watched};
use bench_devices::faulty::{Flaky, NEVER, TestFile};
use bench_devices::fixtures::empty_buffer;
use ipc_programs::{cat, convert};
use std::alloc::Global;
use std::cell::Cell;
use std::io;
use std::io::{Cursor, ErrorKind};

// The status of a run, and what it printed.
#[derive(Drop)]
struct Printed {
    status: u8,
    out: Vec<u8>,
    err: Vec<u8>,
}

// The number of the first call of a device.
const FIRST: u64 = 1;

// Output to memory, of which this call fails.
fn make_output(alloc: Global, failing: u64) -> Result<Watched<Flaky>, Fault> {
    Ok(Watched::new(Flaky::new(empty_buffer(alloc)?, failing)))
}

fn bytes_of(output: Watched<Flaky>) -> Vec<u8> {
    output.into_inner().into_bytes()
}

// A run of `ipcat` with one argument, on an empty input. These calls of the output and of the error
// output fail.
fn print(alloc: Global, word: &str, out: u64, err: u64) -> Result<Printed, Fault> {
    let words = vec![in alloc; word.to_string(alloc)?]?;
    let mut input = MemFile::new([].as_slice());
    let no_file: Option<MemFile<&[u8]>> = None;
    let mut out = make_output(alloc, out)?;
    let mut err = make_output(alloc, err)?;
    let status = cat::run(alloc, &words, &mut input, no_file, &mut out, &mut err);
    Ok(Printed {
        status,
        out: bytes_of(out),
        err: bytes_of(err),
    })
}

#[test]
fn ipcat_reports_a_failed_output_and_ignores_a_failed_error_output(
    rt: HostRuntime,
) -> Result<(), Fault> {
    let alloc = rt.alloc();
    let printed = print(alloc, "demo", FIRST, NEVER)?;
    if printed.err.as_slice() == b"ipcat: no memory\n".as_slice() {
        return Err(Fault::Memory);
    }
    assert_eq!(rt; printed.status, 1);
    assert_eq!(rt;
        printed.err.as_slice(),
        b"ipcat: input or output failed\n".as_slice()
    );
    let printed = print(alloc, "stream", NEVER, FIRST)?;
    assert_eq!(rt; printed.status, 1);
    assert!(rt; printed.out.is_empty() && printed.err.is_empty());
    let printed = print(alloc, "nothing", NEVER, FIRST)?;
    assert_eq!(rt; printed.status, 2);
    Ok(())
}

// A device that takes all bytes, and whose flush fails.
#[derive(Drop)]
struct FlushFails;

impl io::Write for FlushFails {
    fn write(&mut self, buf: &[u8]) -> io::Result<usize> {
        Ok(buf.len())
    }

    fn flush(&mut self) -> io::Result<()> {
        Err(io::Error::from(ErrorKind::BrokenPipe))
    }
}

// A run of `ipcat` with one argument, on this input, whose output can't be flushed.
fn print_unflushed(alloc: Global, word: &str, input: &[u8]) -> Result<Printed, Fault> {
    let words = vec![in alloc; word.to_string(alloc)?]?;
    let mut input = MemFile::new(input);
    let no_file: Option<MemFile<&[u8]>> = None;
    let mut out = Watched::new(FlushFails);
    let mut err = empty_buffer(alloc)?;
    let status = cat::run(alloc, &words, &mut input, no_file, &mut out, &mut err);
    if err.as_slice() == b"ipcat: no memory\n".as_slice() {
        return Err(Fault::Memory);
    }
    let out = Vec::new(alloc);
    Ok(Printed { status, out, err })
}

// The example, as `ipcat demo` prints it.
fn make_example(alloc: Global) -> Result<Vec<u8>, Fault> {
    let printed = print(alloc, "demo", NEVER, NEVER)?;
    if printed.status != 0 {
        return Err(Fault::Memory);
    }
    Ok(printed.out)
}

#[test]
fn ipcat_flushes_its_output(rt: HostRuntime) -> Result<(), Fault> {
    let alloc = rt.alloc();
    let example = make_example(alloc)?;
    for word in ["demo", "stream"] {
        let printed = print_unflushed(alloc, word, &example)?;
        assert_eq!(rt; printed.status, 1);
        assert_eq!(rt;
            printed.err.as_slice(),
            b"ipcat: input or output failed\n".as_slice()
        );
    }
    Ok(())
}

// An output that counts the bytes that it takes.
#[derive(Drop)]
struct Counted<'a> {
    printed: &'a Cell<usize>,
}

impl io::Write for Counted<'_> {
    fn write(&mut self, buf: &[u8]) -> io::Result<usize> {
        self.printed
            .set(self.printed.get().saturating_add(buf.len()));
        Ok(buf.len())
    }

    fn flush(&mut self) -> io::Result<()> {
        Ok(())
    }
}

// An input that records how many bytes were printed when its bytes from an offset on were first
// read.
#[derive(Drop)]
struct Observer<'a> {
    input: Cursor<Vec<u8>>,
    offset: u64,
    printed: &'a Cell<usize>,
    noted: Option<usize>,
}

impl io::Read for Observer<'_> {
    fn read(&mut self, buf: &mut [u8]) -> io::Result<usize> {
        if self.noted.is_none() && self.input.position() >= self.offset {
            self.noted = Some(self.printed.get());
        }
        io::Read::read(&mut self.input, buf)
    }
}

// The encoded length of the schema of the example (8 + 416 bytes) and of its first chunk
// (8 + 240 + 128 bytes).
const FIRST_CHUNK_END: u64 = 800;

#[test]
fn ipcat_sends_a_chunk_before_it_reads_the_next(rt: HostRuntime) -> Result<(), Fault> {
    let alloc = rt.alloc();
    let printed = Cell::new(0usize);
    let words = vec![in alloc; "stream".to_string(alloc)?]?;
    let mut input = Watched::new(Observer {
        input: Cursor::new(make_example(alloc)?),
        offset: FIRST_CHUNK_END,
        printed: &printed,
        noted: None,
    });
    let no_file: Option<MemFile<&[u8]>> = None;
    let mut out = Watched::new(Counted { printed: &printed });
    let mut err = empty_buffer(alloc)?;
    let status = cat::run(alloc, &words, &mut input, no_file, &mut out, &mut err);
    if err.as_slice() == b"ipcat: no memory\n".as_slice() {
        return Err(Fault::Memory);
    }
    let first = b"schema 2\n\"x\"\n\"y\"\nchunk 2\n-1\t1\n1\t-1\n";
    assert_eq!(rt; status, 0);
    assert_eq!(rt; input.into_inner().noted, Some(first.len()));
    Ok(())
}

// A run of `ipconvert` of an empty input to this target. This call of the error output fails.
fn convert_to(alloc: Global, target: &str, err: u64) -> Result<Printed, Fault> {
    let words = vec![in alloc; "-".to_string(alloc)?, target.to_string(alloc)?]?;
    let mut input = MemFile::new([].as_slice());
    let no_file: Option<MemFile<Vec<u8>>> = None;
    let no_target: Option<MemFile<Vec<u8>>> = None;
    let mut out = empty_buffer(alloc)?;
    let mut err = make_output(alloc, err)?;
    let status = convert::run(
        alloc, &words, &mut input, no_file, no_target, &mut out, &mut err,
    );
    Ok(Printed {
        status,
        out,
        err: bytes_of(err),
    })
}

#[test]
fn ipconvert_ignores_a_failed_error_output(rt: HostRuntime) -> Result<(), Fault> {
    let alloc = rt.alloc();
    let printed = convert_to(alloc, "stream", FIRST)?;
    assert_eq!(rt; printed.status, 1);
    assert!(rt; printed.out.is_empty() && printed.err.is_empty());
    let printed = convert_to(alloc, "nothing", FIRST)?;
    assert_eq!(rt; printed.status, 2);
    assert!(rt; printed.out.is_empty() && printed.err.is_empty());
    Ok(())
}
