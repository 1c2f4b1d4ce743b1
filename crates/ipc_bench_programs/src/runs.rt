//! `ipcat` and `ipconvert` in memory, where any allocation may fail.
//!
//! In an ordinary run no allocation fails. `make refused` runs the tests with each of their
//! allocations failing in turn.

use arrow2_ipc::io::ipc::fault::{Fault, MemFile};
use bench_devices::fixtures::empty_buffer;
use ipc_programs::{cat, convert};
use std::alloc::Global;

// These arguments.
fn words_of(alloc: Global, words: &[&str]) -> Result<Vec<String>, Fault> {
    let mut list = Vec::new(alloc);
    for word in words {
        list.push(word.to_string(alloc)?)?;
    }
    Ok(list)
}

// The output of a successful run. The error is `Memory` if the run reported that, else `Ended`.
fn output_of(status: u8, out: Vec<u8>, err: &[u8]) -> Result<Vec<u8>, Fault> {
    if status == 0 && err.is_empty() {
        Ok(out)
    } else if status == 1 && err.ends_with(b": no memory\n") {
        Err(Fault::Memory)
    } else {
        Err(Fault::Ended)
    }
}

// What `ipcat` prints of an input, or of a file.
fn print(alloc: Global, words: &[&str], input: &[u8]) -> Result<Vec<u8>, Fault> {
    let words = words_of(alloc, words)?;
    let file = Some(MemFile::new(input));
    let mut out = empty_buffer(alloc)?;
    let mut err = empty_buffer(alloc)?;
    let mut input = MemFile::new(input);
    let status = cat::run(alloc, &words, &mut input, file, &mut out, &mut err);
    output_of(status, out, &err)
}

// What `ipconvert` makes of an input, or of a file.
fn convert(alloc: Global, words: &[&str], input: &[u8]) -> Result<Vec<u8>, Fault> {
    let words = words_of(alloc, words)?;
    let file = Some(MemFile::new(Vec::from_slice(alloc, input)?));
    let mut out = empty_buffer(alloc)?;
    let mut err = empty_buffer(alloc)?;
    let mut input = MemFile::new(input);
    let no_target: Option<MemFile<Vec<u8>>> = None;
    let status = convert::run(
        alloc, &words, &mut input, file, no_target, &mut out, &mut err,
    );
    output_of(status, out, &err)
}

// Three rows of both columns of the example, the second one first.
const THREE_ROWS: &str = "schema 2
\"y\"
\"x\"
chunk 2
1\t-1
-1\t1
chunk 1
1\t-1
chunk 0
chunk 0
chunk 0
end
";

// The example as a stream, as a file, and as a stream again, in the other byte order.
#[test]
fn example_is_converted_and_shown(rt: HostRuntime) -> Result<(), Fault> {
    let alloc = rt.alloc();
    let stream = print(alloc, &["demo"], &[])?;
    let file = convert(alloc, &["-", "file", "big"], &stream)?;
    let shown = print(alloc, &["file", "p", "1,0", "3"], &file)?;
    assert!(rt; shown.as_slice() == THREE_ROWS.as_bytes());
    let again = convert(alloc, &["p", "stream"], &file)?;
    assert!(rt; again == stream);
    Ok(())
}
