//! A refused `ipconvert append` leaves all bytes of a borrowed file as they were.

use arrow2_ipc::io::ipc::fault::{Fault, MemFile};
use arrow2_ipc::io::ipc::write::WriteOptions;
use bench_devices::dictionary_chunks::make_dictionary_chunks;
use bench_devices::dictionary_file::make_dictionary_file;
use bench_devices::fixtures::{buffer_of, empty_buffer};
use ipc_programs::convert::run;
use std::alloc::Global;

fn make_file(alloc: Global) -> Result<Vec<u8>, Fault> {
    let chunks = make_dictionary_chunks(alloc)?;
    make_dictionary_file(alloc, &chunks, WriteOptions::default())
}

// Whether `ipconvert append` of this input to a borrowed file is refused, with all bytes as they
// were.
fn is_refused(alloc: Global, file: &[u8], input: &[u8]) -> Result<bool, Fault> {
    let words = vec![in alloc; "append".to_string(alloc)?, "p".to_string(alloc)?]?;
    let mut device = MemFile::new(buffer_of(alloc, file)?);
    let mut input = MemFile::new(buffer_of(alloc, input)?);
    let mut out = Vec::new(alloc);
    let mut err = empty_buffer(alloc)?;
    let no_file: Option<MemFile<Vec<u8>>> = None;
    let append_to = Some(&mut device);
    let status = run(
        alloc, &words, &mut input, no_file, append_to, &mut out, &mut err,
    );
    Ok(status == 1 && device.into_inner().as_slice() == file)
}

fn flip(bytes: &mut [u8], i: usize) {
    if let Some(byte) = bytes.get_mut(i) {
        *byte ^= 0xff;
    }
}

// The input has no schema. One byte of the file after the other is another one.
#[test]
fn refused_file_is_as_it_was(rt: HostRuntime) -> Result<(), Fault> {
    let alloc = rt.alloc();
    let file = make_file(alloc)?;
    assert!(rt; is_refused(alloc, &file, &[])?);
    let mut changed = buffer_of(alloc, &file)?;
    for i in 0..file.len() {
        flip(&mut changed, i);
        assert!(rt; is_refused(alloc, &changed, &[])?, "byte {i}");
        flip(&mut changed, i);
    }
    Ok(())
}

// The input ends within its schema.
#[test]
fn file_before_a_refused_input_is_as_it_was(rt: HostRuntime) -> Result<(), Fault> {
    let alloc = rt.alloc();
    let file = make_file(alloc)?;
    for end in 8..64 {
        let input = file.get(8..end).unwrap_or(&[]);
        assert!(rt;
            is_refused(alloc, &file, input)?,
            "the input has {end} bytes"
        );
    }
    Ok(())
}
