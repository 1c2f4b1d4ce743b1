//! `set_scratches` and `get_scratches` of a writer and of a reader.

use crate::example_file::{make_file, make_file_without_chunks};
use arrow2_ipc::array::AnyArray;
use arrow2_ipc::chunk::Chunk;
use arrow2_ipc::datatypes::{DataType, Field, Schema};
use arrow2_ipc::io::ipc::fault::{Fault, MemFile, Reads, Seeks, Watched};
use arrow2_ipc::io::ipc::read::{FileReader, read_file_metadata};
use arrow2_ipc::io::ipc::write::{EncodedData, FileWriter, WriteOptions, WriterState};
use bench_devices::fixtures::{int32, make_example};
use std::alloc::Global;
use std::io::Cursor;

// Whether a writer returns the scratches that it was given, once.
fn returns_scratches(alloc: Global, writer: &mut FileWriter<Vec<u8>>) -> Result<bool, Fault> {
    let scratches = EncodedData {
        ipc_message: Vec::from_slice(alloc, b"message")?,
        arrow_data: Vec::from_slice(alloc, b"data")?,
    };
    writer.set_scratches(scratches);
    let first = writer.get_scratches();
    let second = writer.get_scratches();
    Ok(
        first.ipc_message.as_slice() == b"message".as_slice()
            && first.arrow_data.as_slice() == b"data".as_slice()
            && second.ipc_message.is_empty()
            && second.arrow_data.is_empty(),
    )
}

#[test]
fn writer_returns_its_scratches(rt: HostRuntime) -> Result<(), Fault> {
    let alloc = rt.alloc();
    let schema = make_example(alloc)?.schema;
    let options = WriteOptions::default();
    let mut writer = FileWriter::new(alloc, Vec::new(alloc), schema, None, options)?;
    assert!(rt; returns_scratches(alloc, &mut writer)?);
    assert!(rt; writer.state() == WriterState::New);
    assert!(rt; writer.into_inner().is_empty());
    Ok(())
}

#[test]
fn reader_returns_its_scratches(rt: HostRuntime) -> Result<(), Fault> {
    let alloc = rt.alloc();
    let bytes = make_file_without_chunks(alloc, make_example(alloc)?.schema)?;
    let mut file = MemFile::new(bytes.as_slice());
    let metadata = read_file_metadata(alloc, &mut file)?;
    let mut reader = FileReader::new(alloc, file, metadata, None, None)?;
    reader.set_scratches((Vec::from_slice(alloc, b"a")?, Vec::from_slice(alloc, b"b")?));
    let (data, message) = reader.get_scratches();
    assert!(rt; data.as_slice() == b"a".as_slice() && message.as_slice() == b"b".as_slice());
    let (data, message) = reader.get_scratches();
    assert!(rt; data.is_empty() && message.is_empty());
    Ok(())
}

// A file of one chunk of one column, which has the numbers from 0 on.
#[derive(Drop)]
struct Numbers {
    chunks: Vec<Chunk<AnyArray>>,
    bytes: Vec<u8>,
}

fn make_numbers(alloc: Global, rows: i32) -> Result<Numbers, Fault> {
    let x = Field::new("x".to_string(alloc)?, DataType::Int32, false);
    let schema = Schema::from(vec![in alloc; x]?);
    let numbers: Vec<i32> = (0..rows).collect(alloc)?;
    let columns = vec![in alloc; int32(alloc, &numbers)?]?;
    let chunks = vec![in alloc; Chunk::try_new(columns)?]?;
    let bytes = make_file(alloc, schema, &chunks)?;
    Ok(Numbers { chunks, bytes })
}

// Reads the chunk of a file through this scratch memory, and returns that. It is `Ended` if another
// chunk is read, and `Memory` if the scratch is shorter than `least` then: its memory was refused.
fn read_through<R: Reads + Seeks + Drop>(
    alloc: Global,
    mut device: R,
    numbers: &Numbers,
    scratch: Vec<u8>,
    least: usize,
) -> Result<Vec<u8>, Fault> {
    let metadata = read_file_metadata(alloc, &mut device)?;
    let mut reader = FileReader::new(alloc, device, metadata, None, None)?;
    reader.set_scratches((scratch, Vec::new(alloc)));
    match (reader.next(), numbers.chunks.first()) {
        (Some(read), Some(chunk)) => {
            if read? != *chunk {
                return Err(Fault::Ended);
            }
        }
        _ => return Err(Fault::Ended),
    }
    let (scratch, _) = reader.get_scratches();
    if scratch.len() < least {
        return Err(Fault::Memory);
    }
    Ok(scratch)
}

// As `read_through`, from a device that lends no bytes.
fn read_device_through(
    alloc: Global,
    numbers: &Numbers,
    scratch: Vec<u8>,
    least: usize,
) -> Result<Vec<u8>, Fault> {
    let file = Watched::new(Cursor::new(numbers.bytes.clone()?));
    read_through(alloc, file, numbers, scratch, least)
}

#[test]
fn scratch_is_as_long_as_the_longest_column_needs(rt: HostRuntime) -> Result<(), Fault> {
    let alloc = rt.alloc();
    let few = make_numbers(alloc, 1_024)?;
    let many = make_numbers(alloc, 1_025)?;
    let most = make_numbers(alloc, 16_385)?;
    let scratch = read_device_through(alloc, &few, Vec::new(alloc), 0)?;
    assert!(rt; scratch.is_empty());
    let scratch = read_device_through(alloc, &many, scratch, 4_100)?;
    assert!(rt; scratch.len() == 4_100);
    let scratch = read_device_through(alloc, &most, scratch, 65_536)?;
    assert!(rt; scratch.len() == 65_536);
    let scratch = read_device_through(alloc, &many, scratch, 65_536)?;
    assert!(rt; scratch.len() == 65_536);
    Ok(())
}

#[test]
fn memory_needs_no_scratch(rt: HostRuntime) -> Result<(), Fault> {
    let alloc = rt.alloc();
    let numbers = make_numbers(alloc, 16_385)?;
    let file = MemFile::new(numbers.bytes.as_slice());
    let scratch = read_through(alloc, file, &numbers, Vec::new(alloc), 0)?;
    assert!(rt; scratch.is_empty());
    Ok(())
}
