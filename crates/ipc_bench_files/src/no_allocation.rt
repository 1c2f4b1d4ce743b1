//! Calls that allocate nothing, so that they succeed whichever allocation fails. Their arguments
//! are made before.
//!
//! In an ordinary run no allocation fails. `make refused` runs the tests with each of their
//! allocations failing in turn.

use crate::example_file::make_file_without_chunks;
use arrow2_ipc::datatypes::Metadata;
use arrow2_ipc::io::ipc::fault::{Fault, MemFile};
use arrow2_ipc::io::ipc::read::{FileReader, read_file_metadata};
use arrow2_ipc::io::ipc::write::{FileWriter, WriteOptions};
use bench_devices::fixtures::make_example;

// Whether this is a reader of a schema of two columns and no chunks, which has ended and returns
// the device that it read from.
fn is_reader_without_chunks(
    reader: Result<FileReader<MemFile<&[u8]>>, Fault>,
    bytes: &[u8],
) -> bool {
    match reader {
        Ok(mut reader) => {
            reader.is_finished()
                && reader.next().is_none()
                && reader.schema().fields.len() == 2
                && reader.metadata().dictionary_blocks().is_empty()
                && reader.into_inner().into_inner() == bytes
        }
        Err(_) => false,
    }
}

#[test]
fn file_reader_allocates_nothing(rt: HostRuntime) -> Result<(), Fault> {
    let alloc = rt.alloc();
    let bytes = make_file_without_chunks(alloc, make_example(alloc)?.schema)?;
    let mut input = MemFile::new(bytes.as_slice());
    let metadata = read_file_metadata(alloc, &mut input)?;
    let reader = FileReader::new(alloc, input, metadata, None, Some(3));
    assert!(rt; is_reader_without_chunks(reader, &bytes));
    Ok(())
}

// Whether this is a writer of a schema of two columns, which takes metadata before it starts.
fn takes_metadata(writer: Result<FileWriter<Vec<u8>>, Fault>, metadata: Metadata) -> bool {
    match writer {
        Ok(mut writer) => {
            writer.schema().fields.len() == 2 && writer.set_custom_metadata(metadata).is_ok()
        }
        Err(_) => false,
    }
}

#[test]
fn file_writer_takes_metadata_without_allocation(rt: HostRuntime) -> Result<(), Fault> {
    let alloc = rt.alloc();
    let schema = make_example(alloc)?.schema;
    let mut metadata = Metadata::new(alloc);
    let _none = metadata.insert("k".to_string(alloc)?, "v".to_string(alloc)?)?;
    let device = Vec::new(alloc);
    let writer = FileWriter::new(alloc, device, schema, None, WriteOptions::default());
    assert!(rt; takes_metadata(writer, metadata));
    Ok(())
}
