//! A refused append leaves all bytes of a borrowed file as they were.

use crate::scenario::{FileFixture, make_file_fixture};
use arrow2_ipc::array::AnyArray;
use arrow2_ipc::chunk::Chunk;
use arrow2_ipc::datatypes::{DataType, Field, Schema};
use arrow2_ipc::io::ipc::fault::{ArgFault, Fault, MemFile, OutOfSpecKind};
use arrow2_ipc::io::ipc::read::{FileMetadata, read_file_metadata};
use arrow2_ipc::io::ipc::write::{FileWriter, WriteOptions, append_session, default_ipc_fields};
use bench_devices::fixtures::buffer_of;
use std::alloc::Global;

fn metadata_of(alloc: Global, file: &[u8]) -> Result<FileMetadata, Fault> {
    read_file_metadata(alloc, &mut MemFile::new(buffer_of(alloc, file)?))
}

// The error of `try_from_file` on a borrowed file, if all its bytes are as they were. `Memory` is
// returned as an error of this function.
fn refused_writer(
    alloc: Global,
    file: &[u8],
    metadata: FileMetadata,
) -> Result<Option<Fault>, Fault> {
    let mut device = MemFile::new(buffer_of(alloc, file)?);
    let options = WriteOptions::default();
    let fault = match FileWriter::try_from_file(alloc, &mut device, metadata, options) {
        Ok(_) => None,
        Err(fault) => Some(fault),
    };
    if device.into_inner().as_slice() != file {
        return Ok(None);
    }
    match fault {
        Some(Fault::Memory) => Err(Fault::Memory),
        fault => Ok(fault),
    }
}

#[test]
fn file_without_records_is_as_it_was(rt: HostRuntime) -> Result<(), Fault> {
    let alloc = rt.alloc();
    let FileFixture { file, .. } = make_file_fixture(alloc, false)?;
    let mut metadata = metadata_of(alloc, &file)?;
    metadata.blocks = Vec::new(alloc);
    let fault = refused_writer(alloc, &file, metadata)?;
    assert!(rt; matches!(fault, Some(Fault::Argument(ArgFault::NoRecordBlocks))));
    Ok(())
}

#[test]
fn file_with_a_negative_block_is_as_it_was(rt: HostRuntime) -> Result<(), Fault> {
    let alloc = rt.alloc();
    let FileFixture { file, .. } = make_file_fixture(alloc, false)?;
    let mut metadata = metadata_of(alloc, &file)?;
    for block in &mut metadata.blocks {
        block.offset = -1;
    }
    let fault = refused_writer(alloc, &file, metadata)?;
    assert!(rt;
        matches!(
            fault,
            Some(Fault::OutOfSpec(OutOfSpecKind::UnexpectedNegativeInteger))
        )
    );
    Ok(())
}

#[test]
fn file_that_is_too_long_is_as_it_was(rt: HostRuntime) -> Result<(), Fault> {
    let alloc = rt.alloc();
    let FileFixture { file, .. } = make_file_fixture(alloc, false)?;
    let mut metadata = metadata_of(alloc, &file)?;
    metadata.size = 1 << 63;
    let fault = refused_writer(alloc, &file, metadata)?;
    assert!(rt; matches!(fault, Some(Fault::Argument(ArgFault::TooLarge))));
    Ok(())
}

#[test]
fn file_with_other_ids_is_as_it_was(rt: HostRuntime) -> Result<(), Fault> {
    let alloc = rt.alloc();
    let FileFixture { file, .. } = make_file_fixture(alloc, false)?;
    let mut metadata = metadata_of(alloc, &file)?;
    metadata.ipc_schema.fields = Vec::new(alloc);
    let fault = refused_writer(alloc, &file, metadata)?;
    assert!(rt; matches!(fault, Some(Fault::Argument(ArgFault::FieldsShape))));
    Ok(())
}

#[test]
fn file_of_floats_is_as_it_was(rt: HostRuntime) -> Result<(), Fault> {
    let alloc = rt.alloc();
    let FileFixture { file, .. } = make_file_fixture(alloc, false)?;
    let mut metadata = metadata_of(alloc, &file)?;
    let field = Field::new(String::new(alloc), DataType::Float64, false);
    metadata.schema = Schema::from(vec![in alloc; field]?);
    metadata.ipc_schema.fields = default_ipc_fields(alloc, &metadata.schema.fields)?;
    let fault = refused_writer(alloc, &file, metadata)?;
    assert!(rt; matches!(fault, Some(Fault::Argument(ArgFault::NotWritable))));
    Ok(())
}

#[test]
fn file_that_ends_in_a_dictionary_is_as_it_was(rt: HostRuntime) -> Result<(), Fault> {
    let alloc = rt.alloc();
    let FileFixture { file, .. } = make_file_fixture(alloc, false)?;
    let metadata = metadata_of(alloc, &file)?;
    let front = file.get(..8).unwrap_or(&[]);
    let fault = refused_writer(alloc, front, metadata)?;
    assert!(rt; matches!(fault, Some(Fault::Ended)));
    Ok(())
}

// Whether a session on a borrowed file is refused with all bytes as they were, or isn't refused.
fn keeps_if_refused(alloc: Global, file: &[u8], chunks: &[Chunk<AnyArray>]) -> Result<bool, Fault> {
    let mut device = MemFile::new(buffer_of(alloc, file)?);
    let is_refused = append_session(alloc, &mut device, chunks).is_err();
    Ok(!is_refused || device.into_inner().as_slice() == file)
}

fn flip(bytes: &mut [u8], i: usize) {
    if let Some(byte) = bytes.get_mut(i) {
        *byte ^= 0xff;
    }
}

// One byte of the file after the other is another one.
#[test]
fn file_that_a_session_refuses_is_as_it_was(rt: HostRuntime) -> Result<(), Fault> {
    let alloc = rt.alloc();
    let FileFixture { chunks, file, .. } = make_file_fixture(alloc, false)?;
    let mut changed = buffer_of(alloc, &file)?;
    for i in 0..file.len() {
        flip(&mut changed, i);
        assert!(rt;
            keeps_if_refused(alloc, &changed, &chunks.chunks)?,
            "byte {i}"
        );
        flip(&mut changed, i);
    }
    Ok(())
}
