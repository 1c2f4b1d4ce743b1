//! The metadata of a file, which may begin at any offset of a device.

use arrow2_ipc::io::ipc::fault::{Fault, MemFile, OutOfSpecKind, Seeks};
use arrow2_ipc::io::ipc::format::{Block, Endianness, Footer, MetadataVersion, Schema};
use arrow2_ipc::io::ipc::read::{FileMetadata, read_file_metadata};
use bench_devices::fixtures::error_of;
use std::alloc::Global;

const RECORD: Block = Block {
    offset: 8,
    meta_data_length: 24,
    body_length: 64,
};

fn make_footer(alloc: Global) -> Result<Vec<u8>, Fault> {
    let schema = Schema {
        endianness: Endianness::Big,
        fields: Vec::new(alloc),
        custom_metadata: Vec::new(alloc),
        features: None,
    };
    let footer = Footer {
        version: MetadataVersion::V5,
        schema: Some(schema),
        dictionaries: None,
        record_batches: Some(vec![in alloc; RECORD]?),
        custom_metadata: None,
    };
    footer.to_bytes(alloc)
}

// These bytes and a file after them.
fn make_file(alloc: Global, front: &[u8], footer: &[u8]) -> Result<Vec<u8>, Fault> {
    let Ok(length) = u32::try_from(footer.len()) else {
        return Err(Fault::Ended);
    };
    let mut bytes = Vec::from_slice(alloc, front)?;
    bytes.extend_from_slice(b"ARROW1\0\0")?;
    bytes.extend_from_slice(footer)?;
    bytes.extend_from_slice(&length.to_le_bytes())?;
    bytes.extend_from_slice(b"ARROW1")?;
    Ok(bytes)
}

// The metadata of the file that begins at this offset.
fn read_at(alloc: Global, bytes: &[u8], offset: u64) -> Result<FileMetadata, Fault> {
    let mut input = MemFile::new(bytes);
    input.seek_to(offset)?;
    read_file_metadata(alloc, &mut input)
}

// Whether these are the metadata of the footer.
fn is_of_footer(metadata: &FileMetadata) -> bool {
    metadata.blocks.as_slice() == [RECORD].as_slice()
        && metadata.dictionary_blocks().is_empty()
        && metadata.schema.fields.is_empty()
        && !metadata.ipc_schema.is_little_endian
        && metadata.custom_metadata.is_empty()
}

#[test]
fn file_begins_at_any_offset(rt: HostRuntime) -> Result<(), Fault> {
    let alloc = rt.alloc();
    let footer = make_footer(alloc)?;
    let bytes = make_file(alloc, b"before", &footer)?;
    let metadata = read_at(alloc, &bytes, 6)?;
    assert!(rt; is_of_footer(&metadata));
    assert_eq!(rt; metadata.size, (footer.len() as u64).saturating_add(18));
    Ok(())
}

#[test]
fn file_at_a_wrong_offset_is_refused(rt: HostRuntime) -> Result<(), Fault> {
    let alloc = rt.alloc();
    let bytes = make_file(alloc, b"before", &make_footer(alloc)?)?;
    let fault = error_of(read_at(alloc, &bytes, 5))?;
    assert!(rt; matches!(fault, Some(Fault::OutOfSpec(OutOfSpecKind::InvalidHeader))));
    Ok(())
}
