//! Writes a file of two chunks into memory, and reads a column of the second.
#![tactic(auto)]

use arrow2_ipc::array::{AnyArray, Int64Array};
use arrow2_ipc::chunk::Chunk;
use arrow2_ipc::datatypes::{DataType, Field, Schema};
use arrow2_ipc::io::ipc::fault::{Fault, MemFile};
use arrow2_ipc::io::ipc::read::{read_batch, read_file_dictionaries, read_file_metadata};
use arrow2_ipc::io::ipc::write::{FileWriter, WriteOptions};
use std::alloc::Global;

fn chunk(alloc: Global, years: &[i64], rains: &[i64]) -> Result<Chunk<AnyArray>, Fault> {
    let years = Int64Array::from_slice(alloc, years)?;
    let rains = Int64Array::from_slice(alloc, rains)?;
    Ok(Chunk::try_new(vec![in alloc; AnyArray::from(years), AnyArray::from(rains)]?)?)
}

fn write(alloc: Global) -> Result<Vec<u8>, Fault> {
    let year = Field::new("year".to_string(alloc)?, DataType::Int64, false);
    let rain = Field::new("rain".to_string(alloc)?, DataType::Int64, false);
    let schema = Schema::from(vec![in alloc; year, rain]?);
    let first = chunk(alloc, &[2023, 2024], &[651, 702])?;
    let second = chunk(alloc, &[2025], &[590])?;
    let mut writer = FileWriter::try_new(
        alloc,
        Vec::new(alloc),
        schema,
        None,
        WriteOptions::default(),
    )?;
    writer.write(&first, None)?;
    writer.write(&second, None)?;
    writer.finish()?;
    Ok(writer.into_inner())
}

/// The column with this index in this block, if the file has both.
fn column(
    alloc: Global,
    file: &[u8],
    number: usize,
    block: usize,
) -> Result<Option<Chunk<AnyArray>>, Fault> {
    let mut reader = MemFile::new(file);
    let metadata = read_file_metadata(alloc, &mut reader)?;
    if number >= metadata.schema.fields.len() || block >= metadata.blocks.len() {
        return Ok(None);
    }
    let (mut message, mut data) = (Vec::new(alloc), Vec::new(alloc));
    let dictionaries = read_file_dictionaries(alloc, &mut reader, &metadata, &mut data)?;
    let columns = [number];
    let chunk = read_batch(
        alloc,
        &mut reader,
        &dictionaries,
        &metadata,
        Some(&columns),
        None,
        block,
        &mut message,
        &mut data,
    )?;
    Ok(Some(chunk))
}

fn main(rt: HostRuntime) -> Result<(), Fault> {
    let alloc = rt.alloc();
    let file = write(alloc)?;
    match column(alloc, &file, 1, 1)? {
        None => println!(rt; "the file has no such column or block")?,
        Some(chunk) => {
            for column in chunk.iter() {
                println!(rt; "{column:?}")?;
            }
        }
    }
    Ok(())
}
