//! Writes a table with texts and nulls as a stream into memory, and reads it back.
#![tactic(auto)]

use anyhow::Result;
use arrow2_ipc::array::{AnyArray, MutablePrimitiveArray, MutableUtf8Array, get_display};
use arrow2_ipc::chunk::Chunk;
use arrow2_ipc::datatypes::{DataType, Field, Schema};
use arrow2_ipc::io::ipc::read::read_stream;
use arrow2_ipc::io::ipc::write::{StreamWriter, WriteOptions};
use std::alloc::Global;

fn write(alloc: Global) -> Result<Vec<u8>> {
    let city = Field::new("city".to_string(alloc)?, DataType::Utf8, false);
    let rain = Field::new("rain".to_string(alloc)?, DataType::Int64, true);
    let schema = Schema::from(vec![in alloc; city, rain]?);
    let cities = MutableUtf8Array::<i32>::from_slice(alloc, &["Essen", "Lindau", "Trier"])?;
    let rains = MutablePrimitiveArray::from_options(alloc, &[Some(651i64), None, Some(702)])?;
    let columns = vec![in alloc;
        AnyArray::from(cities.finish()?),
        AnyArray::from(rains.finish()?),
    ]?;
    let mut writer = StreamWriter::new(alloc, Vec::new(alloc), WriteOptions::default());
    writer.start(&schema, None)?;
    writer.write(&Chunk::try_new(columns)?, None)?;
    writer.finish()?;
    Ok(writer.into_inner())
}

fn main(rt: HostRuntime) -> Result<()> {
    let alloc = rt.alloc();
    let bytes = write(alloc)?;
    let stream = read_stream(alloc, &bytes)?;
    for chunk in &stream.chunks {
        for (field, column) in stream.metadata.schema.fields.iter().zip(chunk.iter()) {
            println!(rt; "{}: {}", field.name, field.data_type)?;
            let column = get_display(column, "-");
            for index in 0..chunk.len() {
                if let Some(slot) = column.slot(index) {
                    println!(rt; "  {slot}")?;
                }
            }
        }
    }
    if !stream.is_finished {
        println!(rt; "the stream has no end mark yet")?;
    }
    Ok(())
}
