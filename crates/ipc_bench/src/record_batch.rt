//! Some columns of a wide record batch are read, from a device that counts bytes.

use arrow2_ipc::array::{AnyArray, equal};
use arrow2_ipc::chunk::Chunk;
use arrow2_ipc::datatypes::{DataType, Field};
use arrow2_ipc::io::ipc::IpcSchema;
use arrow2_ipc::io::ipc::fault::{Failures, Fault, OutOfSpecKind, Reads, Watched};
use arrow2_ipc::io::ipc::format::{
    Buffer, FieldNode, Message, MessageHeader, MetadataVersion, RecordBatch,
};
use arrow2_ipc::io::ipc::read::{Dictionaries, is_prepared, read_record_batch};
use arrow2_ipc::io::ipc::write::default_ipc_fields;
use bench_devices::fixtures::{error_of, int32};
use bench_devices::single_message::record_batch_of;
use std::alloc::Global;
use std::collections::HashMap;
use std::io::Cursor;

// Columns of 32-bit numbers, of one row each. The number of column j is j.
#[derive(Drop)]
struct Columns {
    fields: Vec<Field>,
    nodes: Vec<FieldNode>,
    buffers: Vec<Buffer>,
    body: Vec<u8>,
}

fn number_columns(alloc: Global, count: u32) -> Result<Columns, Fault> {
    let mut columns = Columns {
        fields: Vec::new(alloc),
        nodes: Vec::new(alloc),
        buffers: Vec::new(alloc),
        body: Vec::new(alloc),
    };
    for number in 0..count {
        add_column(alloc, &mut columns, number)?;
    }
    Ok(columns)
}

fn add_column(alloc: Global, columns: &mut Columns, number: u32) -> Result<(), Fault> {
    let field = Field::new(String::new(alloc), DataType::Int32, false);
    columns.fields.push(field)?;
    columns.nodes.push(ONE_ROW)?;
    add_buffers(&mut columns.buffers, i64::from(number) * 4)?;
    Ok(columns.body.extend_from_slice(&number.to_le_bytes())?)
}

const ONE_ROW: FieldNode = FieldNode {
    length: 1,
    null_count: 0,
};

// An empty validity buffer, and a number of four bytes.
fn add_buffers(buffers: &mut Vec<Buffer>, offset: i64) -> Result<(), Fault> {
    add_buffer(buffers, offset, 0)?;
    add_buffer(buffers, offset, 4)
}

fn add_buffer(buffers: &mut Vec<Buffer>, offset: i64, length: i64) -> Result<(), Fault> {
    Ok(buffers.push(Buffer { offset, length })?)
}

// The message of a record batch, its body, and the schema that it is read with.
#[derive(Drop)]
struct Batch {
    fields: Vec<Field>,
    ids: IpcSchema,
    message: Vec<u8>,
    body: Vec<u8>,
}

fn batch_of(alloc: Global, columns: Columns) -> Result<Batch, Fault> {
    let ids = IpcSchema {
        fields: default_ipc_fields(alloc, &columns.fields)?,
        is_little_endian: true,
    };
    let batch = RecordBatch {
        length: 1,
        nodes: columns.nodes,
        buffers: columns.buffers,
        compression: None,
    };
    let message = Message {
        version: MetadataVersion::V5,
        header: MessageHeader::RecordBatch(batch),
        body_length: columns.body.len() as i64,
        custom_metadata: None,
    };
    Ok(Batch {
        fields: columns.fields,
        ids,
        message: message.to_bytes(alloc)?,
        body: columns.body,
    })
}

// The projected columns of a batch, and how many bytes were read for them.
fn read(
    alloc: Global,
    batch: &Batch,
    projection: &[usize],
) -> Result<(Chunk<AnyArray>, u64), Fault> {
    let record = record_batch_of(&batch.message)?;
    if !is_prepared(projection, batch.fields.len()) {
        return Err(Fault::OutOfSpec(OutOfSpecKind::InvalidDataType));
    }
    let dictionaries: Dictionaries = HashMap::new(alloc);
    let mut device = Watched::new(Cursor::new(batch.body.as_slice()));
    let chunk = read_record_batch(
        alloc,
        record,
        &batch.fields,
        &batch.ids,
        Some(projection),
        None,
        &dictionaries,
        MetadataVersion::V5,
        &mut device,
        0,
        batch.body.len() as u64,
        &mut Vec::new(alloc),
    )?;
    Ok((chunk, device.given()))
}

// Whether the columns of a chunk have these numbers, one each.
fn has_numbers(alloc: Global, chunk: &Chunk<AnyArray>, numbers: &[i32]) -> Result<bool, Fault> {
    if chunk.arrays().len() != numbers.len() {
        return Ok(false);
    }
    for (column, number) in chunk.arrays().iter().zip(numbers) {
        if !is_number(alloc, column, *number)? {
            return Ok(false);
        }
    }
    Ok(true)
}

fn is_number(alloc: Global, column: &AnyArray, number: i32) -> Result<bool, Fault> {
    Ok(equal(column, &int32(alloc, &[number])?))
}

// Four bytes are read for it.
#[test]
fn last_of_a_thousand_columns_is_read(rt: HostRuntime) -> Result<(), Fault> {
    let alloc = rt.alloc();
    let batch = batch_of(alloc, number_columns(alloc, 1000)?)?;
    let (chunk, given) = read(alloc, &batch, &[999])?;
    assert!(rt; has_numbers(alloc, &chunk, &[999])?);
    assert_eq!(rt; given, 4);
    Ok(())
}

// A batch with too few buffers for all columns is refused, whichever columns are projected.
#[test]
fn missing_buffer_is_refused(rt: HostRuntime) -> Result<(), Fault> {
    let alloc = rt.alloc();
    let mut columns = number_columns(alloc, 1000)?;
    let _last = columns.buffers.pop();
    let batch = batch_of(alloc, columns)?;
    let fault = error_of(read(alloc, &batch, &[999]))?;
    assert!(rt; matches!(fault, Some(Fault::OutOfSpec(OutOfSpecKind::ExpectedBuffer))));
    Ok(())
}

#[test]
fn no_byte_of_other_columns_is_read(rt: HostRuntime) -> Result<(), Fault> {
    let alloc = rt.alloc();
    let batch = batch_of(alloc, number_columns(alloc, 5)?)?;
    let (none, given) = read(alloc, &batch, &[])?;
    assert!(rt; has_numbers(alloc, &none, &[])?);
    assert_eq!(rt; given, 0);
    let (some, given) = read(alloc, &batch, &[1, 4])?;
    assert!(rt; has_numbers(alloc, &some, &[1, 4])?);
    assert_eq!(rt; given, 8);
    Ok(())
}
