//! Constructors and accessors that no other test calls.

use arrow2_ipc::io::ipc::IpcField;
use arrow2_ipc::io::ipc::fault::Watched;
use arrow2_ipc::io::ipc::read::StreamState;
use arrow2_ipc::io::ipc::write::{EncodedData, Record, StreamWriter, WriteOptions, WriterState};
use bench_devices::column_kinds::numbers;
use bench_devices::fixtures::make_example;
use ipc_devices::Fault;
use lower::datatypes::{DataType, Field, Metadata, Schema};
use lower::types::{Endianness, append_bytes, numbers_from_bytes};
use lower_arrays::array::AnyArray;
use std::alloc::Global;

#[test]
fn new_values_are_empty(rt: HostRuntime) -> Result<(), Fault> {
    let alloc = rt.alloc();
    let data = EncodedData::empty(alloc);
    assert!(rt; data.ipc_message.is_empty() && data.arrow_data.is_empty());
    let id = IpcField::empty(alloc);
    assert!(rt; id.fields.is_empty() && id.dictionary_id.is_none());
    let writer = StreamWriter::new(alloc, Vec::new(alloc), WriteOptions::default());
    assert!(rt; writer.state() == WriterState::New && writer.into_inner().is_empty());
    assert_eq!(rt; Watched::new(7).into_inner(), 7);
    assert!(rt; StreamState::Waiting.is_waiting());
    let state = StreamState::Some(make_example(alloc)?.chunk);
    assert!(rt; !state.is_waiting());
    assert_eq!(rt; state.unwrap().len(), 2);
    Ok(())
}

// How many values a column of 32-bit numbers has as one of 64-bit numbers, and as one of 32-bit
// numbers.
fn lengths_by_type(alloc: Global) -> Result<(Option<usize>, Option<usize>), Fault> {
    let column = AnyArray::from(numbers(alloc)?);
    let long = column.as_primitive::<i64>().map(|values| values.len());
    let short = column.as_primitive::<i32>().map(|values| values.len());
    Ok((long, short))
}

#[test]
fn column_has_values_of_its_own_type_alone(rt: HostRuntime) -> Result<(), Fault> {
    assert_eq!(rt; lengths_by_type(rt.alloc())?, (None, Some(2)));
    Ok(())
}

// The pair `k` = `v`.
fn pairs(alloc: Global) -> Result<Metadata, Fault> {
    let mut pairs = Metadata::new(alloc);
    pairs.insert("k".to_string(alloc)?, "v".to_string(alloc)?)?;
    Ok(pairs)
}

fn field_with_a_pair(alloc: Global) -> Result<Field, Fault> {
    let field = Field::new("a".to_string(alloc)?, DataType::Int32, true);
    Ok(field.with_metadata(pairs(alloc)?))
}

fn schema_with_a_pair(alloc: Global) -> Result<Schema, Fault> {
    let fields = vec![in alloc; field_with_a_pair(alloc)?]?;
    Ok(Schema::from(fields).with_metadata(pairs(alloc)?))
}

#[test]
fn with_metadata_replaces_metadata(rt: HostRuntime) -> Result<(), Fault> {
    let alloc = rt.alloc();
    assert_eq!(rt; schema_with_a_pair(alloc)?.metadata.len(), 1);
    let field = field_with_a_pair(alloc)?;
    assert_eq!(rt; field.metadata.len(), 1);
    assert_eq!(rt; field.with_metadata(Metadata::new(alloc)).metadata.len(), 0);
    Ok(())
}

// Whether a clone of a record has the columns of the example.
fn is_cloned(alloc: Global, record: &Record<'_>) -> Result<bool, Fault> {
    Ok(*record.clone()?.columns() == make_example(alloc)?.chunk)
}

#[test]
fn records_are_cloned(rt: HostRuntime) -> Result<(), Fault> {
    let alloc = rt.alloc();
    let chunk = make_example(alloc)?.chunk;
    assert!(rt; is_cloned(alloc, &Record::borrowed(&chunk, None))?);
    assert!(rt; is_cloned(alloc, &Record::from(chunk))?);
    Ok(())
}

#[test]
fn numbers_come_back_from_their_bytes(rt: HostRuntime) -> Result<(), Fault> {
    let mut bytes = Vec::new(rt.alloc());
    append_bytes(&mut bytes, &[1i32, -2], Endianness::Big)?;
    assert_eq!(rt;
        bytes.as_slice(),
        [0, 0, 0, 1, 255, 255, 255, 254].as_slice()
    );
    let numbers: Vec<i32> = numbers_from_bytes(rt.alloc(), &bytes, Endianness::Big)?;
    assert_eq!(rt; numbers.as_slice(), [1, -2].as_slice());
    Ok(())
}
