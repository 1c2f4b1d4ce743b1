//! Float columns of streams are read as their bits.
//!
//! Bodies are written here byte by byte, in either order: numbers of 16, 32 and 64 bits (IEEE 754),
//! at 8-byte boundaries. No writer makes them, since none takes float columns.

use arrow2_ipc::array::{
    AnyArray, DictionaryArray, DictionaryKeys, Int8Array, ListArray, ListOffsets,
    MutablePrimitiveArray, UInt16Array, UInt32Array, UInt64Array,
};
use arrow2_ipc::chunk::Chunk;
use arrow2_ipc::datatypes::{DataType, Field, IntegerType, columns_named};
use arrow2_ipc::io::ipc::fault::{Fault, MemFile, Nyi, Reads};
use arrow2_ipc::io::ipc::format::{
    Buffer, DictionaryBatch, DictionaryEncoding, DictionaryKind, Endianness, FieldNode, FieldType,
    FloatingPoint, Int, Message, MessageHeader, MetadataVersion, Precision, RecordBatch,
};
use arrow2_ipc::io::ipc::read::{StreamReader, StreamState, read_stream_metadata};
use arrow2_ipc::io::ipc::write::{EncodedData, write_continuation, write_message};
use arrow2_ipc::io::ipc::{fits, format};
use arrow2_ipc::types::{f16_of_bits, f32_of_bits, f64_of_bits};
use std::alloc::{AllocError, Global};
use std::sync::Arc;

// ---- messages

// The nodes and buffers of a batch, each as two numbers, and its body of at most 64 bytes.
#[derive(Clone, Copy)]
struct Batch {
    rows: i64,
    nodes: &'static [(i64, i64)],
    buffers: &'static [(i64, i64)],
    body: &'static [u8],
}

fn nodes_of(alloc: Global, batch: &Batch) -> Result<Vec<FieldNode>, AllocError> {
    let mut nodes = Vec::new(alloc);
    for (length, null_count) in batch.nodes {
        nodes.push(FieldNode {
            length: *length,
            null_count: *null_count,
        })?;
    }
    Ok(nodes)
}

fn buffers_of(alloc: Global, batch: &Batch) -> Result<Vec<Buffer>, AllocError> {
    let mut buffers = Vec::new(alloc);
    for (offset, length) in batch.buffers {
        buffers.push(Buffer {
            offset: *offset,
            length: *length,
        })?;
    }
    Ok(buffers)
}

fn record_of(alloc: Global, batch: &Batch) -> Result<RecordBatch, AllocError> {
    Ok(RecordBatch {
        length: batch.rows,
        nodes: nodes_of(alloc, batch)?,
        buffers: buffers_of(alloc, batch)?,
        compression: None,
    })
}

// Appends a message. A body is followed by zeros up to 64 bytes.
fn append(
    alloc: Global,
    stream: &mut Vec<u8>,
    header: MessageHeader,
    body: &[u8],
) -> Result<(), Fault> {
    let length: u32 = if body.is_empty() { 0 } else { 64 };
    let mut arrow_data = Vec::from_slice(alloc, body)?;
    arrow_data.resize(length as usize, 0)?;
    let message = Message {
        version: MetadataVersion::V5,
        header,
        body_length: i64::from(length),
        custom_metadata: None,
    };
    let ipc_message = message.to_bytes(alloc)?;
    let encoded = EncodedData {
        ipc_message,
        arrow_data,
    };
    write_message(stream, &encoded)?;
    Ok(())
}

fn append_schema(
    alloc: Global,
    stream: &mut Vec<u8>,
    order: Endianness,
    fields: Vec<format::Field>,
) -> Result<(), Fault> {
    let schema = format::Schema {
        endianness: order,
        fields,
        custom_metadata: Vec::new(alloc),
        features: None,
    };
    append(alloc, stream, MessageHeader::Schema(schema), &[])
}

fn append_dictionary(alloc: Global, stream: &mut Vec<u8>, batch: &Batch) -> Result<(), Fault> {
    let dictionary = DictionaryBatch {
        id: 0,
        data_: Some(record_of(alloc, batch)?),
        is_delta: false,
    };
    append(
        alloc,
        stream,
        MessageHeader::DictionaryBatch(dictionary),
        batch.body,
    )
}

// Appends the message of a record batch, and the end mark.
fn append_last(alloc: Global, stream: &mut Vec<u8>, batch: &Batch) -> Result<(), Fault> {
    let record = record_of(alloc, batch)?;
    append(
        alloc,
        stream,
        MessageHeader::RecordBatch(record),
        batch.body,
    )?;
    write_continuation(stream, 0)?;
    Ok(())
}

// The field of a column of floats.
fn float_field(
    alloc: Global,
    name: &str,
    precision: Precision,
) -> Result<format::Field, AllocError> {
    Ok(format::Field {
        name: name.to_string(alloc)?,
        nullable: true,
        type_: FieldType::FloatingPoint(FloatingPoint { precision }),
        dictionary: None,
        children: Vec::new(alloc),
        custom_metadata: Vec::new(alloc),
    })
}

// ---- reading

fn next_chunk<R: Reads + Drop>(
    reader: &mut StreamReader<R>,
) -> Result<Option<Chunk<AnyArray>>, Fault> {
    match reader.next() {
        Some(Ok(StreamState::Some(chunk))) => Ok(Some(chunk)),
        Some(Err(fault)) => Err(fault),
        _ => Ok(None),
    }
}

// The first chunk of a stream. Its floats are read as bits, or as they are.
fn read(alloc: Global, bytes: &[u8], as_bits: bool) -> Result<Option<Chunk<AnyArray>>, Fault> {
    let mut input = MemFile::new(bytes);
    let mut metadata = read_stream_metadata(alloc, &mut input)?;
    if as_bits {
        metadata.schema = metadata.schema.with_floats_as_bits(alloc)?;
    }
    if !fits(&metadata.schema.fields, &metadata.ipc_schema.fields) {
        return Ok(None);
    }
    next_chunk(&mut StreamReader::new(alloc, input, metadata, None)?)
}

// The columns of these names, of the first chunk of a stream, as bits. All have a column.
fn read_named(
    alloc: Global,
    bytes: &[u8],
    names: &[&str],
) -> Result<Option<Chunk<AnyArray>>, Fault> {
    let mut input = MemFile::new(bytes);
    let mut metadata = read_stream_metadata(alloc, &mut input)?;
    metadata.schema = metadata.schema.with_floats_as_bits(alloc)?;
    if !fits(&metadata.schema.fields, &metadata.ipc_schema.fields) {
        return Ok(None);
    }
    let Ok(columns) = columns_named(alloc, &metadata.schema, names) else {
        return Err(Fault::Memory);
    };
    next_chunk(&mut StreamReader::new(alloc, input, metadata, Some(columns))?)
}

const ORDERS: [Endianness; 2] = [Endianness::Little, Endianness::Big];

// ---- columns of each width

// 1, 2 ^ -24, 65504 and -∞.
const HALVES: [u16; 4] = [0x3C00, 0x0001, 0x7BFF, 0xFC00];

// A NaN with a payload, -0, 2 ^ -149 and ∞.
const SINGLES: [u32; 4] = [0x7FC0_0001, 0x8000_0000, 0x0000_0001, 0x7F80_0000];

// A NaN with a payload, -0, 2 ^ -1074 and -∞.
const DOUBLES: [u64; 4] = [
    0x7FF8_0000_0000_0001,
    0x8000_0000_0000_0000,
    0x0000_0000_0000_0001,
    0xFFF0_0000_0000_0000,
];

const FLAT_LITTLE: &[u8] = b"\
    \x00\x3C\x01\x00\xFF\x7B\x00\xFC\
    \x01\x00\xC0\x7F\x00\x00\x00\x80\
    \x01\x00\x00\x00\x00\x00\x80\x7F\
    \x01\x00\x00\x00\x00\x00\xF8\x7F\
    \x00\x00\x00\x00\x00\x00\x00\x80\
    \x01\x00\x00\x00\x00\x00\x00\x00\
    \x00\x00\x00\x00\x00\x00\xF0\xFF";

const FLAT_BIG: &[u8] = b"\
    \x3C\x00\x00\x01\x7B\xFF\xFC\x00\
    \x7F\xC0\x00\x01\x80\x00\x00\x00\
    \x00\x00\x00\x01\x7F\x80\x00\x00\
    \x7F\xF8\x00\x00\x00\x00\x00\x01\
    \x80\x00\x00\x00\x00\x00\x00\x00\
    \x00\x00\x00\x00\x00\x00\x00\x01\
    \xFF\xF0\x00\x00\x00\x00\x00\x00";

// Three columns of four slots without nulls.
fn flat_batch(order: Endianness) -> Batch {
    Batch {
        rows: 4,
        nodes: &[(4, 0), (4, 0), (4, 0)],
        buffers: &[(0, 0), (0, 8), (8, 0), (8, 16), (24, 0), (24, 32)],
        body: match order {
            Endianness::Little => FLAT_LITTLE,
            Endianness::Big => FLAT_BIG,
        },
    }
}

fn flat_fields(alloc: Global) -> Result<Vec<format::Field>, AllocError> {
    let mut fields = Vec::new(alloc);
    fields.push(float_field(alloc, "h", Precision::Half)?)?;
    fields.push(float_field(alloc, "s", Precision::Single)?)?;
    fields.push(float_field(alloc, "d", Precision::Double)?)?;
    Ok(fields)
}

fn flat_stream(alloc: Global, order: Endianness) -> Result<Vec<u8>, Fault> {
    let mut stream = Vec::new(alloc);
    append_schema(alloc, &mut stream, order, flat_fields(alloc)?)?;
    append_last(alloc, &mut stream, &flat_batch(order))?;
    Ok(stream)
}

fn flat_chunk(alloc: Global) -> Result<Chunk<AnyArray>, Fault> {
    let mut columns = Vec::new(alloc);
    columns.push(AnyArray::from(UInt16Array::from_slice(alloc, &HALVES)?))?;
    columns.push(AnyArray::from(UInt32Array::from_slice(alloc, &SINGLES)?))?;
    columns.push(AnyArray::from(UInt64Array::from_slice(alloc, &DOUBLES)?))?;
    Chunk::try_new(columns)
}

#[test]
fn floats_of_each_width_are_read(rt: HostRuntime) -> Result<(), Fault> {
    let alloc = rt.alloc();
    for order in ORDERS {
        let chunk = read(alloc, &flat_stream(alloc, order)?, true)?;
        assert!(rt; chunk == Some(flat_chunk(alloc)?), "{chunk:?}");
    }
    Ok(())
}

fn are_halves(column: &AnyArray) -> bool {
    let Some(bits) = column.as_primitive::<u16>() else {
        return false;
    };
    match bits.values().as_slice() {
        [one, least, most, infinity] => {
            f16_of_bits(*one) == 1.0
                && f16_of_bits(*least) == 0.000000059604644775390625
                && f16_of_bits(*most) == 65504.0
                && f16_of_bits(*infinity) == f32::NEG_INFINITY
        }
        _ => false,
    }
}

fn are_singles(column: &AnyArray) -> bool {
    let Some(bits) = column.as_primitive::<u32>() else {
        return false;
    };
    match bits.values().as_slice() {
        [nan, zero, least, infinity] => {
            f32_of_bits(*nan).is_nan()
                && f32_of_bits(*zero) == 0.0
                && f32_of_bits(*zero).is_sign_negative()
                && f32_of_bits(*least) == 1e-45
                && f32_of_bits(*infinity) == f32::INFINITY
        }
        _ => false,
    }
}

fn are_doubles(column: &AnyArray) -> bool {
    let Some(bits) = column.as_primitive::<u64>() else {
        return false;
    };
    match bits.values().as_slice() {
        [nan, zero, least, infinity] => {
            f64_of_bits(*nan).is_nan()
                && f64_of_bits(*zero) == 0.0
                && f64_of_bits(*zero).is_sign_negative()
                && f64_of_bits(*least) == 5e-324
                && f64_of_bits(*infinity) == f64::NEG_INFINITY
        }
        _ => false,
    }
}

fn are_floats(chunk: &Option<Chunk<AnyArray>>) -> bool {
    let Some(chunk) = chunk else {
        return false;
    };
    match chunk.columns() {
        [halves, singles, doubles] => {
            are_halves(halves) && are_singles(singles) && are_doubles(doubles)
        }
        _ => false,
    }
}

#[test]
fn bits_of_columns_are_floats(rt: HostRuntime) -> Result<(), Fault> {
    let alloc = rt.alloc();
    for order in ORDERS {
        let chunk = read(alloc, &flat_stream(alloc, order)?, true)?;
        assert!(rt; are_floats(&chunk), "{chunk:?}");
    }
    Ok(())
}

// The last column and the first.
fn turned_chunk(alloc: Global) -> Result<Chunk<AnyArray>, Fault> {
    let mut columns = Vec::new(alloc);
    columns.push(AnyArray::from(UInt64Array::from_slice(alloc, &DOUBLES)?))?;
    columns.push(AnyArray::from(UInt16Array::from_slice(alloc, &HALVES)?))?;
    Chunk::try_new(columns)
}

// The indices of named columns are a projection: the reader takes them without a test.
#[test]
fn columns_are_read_by_their_names(rt: HostRuntime) -> Result<(), Fault> {
    let alloc = rt.alloc();
    for order in ORDERS {
        let chunk = read_named(alloc, &flat_stream(alloc, order)?, &["d", "h"])?;
        assert!(rt; chunk == Some(turned_chunk(alloc)?), "{chunk:?}");
    }
    Ok(())
}

#[test]
fn float_columns_are_refused_unless_as_bits(rt: HostRuntime) -> Result<(), Fault> {
    let alloc = rt.alloc();
    let stream = flat_stream(alloc, Endianness::Little)?;
    let refused = match read(alloc, &stream, false) {
        Err(Fault::Memory) => return Err(Fault::Memory),
        Err(Fault::NotYetImplemented(Nyi::Float)) => true,
        _ => false,
    };
    assert!(rt; refused);
    Ok(())
}

// ---- lists

// The validity of three lists, the offsets 0, 2, 2 and 3, the validity of three items, and 1.5, a
// null and -2.5.
const LIST_LITTLE: &[u8] = b"\
    \x05\x00\x00\x00\x00\x00\x00\x00\
    \x00\x00\x00\x00\x02\x00\x00\x00\
    \x02\x00\x00\x00\x03\x00\x00\x00\
    \x05\x00\x00\x00\x00\x00\x00\x00\
    \x00\x00\x00\x00\x00\x00\xF8\x3F\
    \x00\x00\x00\x00\x00\x00\x00\x00\
    \x00\x00\x00\x00\x00\x00\x04\xC0";

const LIST_BIG: &[u8] = b"\
    \x05\x00\x00\x00\x00\x00\x00\x00\
    \x00\x00\x00\x00\x00\x00\x00\x02\
    \x00\x00\x00\x02\x00\x00\x00\x03\
    \x05\x00\x00\x00\x00\x00\x00\x00\
    \x3F\xF8\x00\x00\x00\x00\x00\x00\
    \x00\x00\x00\x00\x00\x00\x00\x00\
    \xC0\x04\x00\x00\x00\x00\x00\x00";

// Three lists, of which the second is null, and three items, of which the second is.
fn list_batch(order: Endianness) -> Batch {
    Batch {
        rows: 3,
        nodes: &[(3, 1), (3, 1)],
        buffers: &[(0, 1), (8, 16), (24, 1), (32, 24)],
        body: match order {
            Endianness::Little => LIST_LITTLE,
            Endianness::Big => LIST_BIG,
        },
    }
}

fn list_field(alloc: Global) -> Result<format::Field, AllocError> {
    let item = float_field(alloc, "item", Precision::Double)?;
    Ok(format::Field {
        name: "l".to_string(alloc)?,
        nullable: true,
        type_: FieldType::List,
        dictionary: None,
        children: vec![in alloc; item]?,
        custom_metadata: Vec::new(alloc),
    })
}

fn list_stream(alloc: Global, order: Endianness) -> Result<Vec<u8>, Fault> {
    let mut stream = Vec::new(alloc);
    let fields = vec![in alloc; list_field(alloc)?]?;
    append_schema(alloc, &mut stream, order, fields)?;
    append_last(alloc, &mut stream, &list_batch(order))?;
    Ok(stream)
}

const ITEMS: [Option<u64>; 3] = [
    Some(0x3FF8_0000_0000_0000),
    None,
    Some(0xC004_0000_0000_0000),
];

fn is_list_of_bits(alloc: Global, list: &ListArray) -> Result<bool, Fault> {
    let items = MutablePrimitiveArray::from_options(alloc, &ITEMS)?.finish()?;
    let item = Field::new("item".to_string(alloc)?, DataType::UInt64, true);
    let data_type = DataType::List(Box::new(alloc, item)?);
    Ok(
        *list.data_type() == data_type
            && *list.values() == AnyArray::from(items)
            && has_offsets(list.offsets())
            && list.len() == 3
            && list.null_count() == 1,
    )
}

fn has_offsets(offsets: &ListOffsets) -> bool {
    match offsets {
        ListOffsets::Small(offsets) => offsets.as_slice() == [0, 2, 2, 3].as_slice(),
        ListOffsets::Large(_) => false,
    }
}

// Whether the only column of a chunk is the list.
fn has_list_of_bits(alloc: Global, chunk: &Option<Chunk<AnyArray>>) -> Result<bool, Fault> {
    let Some(chunk) = chunk else {
        return Ok(false);
    };
    match chunk.columns() {
        [AnyArray::List(list)] => is_list_of_bits(alloc, list),
        _ => Ok(false),
    }
}

#[test]
fn lists_of_floats_are_read(rt: HostRuntime) -> Result<(), Fault> {
    let alloc = rt.alloc();
    for order in ORDERS {
        let chunk = read(alloc, &list_stream(alloc, order)?, true)?;
        assert!(rt; has_list_of_bits(alloc, &chunk)?, "{chunk:?}");
    }
    Ok(())
}

// ---- dictionaries

// 0.5 and a NaN.
const VALUES: [u32; 2] = [0x3F00_0000, 0x7FC0_0000];

fn value_batch(order: Endianness) -> Batch {
    Batch {
        rows: 2,
        nodes: &[(2, 0)],
        buffers: &[(0, 0), (0, 8)],
        body: match order {
            Endianness::Little => b"\x00\x00\x00\x3F\x00\x00\xC0\x7F",
            Endianness::Big => b"\x3F\x00\x00\x00\x7F\xC0\x00\x00",
        },
    }
}

const KEYS: [i8; 3] = [1, 0, 1];

const KEY_BATCH: Batch = Batch {
    rows: 3,
    nodes: &[(3, 0)],
    buffers: &[(0, 0), (0, 3)],
    body: &[1, 0, 1],
};

fn dictionary_field(alloc: Global) -> Result<format::Field, AllocError> {
    let field = float_field(alloc, "k", Precision::Single)?;
    let dictionary = DictionaryEncoding {
        id: 0,
        index_type: Int {
            bit_width: 8,
            is_signed: true,
        },
        is_ordered: false,
        dictionary_kind: DictionaryKind::DenseArray,
    };
    Ok(format::Field {
        name: field.name,
        nullable: field.nullable,
        type_: field.type_,
        dictionary: Some(dictionary),
        children: field.children,
        custom_metadata: field.custom_metadata,
    })
}

fn dictionary_stream(alloc: Global, order: Endianness) -> Result<Vec<u8>, Fault> {
    let mut stream = Vec::new(alloc);
    let fields = vec![in alloc; dictionary_field(alloc)?]?;
    append_schema(alloc, &mut stream, order, fields)?;
    append_dictionary(alloc, &mut stream, &value_batch(order))?;
    append_last(alloc, &mut stream, &KEY_BATCH)?;
    Ok(stream)
}

fn dictionary_chunk(alloc: Global) -> Result<Chunk<AnyArray>, Fault> {
    let values = Arc::new(
        alloc,
        AnyArray::from(UInt32Array::from_slice(alloc, &VALUES)?),
    )?;
    let value_type = Box::new(alloc, DataType::UInt32)?;
    let data_type = DataType::Dictionary(IntegerType::Int8, value_type, false);
    let keys = DictionaryKeys::Int8(Int8Array::from_slice(alloc, &KEYS)?);
    let column = DictionaryArray::try_new(data_type, keys, values)?;
    Chunk::try_new(vec![in alloc; AnyArray::from(column)]?)
}

#[test]
fn dictionaries_of_floats_are_read(rt: HostRuntime) -> Result<(), Fault> {
    let alloc = rt.alloc();
    for order in ORDERS {
        let chunk = read(alloc, &dictionary_stream(alloc, order)?, true)?;
        assert!(rt; chunk == Some(dictionary_chunk(alloc)?), "{chunk:?}");
    }
    Ok(())
}
