//! A column of each kind, each of two slots.

use ipc_base::chunk::Chunk;
use ipc_devices::Fault;
use lower::bitmap::Bitmap;
use lower::buffer::Buffer;
use lower::datatypes::{DataType, Field, IntegerType, Schema, UnionMode};
use lower::offset::OffsetsBuffer;
use lower::types::NativeType;
use lower_arrays::array::{
    AnyArray, BinaryArray, BooleanArray, DictionaryArray, DictionaryKeys, FixedSizeBinaryArray,
    FixedSizeListArray, ListArray, ListOffsets, MapArray, NullArray, PrimitiveArray, StructArray,
    UnionArray, Utf8Array,
};
use std::alloc::{AllocError, Global};
use std::sync::Arc;

/// The kinds of columns, and of a union both modes.
#[derive(Clone, Copy)]
pub enum ColumnKind {
    Null,
    Boolean,
    Primitive,
    FixedSizeBinary,
    Binary,
    LargeBinary,
    Utf8,
    LargeUtf8,
    List,
    LargeList,
    FixedSizeList,
    Struct,
    SparseUnion,
    DenseUnion,
    Map,
    Dictionary,
}

/// All kinds of columns, and of a union both modes.
pub const COLUMN_KINDS: [ColumnKind; 16] = [
    ColumnKind::Null,
    ColumnKind::Boolean,
    ColumnKind::Primitive,
    ColumnKind::FixedSizeBinary,
    ColumnKind::Binary,
    ColumnKind::LargeBinary,
    ColumnKind::Utf8,
    ColumnKind::LargeUtf8,
    ColumnKind::List,
    ColumnKind::LargeList,
    ColumnKind::FixedSizeList,
    ColumnKind::Struct,
    ColumnKind::SparseUnion,
    ColumnKind::DenseUnion,
    ColumnKind::Map,
    ColumnKind::Dictionary,
];

/// A column of a kind. Its second slot is null where its kind has a validity bitmap and no
/// children.
pub fn column_of(alloc: Global, kind: ColumnKind) -> Result<AnyArray, Fault> {
    match kind {
        ColumnKind::Null => Ok(AnyArray::from(NullArray::try_new(DataType::Null, 2)?)),
        ColumnKind::Boolean => Ok(AnyArray::from(booleans(alloc)?)),
        ColumnKind::Primitive => Ok(AnyArray::from(numbers(alloc)?)),
        ColumnKind::FixedSizeBinary => Ok(AnyArray::from(fixed_size_binary(alloc)?)),
        ColumnKind::Binary => Ok(AnyArray::from(binary(alloc)?)),
        ColumnKind::LargeBinary => Ok(AnyArray::from(large_binary(alloc)?)),
        ColumnKind::Utf8 => Ok(AnyArray::from(texts(alloc)?)),
        ColumnKind::LargeUtf8 => Ok(AnyArray::from(large_texts(alloc)?)),
        _ => nested_column_of(alloc, kind),
    }
}

// A column of a kind that has children or values.
fn nested_column_of(alloc: Global, kind: ColumnKind) -> Result<AnyArray, Fault> {
    match kind {
        ColumnKind::List => Ok(AnyArray::from(lists(alloc)?)),
        ColumnKind::LargeList => Ok(AnyArray::from(large_lists(alloc)?)),
        ColumnKind::FixedSizeList => Ok(AnyArray::from(fixed_size_lists(alloc)?)),
        ColumnKind::Struct => Ok(AnyArray::from(structs(alloc)?)),
        ColumnKind::SparseUnion => Ok(AnyArray::from(sparse_union(alloc)?)),
        ColumnKind::DenseUnion => Ok(AnyArray::from(dense_union(alloc)?)),
        ColumnKind::Map => Ok(AnyArray::from(maps(alloc)?)),
        _ => Ok(AnyArray::from(keys_of_texts(alloc)?)),
    }
}

/// A chunk of one column.
pub fn chunk_of_kind(alloc: Global, kind: ColumnKind) -> Result<Chunk<AnyArray>, Fault> {
    Chunk::try_new(vec![in alloc; column_of(alloc, kind)?]?)
}

/// A chunk of a column of each kind.
pub fn chunk_of_all_kinds(alloc: Global) -> Result<Chunk<AnyArray>, Fault> {
    let mut columns = Vec::new(alloc);
    for kind in COLUMN_KINDS {
        columns.push(column_of(alloc, kind)?)?;
    }
    Chunk::try_new(columns)
}

/// A schema of the columns of a chunk, whose fields have no names.
pub fn schema_of(alloc: Global, chunk: &Chunk<AnyArray>) -> Result<Schema, Fault> {
    let mut fields = Vec::new(alloc);
    for column in chunk.iter() {
        fields.push(field_of(alloc, column)?)?;
    }
    Ok(Schema::from(fields))
}

/// A field without a name of the type of this array.
pub fn field_of(alloc: Global, array: &AnyArray) -> Result<Field, Fault> {
    Ok(Field::new(String::new(alloc), array.data_type().clone()?, true))
}

// ---- columns without children

fn buffer<T: NativeType>(alloc: Global, values: &[T]) -> Result<Buffer<T>, AllocError> {
    Buffer::new(Vec::from_slice(alloc, values)?)
}

// The validity of two slots, of which the second is null.
fn validity(alloc: Global) -> Result<Option<Bitmap>, Fault> {
    Ok(Some(Bitmap::try_new(buffer(alloc, &[0b01])?, 2)?))
}

// The offsets of two slots of one value each.
fn offsets(alloc: Global) -> Result<OffsetsBuffer<i32>, Fault> {
    Ok(OffsetsBuffer::try_new(buffer(alloc, &[0, 1, 2])?)?)
}

fn large_offsets(alloc: Global) -> Result<OffsetsBuffer<i64>, Fault> {
    Ok(OffsetsBuffer::try_new(buffer(alloc, &[0i64, 1, 2])?)?)
}

/// The numbers 7 and null.
pub fn numbers(alloc: Global) -> Result<PrimitiveArray<i32>, Fault> {
    let values = buffer(alloc, &[7, 8])?;
    Ok(PrimitiveArray::try_new(DataType::Int32, values, validity(alloc)?)?)
}

/// True and null.
pub fn booleans(alloc: Global) -> Result<BooleanArray, Fault> {
    let values = Bitmap::try_new(buffer(alloc, &[0b11])?, 2)?;
    Ok(BooleanArray::try_new(DataType::Boolean, values, validity(alloc)?)?)
}

/// The text `a` and null.
pub fn texts(alloc: Global) -> Result<Utf8Array<i32>, Fault> {
    let values = buffer(alloc, b"ab")?;
    Ok(Utf8Array::try_new(DataType::Utf8, offsets(alloc)?, values, validity(alloc)?)?)
}

fn large_texts(alloc: Global) -> Result<Utf8Array<i64>, Fault> {
    let values = buffer(alloc, b"ab")?;
    let offsets = large_offsets(alloc)?;
    Ok(Utf8Array::try_new(DataType::LargeUtf8, offsets, values, validity(alloc)?)?)
}

/// The byte `a` and null.
pub fn binary(alloc: Global) -> Result<BinaryArray<i32>, Fault> {
    let values = buffer(alloc, b"ab")?;
    Ok(BinaryArray::try_new(DataType::Binary, offsets(alloc)?, values, validity(alloc)?)?)
}

fn large_binary(alloc: Global) -> Result<BinaryArray<i64>, Fault> {
    let values = buffer(alloc, b"ab")?;
    let offsets = large_offsets(alloc)?;
    Ok(BinaryArray::try_new(DataType::LargeBinary, offsets, values, validity(alloc)?)?)
}

/// The byte `a` and null, each of the size 1.
pub fn fixed_size_binary(alloc: Global) -> Result<FixedSizeBinaryArray, Fault> {
    let values = buffer(alloc, b"ab")?;
    let data_type = DataType::FixedSizeBinary(1);
    Ok(FixedSizeBinaryArray::try_new(data_type, values, validity(alloc)?)?)
}

// ---- columns with children, which are the numbers 7 and null

fn number_column(alloc: Global) -> Result<AnyArray, Fault> {
    Ok(AnyArray::from(numbers(alloc)?))
}

fn number_field(alloc: Global) -> Result<Field, AllocError> {
    Ok(Field::new("item".to_string(alloc)?, DataType::Int32, true))
}

/// The lists of 7 and of null.
pub fn lists(alloc: Global) -> Result<ListArray, Fault> {
    let data_type = DataType::List(Box::new(alloc, number_field(alloc)?)?);
    let child = Box::new(alloc, number_column(alloc)?)?;
    let offsets = ListOffsets::Small(offsets(alloc)?);
    Ok(ListArray::try_new(data_type, offsets, child, None)?)
}

fn large_lists(alloc: Global) -> Result<ListArray, Fault> {
    let data_type = DataType::LargeList(Box::new(alloc, number_field(alloc)?)?);
    let child = Box::new(alloc, number_column(alloc)?)?;
    let offsets = ListOffsets::Large(large_offsets(alloc)?);
    Ok(ListArray::try_new(data_type, offsets, child, None)?)
}

fn fixed_size_lists(alloc: Global) -> Result<FixedSizeListArray, Fault> {
    let data_type = DataType::FixedSizeList(Box::new(alloc, number_field(alloc)?)?, 1);
    let child = Box::new(alloc, number_column(alloc)?)?;
    Ok(FixedSizeListArray::try_new(data_type, child, None)?)
}

fn structs(alloc: Global) -> Result<StructArray, Fault> {
    let data_type = DataType::Struct(vec![in alloc; number_field(alloc)?]?);
    let children = vec![in alloc; number_column(alloc)?]?;
    Ok(StructArray::try_new(data_type, children, None)?)
}

fn union_type(alloc: Global, mode: UnionMode) -> Result<DataType, AllocError> {
    Ok(DataType::Union(vec![in alloc; number_field(alloc)?]?, None, mode))
}

fn sparse_union(alloc: Global) -> Result<UnionArray, Fault> {
    let data_type = union_type(alloc, UnionMode::Sparse)?;
    let children = vec![in alloc; number_column(alloc)?]?;
    Ok(UnionArray::try_new(data_type, buffer(alloc, &[0i8, 0])?, children, None)?)
}

fn dense_union(alloc: Global) -> Result<UnionArray, Fault> {
    let data_type = union_type(alloc, UnionMode::Dense)?;
    let children = vec![in alloc; number_column(alloc)?]?;
    let offsets = buffer(alloc, &[0i32, 1])?;
    let types = buffer(alloc, &[0i8, 0])?;
    Ok(UnionArray::try_new(data_type, types, children, Some(offsets))?)
}

// The fields of the pairs of a map.
fn pair_fields(alloc: Global) -> Result<Vec<Field>, AllocError> {
    let key = Field::new("key".to_string(alloc)?, DataType::Utf8, false);
    Ok(vec![in alloc; key, number_field(alloc)?]?)
}

// The pairs of `a` and 7, and of `b` and null.
fn pairs(alloc: Global) -> Result<StructArray, Fault> {
    let values = buffer(alloc, b"ab")?;
    let keys = Utf8Array::try_new(DataType::Utf8, offsets(alloc)?, values, None)?;
    let children = vec![in alloc; AnyArray::from(keys), number_column(alloc)?]?;
    Ok(StructArray::try_new(DataType::Struct(pair_fields(alloc)?), children, None)?)
}

fn maps(alloc: Global) -> Result<MapArray, Fault> {
    let pair_type = DataType::Struct(pair_fields(alloc)?);
    let pair = Field::new("entries".to_string(alloc)?, pair_type, false);
    let data_type = DataType::Map(Box::new(alloc, pair)?, false);
    let pairs = Box::new(alloc, AnyArray::from(pairs(alloc)?))?;
    Ok(MapArray::try_new(data_type, offsets(alloc)?, pairs, None)?)
}

fn keys_of_texts(alloc: Global) -> Result<DictionaryArray, Fault> {
    let value_type = Box::new(alloc, DataType::Utf8)?;
    let data_type = DataType::Dictionary(IntegerType::Int32, value_type, false);
    let values = Arc::new(alloc, AnyArray::from(texts(alloc)?))?;
    let keys = DictionaryKeys::Int32(numbers_below_two(alloc)?);
    Ok(DictionaryArray::try_new(data_type, keys, values)?)
}

// The keys 1 and 0.
fn numbers_below_two(alloc: Global) -> Result<PrimitiveArray<i32>, AllocError> {
    PrimitiveArray::from_vec(Vec::from_slice(alloc, &[1, 0])?)
}
