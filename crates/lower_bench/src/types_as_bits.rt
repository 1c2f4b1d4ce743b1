//! Types whose float types become the unsigned integers of their widths.

use lower::datatypes::{
    DataType, Field, IntegerType, Metadata, Schema, UnionMode, fields_as_bits, type_as_bits,
};
use std::alloc::{AllocError, Global};
use std::test::Fail;

// A type without children.
#[derive(Clone, Copy)]
enum Leaf {
    Half,
    Single,
    Double,
    Long,
    Text,
}

const LEAVES: [Leaf; 5] = [
    Leaf::Half,
    Leaf::Single,
    Leaf::Double,
    Leaf::Long,
    Leaf::Text,
];

fn float_of(leaf: Leaf) -> DataType {
    match leaf {
        Leaf::Half => DataType::Float16,
        Leaf::Single => DataType::Float32,
        Leaf::Double => DataType::Float64,
        Leaf::Long => DataType::Int64,
        Leaf::Text => DataType::Utf8,
    }
}

// The same type, where a float type is the unsigned integer of its width.
fn bits_of(leaf: Leaf) -> DataType {
    match leaf {
        Leaf::Half => DataType::UInt16,
        Leaf::Single => DataType::UInt32,
        Leaf::Double => DataType::UInt64,
        Leaf::Long => DataType::Int64,
        Leaf::Text => DataType::Utf8,
    }
}

// How a type is made of another.
#[derive(Clone, Copy)]
enum Nest {
    Same,
    List,
    LargeList,
    FixedSizeList,
    Struct,
    Union,
    Map,
    Dictionary,
    Extension,
}

const NESTS: [Nest; 9] = [
    Nest::Same,
    Nest::List,
    Nest::LargeList,
    Nest::FixedSizeList,
    Nest::Struct,
    Nest::Union,
    Nest::Map,
    Nest::Dictionary,
    Nest::Extension,
];

// The pair `k` = `v`.
fn pair(alloc: Global) -> Result<Metadata, AllocError> {
    let mut pairs = Metadata::new(alloc);
    pairs.insert("k".to_string(alloc)?, "v".to_string(alloc)?)?;
    Ok(pairs)
}

// A field of this type, with metadata and without nulls.
fn field_of(alloc: Global, data_type: DataType) -> Result<Field, AllocError> {
    let field = Field::new("x".to_string(alloc)?, data_type, false);
    Ok(field.with_metadata(pair(alloc)?))
}

fn boxed(alloc: Global, data_type: DataType) -> Result<Box<Field>, AllocError> {
    Ok(Box::new(alloc, field_of(alloc, data_type)?)?)
}

// A field of text, and a field of this type.
fn two_fields(alloc: Global, data_type: DataType) -> Result<Vec<Field>, AllocError> {
    let mut fields = Vec::new(alloc);
    fields.push(field_of(alloc, DataType::Utf8)?)?;
    fields.push(field_of(alloc, data_type)?)?;
    Ok(fields)
}

fn union_of(alloc: Global, data_type: DataType) -> Result<DataType, AllocError> {
    let ids = Vec::from_slice(alloc, &[5, 7])?;
    let fields = two_fields(alloc, data_type)?;
    Ok(DataType::Union(fields, Some(ids), UnionMode::Dense))
}

fn map_of(alloc: Global, data_type: DataType) -> Result<DataType, AllocError> {
    let pairs = DataType::Struct(two_fields(alloc, data_type)?);
    Ok(DataType::Map(boxed(alloc, pairs)?, true))
}

fn dictionary_of(alloc: Global, data_type: DataType) -> Result<DataType, AllocError> {
    let values = Box::new(alloc, data_type)?;
    Ok(DataType::Dictionary(IntegerType::UInt16, values, true))
}

fn extension_of(alloc: Global, data_type: DataType) -> Result<DataType, AllocError> {
    let storage = Box::new(alloc, data_type)?;
    let text = Some("t".to_string(alloc)?);
    Ok(DataType::Extension("n".to_string(alloc)?, storage, text))
}

fn nested(alloc: Global, nest: Nest, inner: DataType) -> Result<DataType, AllocError> {
    match nest {
        Nest::Same => Ok(inner),
        Nest::List => Ok(DataType::List(boxed(alloc, inner)?)),
        Nest::LargeList => Ok(DataType::LargeList(boxed(alloc, inner)?)),
        Nest::FixedSizeList => Ok(DataType::FixedSizeList(boxed(alloc, inner)?, 3)),
        Nest::Struct => Ok(DataType::Struct(two_fields(alloc, inner)?)),
        Nest::Union => union_of(alloc, inner),
        Nest::Map => map_of(alloc, inner),
        Nest::Dictionary => dictionary_of(alloc, inner),
        Nest::Extension => extension_of(alloc, inner),
    }
}

// A type of two levels.
fn make_type(
    alloc: Global,
    outer: Nest,
    inner: Nest,
    leaf: DataType,
) -> Result<DataType, AllocError> {
    nested(alloc, outer, nested(alloc, inner, leaf)?)
}

fn is_as_bits(alloc: Global, outer: Nest, inner: Nest, leaf: Leaf) -> Result<bool, AllocError> {
    let floats = make_type(alloc, outer, inner, float_of(leaf))?;
    let bits = make_type(alloc, outer, inner, bits_of(leaf))?;
    Ok(type_as_bits(alloc, &floats)? == bits)
}

#[test]
fn floats_are_bits_at_any_depth(rt: HostRuntime) -> Result<(), Fail> {
    for outer in NESTS {
        for inner in NESTS {
            for leaf in LEAVES {
                assert!(rt; is_as_bits(rt.alloc(), outer, inner, leaf)?);
            }
        }
    }
    Ok(())
}

fn schema_of(alloc: Global, data_type: DataType) -> Result<Schema, AllocError> {
    Ok(Schema::from(two_fields(alloc, data_type)?).with_metadata(pair(alloc)?))
}

#[test]
fn schema_keeps_all_but_its_floats(rt: HostRuntime) -> Result<(), Fail> {
    let alloc = rt.alloc();
    let floats = schema_of(alloc, DataType::Float32)?;
    let bits = schema_of(alloc, DataType::UInt32)?;
    assert!(rt; floats.with_floats_as_bits(alloc)? == bits);
    assert!(rt; fields_as_bits(alloc, &floats.fields)? == bits.fields);
    assert!(rt; bits.with_floats_as_bits(alloc)? == bits);
    Ok(())
}
