//! Texts of types, fields and schemas, as Arrow C++'s `ToString` gives them.

use lower::datatypes::{
    DataType, Field, IntegerType, IntervalUnit, Metadata, Schema, TimeUnit, UnionMode,
};
use std::alloc::{AllocError, Global};
use std::test::Fail;

fn has_text(alloc: Global, data_type: &DataType, text: &str) -> Result<bool, AllocError> {
    Ok(format!(in alloc; "{data_type}")?.as_str() == text)
}

fn number_types() -> [(DataType, &'static str); 13] {
    [
        (DataType::Null, "null"),
        (DataType::Boolean, "bool"),
        (DataType::Int8, "int8"),
        (DataType::Int16, "int16"),
        (DataType::Int32, "int32"),
        (DataType::Int64, "int64"),
        (DataType::UInt8, "uint8"),
        (DataType::UInt16, "uint16"),
        (DataType::UInt32, "uint32"),
        (DataType::UInt64, "uint64"),
        (DataType::Float16, "halffloat"),
        (DataType::Float32, "float"),
        (DataType::Float64, "double"),
    ]
}

fn time_types() -> [(DataType, &'static str); 13] {
    [
        (DataType::Date32, "date32[day]"),
        (DataType::Date64, "date64[ms]"),
        (DataType::Time32(TimeUnit::Second), "time32[s]"),
        (DataType::Time32(TimeUnit::Millisecond), "time32[ms]"),
        (DataType::Time64(TimeUnit::Microsecond), "time64[us]"),
        (DataType::Time64(TimeUnit::Nanosecond), "time64[ns]"),
        (DataType::Duration(TimeUnit::Second), "duration[s]"),
        (DataType::Duration(TimeUnit::Nanosecond), "duration[ns]"),
        (DataType::Timestamp(TimeUnit::Second, None), "timestamp[s]"),
        (
            DataType::Timestamp(TimeUnit::Nanosecond, None),
            "timestamp[ns]",
        ),
        (
            DataType::Interval(IntervalUnit::YearMonth),
            "month_interval",
        ),
        (
            DataType::Interval(IntervalUnit::DayTime),
            "day_time_interval",
        ),
        (
            DataType::Interval(IntervalUnit::MonthDayNano),
            "month_day_nano_interval",
        ),
    ]
}

fn byte_types() -> [(DataType, &'static str); 7] {
    [
        (DataType::Binary, "binary"),
        (DataType::LargeBinary, "large_binary"),
        (DataType::Utf8, "string"),
        (DataType::LargeUtf8, "large_string"),
        (DataType::FixedSizeBinary(4), "fixed_size_binary[4]"),
        (DataType::Decimal(10, 2), "decimal128(10, 2)"),
        (DataType::Decimal256(40, 0), "decimal256(40, 0)"),
    ]
}

#[test]
fn number_types_have_the_names_of_arrow(rt: HostRuntime) -> Result<(), Fail> {
    let types = number_types();
    for (data_type, text) in &types {
        assert!(rt; has_text(rt.alloc(), data_type, *text)?, "{text}");
    }
    Ok(())
}

#[test]
fn time_types_have_units(rt: HostRuntime) -> Result<(), Fail> {
    let types = time_types();
    for (data_type, text) in &types {
        assert!(rt; has_text(rt.alloc(), data_type, *text)?, "{text}");
    }
    Ok(())
}

#[test]
fn byte_types_have_parameters(rt: HostRuntime) -> Result<(), Fail> {
    let types = byte_types();
    for (data_type, text) in &types {
        assert!(rt; has_text(rt.alloc(), data_type, *text)?, "{text}");
    }
    Ok(())
}

// A time in a zone.
fn zoned(alloc: Global, zone: &str) -> Result<DataType, AllocError> {
    Ok(DataType::Timestamp(TimeUnit::Microsecond, Some(zone.to_string(alloc)?)))
}

// An empty name is no time zone.
#[test]
fn timestamps_have_their_zone(rt: HostRuntime) -> Result<(), Fail> {
    let alloc = rt.alloc();
    assert!(rt; has_text(alloc, &zoned(alloc, "UTC")?, "timestamp[us, tz=UTC]")?);
    assert!(rt; has_text(alloc, &zoned(alloc, "+01:00")?, "timestamp[us, tz=+01:00]")?);
    assert!(rt; has_text(alloc, &zoned(alloc, "")?, "timestamp[us]")?);
    Ok(())
}

// ---- types with children

fn nullable(alloc: Global, name: &str, data_type: DataType) -> Result<Field, AllocError> {
    Ok(Field::new(name.to_string(alloc)?, data_type, true))
}

fn not_null(alloc: Global, name: &str, data_type: DataType) -> Result<Field, AllocError> {
    Ok(Field::new(name.to_string(alloc)?, data_type, false))
}

fn item(alloc: Global, data_type: DataType) -> Result<Box<Field>, AllocError> {
    Ok(Box::new(alloc, nullable(alloc, "item", data_type)?)?)
}

// `a`, which isn't null, and `b`.
fn two_fields(alloc: Global) -> Result<Vec<Field>, AllocError> {
    let mut fields = Vec::new(alloc);
    fields.push(not_null(alloc, "a", DataType::Int32)?)?;
    fields.push(nullable(alloc, "b", DataType::Utf8)?)?;
    Ok(fields)
}

fn list_of_structs(alloc: Global) -> Result<DataType, AllocError> {
    Ok(DataType::List(item(alloc, DataType::Struct(two_fields(alloc)?))?))
}

#[test]
fn lists_have_their_field(rt: HostRuntime) -> Result<(), Fail> {
    let alloc = rt.alloc();
    let list = DataType::List(item(alloc, DataType::Int64)?);
    assert!(rt; has_text(alloc, &list, "list<item: int64>")?);
    let list = DataType::LargeList(Box::new(alloc, not_null(alloc, "x", DataType::Utf8)?)?);
    assert!(rt; has_text(alloc, &list, "large_list<x: string not null>")?);
    let list = DataType::FixedSizeList(item(alloc, DataType::Boolean)?, 3);
    assert!(rt; has_text(alloc, &list, "fixed_size_list<item: bool>[3]")?);
    Ok(())
}

#[test]
fn structs_have_their_fields(rt: HostRuntime) -> Result<(), Fail> {
    let alloc = rt.alloc();
    let pair = DataType::Struct(two_fields(alloc)?);
    assert!(rt; has_text(alloc, &pair, "struct<a: int32 not null, b: string>")?);
    assert!(rt; has_text(alloc, &DataType::Struct(Vec::new(alloc)), "struct<>")?);
    let text = "list<item: struct<a: int32 not null, b: string>>";
    assert!(rt; has_text(alloc, &list_of_structs(alloc)?, text)?);
    Ok(())
}

#[test]
fn unions_have_type_ids(rt: HostRuntime) -> Result<(), Fail> {
    let alloc = rt.alloc();
    let union = DataType::Union(two_fields(alloc)?, None, UnionMode::Sparse);
    assert!(rt;
        has_text(
            alloc,
            &union,
            "sparse_union<a: int32 not null=0, b: string=1>"
        )?
    );
    let ids = Vec::from_slice(alloc, &[5, 7])?;
    let union = DataType::Union(two_fields(alloc)?, Some(ids), UnionMode::Dense);
    assert!(rt;
        has_text(
            alloc,
            &union,
            "dense_union<a: int32 not null=5, b: string=7>"
        )?
    );
    Ok(())
}

// The pairs of a map, by the names of their parts.
fn pairs(alloc: Global, key: &str, value: &str) -> Result<DataType, AllocError> {
    let mut fields = Vec::new(alloc);
    fields.push(not_null(alloc, key, DataType::Utf8)?)?;
    fields.push(nullable(alloc, value, DataType::Int32)?)?;
    Ok(DataType::Struct(fields))
}

fn map(
    alloc: Global,
    name: &str,
    pairs: DataType,
    is_sorted: bool,
) -> Result<DataType, AllocError> {
    let field = Box::new(alloc, not_null(alloc, name, pairs)?)?;
    Ok(DataType::Map(field, is_sorted))
}

// Names are printed only if they aren't `entries`, `key` and `value`.
#[test]
fn maps_have_unusual_names(rt: HostRuntime) -> Result<(), Fail> {
    let alloc = rt.alloc();
    let usual = map(alloc, "entries", pairs(alloc, "key", "value")?, false)?;
    assert!(rt; has_text(alloc, &usual, "map<string, int32>")?);
    let sorted = map(alloc, "entries", pairs(alloc, "key", "value")?, true)?;
    assert!(rt; has_text(alloc, &sorted, "map<string, int32, keys_sorted>")?);
    let unusual = map(alloc, "pairs", pairs(alloc, "k", "v")?, true)?;
    let text = "map<string ('k'), int32 ('v'), keys_sorted ('pairs')>";
    assert!(rt; has_text(alloc, &unusual, text)?);
    Ok(())
}

fn dictionary(
    alloc: Global,
    keys: IntegerType,
    values: DataType,
    is_ordered: bool,
) -> Result<DataType, AllocError> {
    Ok(DataType::Dictionary(keys, Box::new(alloc, values)?, is_ordered))
}

#[test]
fn dictionaries_have_values_and_indices(rt: HostRuntime) -> Result<(), Fail> {
    let alloc = rt.alloc();
    let texts = dictionary(alloc, IntegerType::Int32, DataType::Utf8, false)?;
    let text = "dictionary<values=string, indices=int32, ordered=0>";
    assert!(rt; has_text(alloc, &texts, text)?);
    let lists = DataType::List(item(alloc, DataType::Float64)?);
    let lists = dictionary(alloc, IntegerType::UInt8, lists, true)?;
    let text = "dictionary<values=list<item: double>, indices=uint8, ordered=1>";
    assert!(rt; has_text(alloc, &lists, text)?);
    Ok(())
}

fn extension(alloc: Global) -> Result<DataType, AllocError> {
    let storage = Box::new(alloc, DataType::FixedSizeBinary(16))?;
    let text = Some("t".to_string(alloc)?);
    Ok(DataType::Extension("arrow.uuid".to_string(alloc)?, storage, text))
}

#[test]
fn extensions_have_their_name(rt: HostRuntime) -> Result<(), Fail> {
    let alloc = rt.alloc();
    assert!(rt; has_text(alloc, &extension(alloc)?, "extension<arrow.uuid>")?);
    Ok(())
}

// ---- fields and schemas

// The pair `k` = `v`.
fn pair(alloc: Global) -> Result<Metadata, AllocError> {
    let mut pairs = Metadata::new(alloc);
    pairs.insert("k".to_string(alloc)?, "v".to_string(alloc)?)?;
    Ok(pairs)
}

fn field_text(alloc: Global, field: &Field) -> Result<String, AllocError> {
    format!(in alloc; "{field}")
}

fn schema_text(alloc: Global, schema: &Schema) -> Result<String, AllocError> {
    format!(in alloc; "{schema}")
}

#[test]
fn fields_have_no_metadata(rt: HostRuntime) -> Result<(), Fail> {
    let alloc = rt.alloc();
    let field = not_null(alloc, "a", DataType::Int32)?.with_metadata(pair(alloc)?);
    assert!(rt; field_text(alloc, &field)?.as_str() == "a: int32 not null");
    let field = nullable(alloc, "", list_of_structs(alloc)?)?;
    let text = ": list<item: struct<a: int32 not null, b: string>>";
    assert!(rt; field_text(alloc, &field)?.as_str() == text);
    Ok(())
}

#[test]
fn schemas_have_a_line_for_each_field(rt: HostRuntime) -> Result<(), Fail> {
    let alloc = rt.alloc();
    let schema = Schema::from(two_fields(alloc)?).with_metadata(pair(alloc)?);
    assert!(rt; schema_text(alloc, &schema)?.as_str() == "a: int32 not null\nb: string");
    let none = Schema::from(Vec::new(alloc));
    assert!(rt; schema_text(alloc, &none)?.is_empty());
    Ok(())
}
