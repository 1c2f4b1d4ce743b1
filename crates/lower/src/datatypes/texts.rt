//! The texts of types, fields and schemas, as Arrow C++'s `ToString` gives them.
ghost use Rattle.std.specs.Prelude.{◌≡◌, Some, true};
ghost use Rattle.std.specs.Fmt.{WritesOnOk};
ghost use Rattle.lower.specs.TypeTrees.{single, entries, timestamp};
ghost use Rattle.lower.specs.TypeViews.{type_view, field_view, fields_view, text_of, ids_of};
ghost use Rattle.lower.specs.Texts as spec;

use super::{DataType, Field, IntegerType, IntervalUnit, Schema, TimeUnit, UnionMode};
use std::fmt;

/// Prints the type as Arrow C++'s `DataType::ToString` gives it.
///
/// A map whose field isn't a struct of two fields, which no column has, prints as a list does.
impl fmt::Display for DataType {
    ghost output = { λ t. Some (spec.type_text (type_view t)) };

    fn fmt<W: fmt::Write>(&self, f: &mut fmt::Formatter<W>) -> fmt::Result {
        write_type(self, f)
    }
}

/// Prints the field as Arrow C++'s `Field::ToString` gives it: without its metadata.
impl fmt::Display for Field {
    ghost output = { λ t. Some (spec.field_text (field_view t)) };

    fn fmt<W: fmt::Write>(&self, f: &mut fmt::Formatter<W>) -> fmt::Result {
        write_field(self, f)
    }
}

/// Prints the schema as Arrow C++'s `Schema::ToString` gives it: a line for each field, without
/// metadata, and without a line end after the last.
impl fmt::Display for Schema {
    ghost output = { λ t. Some (spec.schema_text (fields_view t.fields.items)) };

    fn fmt<W: fmt::Write>(&self, f: &mut fmt::Formatter<W>) -> fmt::Result {
        write_fields(&self.fields, "\n", f)
    }
}

#[cycle(texts)]
fn write_type<W: fmt::Write>(data_type: &DataType, f: &mut fmt::Formatter<W>) -> fmt::Result
    ensures { WritesOnOk W.write_str_gives f.old result
        (spec.type_text (type_view data_type.now)) f.new }
{
    match data_type {
        DataType::Null => f.write_str("null"),
        DataType::Boolean => f.write_str("bool"),
        DataType::Int8 => f.write_str("int8"),
        DataType::Int16 => f.write_str("int16"),
        DataType::Int32 => f.write_str("int32"),
        DataType::Int64 => f.write_str("int64"),
        DataType::UInt8 => f.write_str("uint8"),
        DataType::UInt16 => f.write_str("uint16"),
        DataType::UInt32 => f.write_str("uint32"),
        DataType::UInt64 => f.write_str("uint64"),
        DataType::Float16 => f.write_str("halffloat"),
        DataType::Float32 => f.write_str("float"),
        DataType::Float64 => f.write_str("double"),
        DataType::Timestamp(unit, zone) => write_timestamp(*unit, zone, f),
        DataType::Date32 => f.write_str("date32[day]"),
        DataType::Date64 => f.write_str("date64[ms]"),
        DataType::Time32(unit) => write_unit("time32[", *unit, f),
        DataType::Time64(unit) => write_unit("time64[", *unit, f),
        DataType::Duration(unit) => write_unit("duration[", *unit, f),
        DataType::Interval(unit) => f.write_str(interval_text(*unit)),
        DataType::Binary => f.write_str("binary"),
        DataType::FixedSizeBinary(size) => write!(f, "fixed_size_binary[{size}]"),
        DataType::LargeBinary => f.write_str("large_binary"),
        DataType::Utf8 => f.write_str("string"),
        DataType::LargeUtf8 => f.write_str("large_string"),
        DataType::List(field) => write_single("list<", field, f),
        DataType::FixedSizeList(field, size) => {
            write_single("fixed_size_list<", field, f)?;
            write!(f, "[{size}]")
        }
        DataType::LargeList(field) => write_single("large_list<", field, f),
        DataType::Struct(fields) => write_struct(fields, f),
        DataType::Union(fields, ids, mode) => {
            f.write_str(union_text(*mode))?;
            write_choices(fields, ids, f)?;
            f.write_str(">")
        }
        DataType::Map(field, sorted) => write_map(field, *sorted, f),
        DataType::Dictionary(keys, values, ordered) => {
            f.write_str("dictionary<values=")?;
            write_type(values, f)?;
            write_keys(*keys, *ordered, f)
        }
        DataType::Extension(name, _, _) => write_extension(name.as_str(), f),
        DataType::Decimal(precision, scale) => write!(f, "decimal128({precision}, {scale})"),
        DataType::Decimal256(precision, scale) => write!(f, "decimal256({precision}, {scale})"),
    }
}

fn write_unit<W: fmt::Write>(name: &str, unit: TimeUnit, f: &mut fmt::Formatter<W>) -> fmt::Result
    ensures { WritesOnOk W.write_str_gives f.old result (spec.with_unit name.now unit) f.new }
{
    f.write_str(name)?;
    f.write_str(unit_text(unit))?;
    f.write_str("]")
}

fn unit_text(unit: TimeUnit) -> &'static str
    ensures { result.now ≡ spec.unit_text unit }
{
    match unit {
        TimeUnit::Second => "s",
        TimeUnit::Millisecond => "ms",
        TimeUnit::Microsecond => "us",
        TimeUnit::Nanosecond => "ns",
    }
}

fn interval_text(unit: IntervalUnit) -> &'static str
    ensures { result.now ≡ spec.interval_text unit }
{
    match unit {
        IntervalUnit::YearMonth => "month_interval",
        IntervalUnit::DayTime => "day_time_interval",
        IntervalUnit::MonthDayNano => "month_day_nano_interval",
    }
}

fn union_text(mode: UnionMode) -> &'static str
    ensures { result.now ≡ spec.union_text mode }
{
    match mode {
        UnionMode::Sparse => "sparse_union<",
        UnionMode::Dense => "dense_union<",
    }
}

fn write_timestamp<W: fmt::Write>(
    unit: TimeUnit,
    zone: &Option<String>,
    f: &mut fmt::Formatter<W>,
) -> fmt::Result
    ensures { WritesOnOk W.write_str_gives f.old result
        (spec.timestamp_text unit (text_of zone.now)) f.new }
{
    f.write_str("timestamp[")?;
    f.write_str(unit_text(unit))?;
    write_zone(zone, f)?;
    f.write_str("]")
}

fn write_zone<W: fmt::Write>(zone: &Option<String>, f: &mut fmt::Formatter<W>) -> fmt::Result
    ensures { WritesOnOk W.write_str_gives f.old result (spec.zone_text (text_of zone.now)) f.new }
{
    let Some(zone) = zone else {
        return Ok(());
    };
    if zone.is_empty() {
        return Ok(());
    }
    f.write_str(", tz=")?;
    f.write_str(zone.as_str())
}

#[cycle(texts)]
fn write_single<W: fmt::Write>(name: &str, field: &Field, f: &mut fmt::Formatter<W>) -> fmt::Result
    ensures { WritesOnOk W.write_str_gives f.old result
        (spec.with_field name.now (field_view field.now)) f.new }
{
    f.write_str(name)?;
    write_field(field, f)?;
    f.write_str(">")
}

#[cycle(texts)]
fn write_field<W: fmt::Write>(field: &Field, f: &mut fmt::Formatter<W>) -> fmt::Result
    ensures { WritesOnOk W.write_str_gives f.old result
        (spec.field_text (field_view field.now)) f.new }
{
    f.write_str(field.name.as_str())?;
    f.write_str(": ")?;
    write_type(&field.data_type, f)?;
    f.write_str(null_text(field.is_nullable))
}

fn null_text(is_nullable: bool) -> &'static str
    ensures { result.now ≡ spec.null_text is_nullable }
{
    if is_nullable { "" } else { " not null" }
}

#[cycle(texts)]
fn write_struct<W: fmt::Write>(fields: &[Field], f: &mut fmt::Formatter<W>) -> fmt::Result
    ensures { WritesOnOk W.write_str_gives f.old result
        (spec.struct_text (fields_view fields.now)) f.new }
{
    f.write_str("struct<")?;
    write_fields(fields, ", ", f)?;
    f.write_str(">")
}

#[cycle(texts)]
fn write_fields<W: fmt::Write>(
    fields: &[Field],
    between: &str,
    f: &mut fmt::Formatter<W>,
) -> fmt::Result
    ensures { WritesOnOk W.write_str_gives f.old result
        (spec.joined_text between.now true (fields_view fields.now)) f.new }
{
    let mut is_first = true;
    for field in fields {
        f.write_str(text_before(is_first, between))?;
        write_field(field, f)?;
        is_first = false;
    }
    Ok(())
}

fn text_before<'a>(is_first: bool, between: &'a str) -> &'a str
    ensures { result.now ≡ spec.text_before is_first between.now }
{
    if is_first { "" } else { between }
}

#[cycle(texts)]
fn write_choices<W: fmt::Write>(
    fields: &[Field],
    ids: &Option<Vec<i32>>,
    f: &mut fmt::Formatter<W>,
) -> fmt::Result
    ensures { WritesOnOk W.write_str_gives f.old result
        (spec.choices_text (ids_of ids.now) 0 (fields_view fields.now)) f.new }
{
    for (i, field) in fields.iter().enumerate() {
        f.write_str(text_before(i == 0, ", "))?;
        write_field(field, f)?;
        write_id(ids, i, f)?;
    }
    Ok(())
}

fn write_id<W: fmt::Write>(
    ids: &Option<Vec<i32>>,
    index: usize,
    f: &mut fmt::Formatter<W>,
) -> fmt::Result
    ensures { WritesOnOk W.write_str_gives f.old result
        (spec.id_text (ids_of ids.now) index) f.new }
{
    match id_at(ids, index) {
        Some(id) => write!(f, "={id}"),
        None => write!(f, "={index}"),
    }
}

fn id_at(ids: &Option<Vec<i32>>, index: usize) -> Option<i32>
    ensures { result ≡ spec.id_at (ids_of ids.now) index }
{
    match ids {
        None => None,
        Some(ids) => ids.get(index).copied(),
    }
}

#[cycle(texts)]
fn write_map<W: fmt::Write>(
    pairs: &Field,
    is_sorted: bool,
    f: &mut fmt::Formatter<W>,
) -> fmt::Result
    ensures { WritesOnOk W.write_str_gives f.old result
        (spec.type_text (single (entries is_sorted) (field_view pairs.now))) f.new }
{
    let DataType::Struct(fields) = &pairs.data_type else {
        return write_single("map<", pairs, f);
    };
    if fields.len() != 2 {
        return write_single("map<", pairs, f);
    }
    f.write_str("map<")?;
    write_member(&fields[0], "key", f)?;
    f.write_str(", ")?;
    write_member(&fields[1], "value", f)?;
    write_map_end(pairs.name.as_str(), is_sorted, f)
}

#[cycle(texts)]
fn write_member<W: fmt::Write>(field: &Field, name: &str, f: &mut fmt::Formatter<W>) -> fmt::Result
    ensures { WritesOnOk W.write_str_gives f.old result
        (spec.member_text name.now (field_view field.now)) f.new }
{
    write_type(&field.data_type, f)?;
    write_name(field.name.as_str(), name, f)
}

// The name, if it isn't the usual one.
fn write_name<W: fmt::Write>(name: &str, usual: &str, f: &mut fmt::Formatter<W>) -> fmt::Result
    ensures { WritesOnOk W.write_str_gives f.old result (spec.name_text usual.now name.now) f.new }
{
    if name == usual {
        return Ok(());
    }
    f.write_str(" ('")?;
    f.write_str(name)?;
    f.write_str("')")
}

fn write_map_end<W: fmt::Write>(
    name: &str,
    is_sorted: bool,
    f: &mut fmt::Formatter<W>,
) -> fmt::Result
    ensures { WritesOnOk W.write_str_gives f.old result (spec.map_end name.now is_sorted) f.new }
{
    f.write_str(sorted_text(is_sorted))?;
    write_name(name, "entries", f)?;
    f.write_str(">")
}

fn sorted_text(is_sorted: bool) -> &'static str
    ensures { result.now ≡ spec.sorted_text is_sorted }
{
    if is_sorted { ", keys_sorted" } else { "" }
}

fn write_keys<W: fmt::Write>(
    keys: IntegerType,
    is_ordered: bool,
    f: &mut fmt::Formatter<W>,
) -> fmt::Result
    ensures { WritesOnOk W.write_str_gives f.old result (spec.keys_text keys is_ordered) f.new }
{
    f.write_str(", indices=")?;
    f.write_str(integer_text(keys))?;
    f.write_str(ordered_text(is_ordered))
}

fn integer_text(integer: IntegerType) -> &'static str
    ensures { result.now ≡ spec.integer_text integer }
{
    match integer {
        IntegerType::Int8 => "int8",
        IntegerType::Int16 => "int16",
        IntegerType::Int32 => "int32",
        IntegerType::Int64 => "int64",
        IntegerType::UInt8 => "uint8",
        IntegerType::UInt16 => "uint16",
        IntegerType::UInt32 => "uint32",
        IntegerType::UInt64 => "uint64",
    }
}

fn ordered_text(is_ordered: bool) -> &'static str
    ensures { result.now ≡ spec.ordered_text is_ordered }
{
    if is_ordered {
        ", ordered=1>"
    } else {
        ", ordered=0>"
    }
}

fn write_extension<W: fmt::Write>(name: &str, f: &mut fmt::Formatter<W>) -> fmt::Result
    ensures { WritesOnOk W.write_str_gives f.old result (spec.extension_text name.now) f.new }
{
    f.write_str("extension<")?;
    f.write_str(name)?;
    f.write_str(">")
}
