//! The types of columns, fields and schemas.
//!
//! Arrow columnar format, "Terminology" and "Data Types": a data type says which values a column
//! can have, its physical type how they are laid out in memory. The units, tags and parameters are
//! those of the format's `Schema.fbs`.
pub mod bits;
pub mod clones;
pub mod columns;
pub mod counts;
pub mod equal;
mod fields;
pub mod normal;
mod physical_type;
mod same_normal;
mod schema;
mod texts;

pub use bits::{fields_as_bits, type_as_bits};
pub use columns::{NameError, ProjectError, columns_named};
pub use counts::{
    count_all_buffers, count_all_nodes, count_buffers, count_nodes, is_dictionary_type,
    is_within_levels,
};
pub use equal::{is_same_field, is_same_schema, is_same_type};
pub use physical_type::PhysicalType;
pub use same_normal::is_same_normal_type;
pub use schema::Schema;
use std::collections::BTreeMap;

/// Key-value pairs of a field or a schema.
///
/// Arrow columnar format, "Custom Application Metadata" and "Extension Types".
pub type Metadata = BTreeMap<String, String>;

/// The integer types that the keys of a dictionary can have.
#[derive(Debug, Clone, Copy, PartialEq, Eq)]
pub enum IntegerType {
    Int8,
    Int16,
    Int32,
    Int64,
    UInt8,
    UInt16,
    UInt32,
    UInt64,
}

/// The unit of a time.
#[derive(Debug, Clone, Copy, PartialEq, Eq)]
pub enum TimeUnit {
    Second,
    Millisecond,
    Microsecond,
    Nanosecond,
}

/// The parts of a calendar interval.
#[derive(Debug, Clone, Copy, PartialEq, Eq)]
pub enum IntervalUnit {
    /// Whole months, in 32 bits.
    YearMonth,
    /// Days and milliseconds, each in 32 bits.
    DayTime,
    /// Months and days, each in 32 bits, and nanoseconds in 64.
    MonthDayNano,
}

/// The layout of the children of a union (Arrow columnar format, "Union Layout").
#[derive(Debug, Clone, Copy, PartialEq, Eq)]
pub enum UnionMode {
    /// Each slot has an offset into its child.
    Dense,
    /// Each child has as many slots as the union.
    Sparse,
}

/// The name and type of a column or of a nested type's child.
#[cycle(types)]
#[derive(Debug, Drop, PartialEq, Eq)]
pub struct Field {
    pub name: String,
    pub data_type: DataType,
    /// Whether slots may be null.
    pub is_nullable: bool,
    pub metadata: Metadata,
}

/// The type of a column (Arrow columnar format, "Data Types").
#[cycle(types)]
#[derive(Debug, Drop, PartialEq, Eq)]
pub enum DataType {
    Null,
    Boolean,
    Int8,
    Int16,
    Int32,
    Int64,
    UInt8,
    UInt16,
    UInt32,
    UInt64,
    Float16,
    Float32,
    Float64,
    /// A time since 1970-01-01, in 64 bits: its unit, and the name of a timezone if it has one.
    Timestamp(TimeUnit, Option<String>),
    /// Days since 1970-01-01, in 32 bits.
    Date32,
    /// Milliseconds since 1970-01-01, in 64 bits.
    Date64,
    /// A time of day, in 32 bits.
    Time32(TimeUnit),
    /// A time of day, in 64 bits.
    Time64(TimeUnit),
    /// A time span, in 64 bits.
    Duration(TimeUnit),
    /// A calendar interval.
    Interval(IntervalUnit),
    /// Byte strings of any length, with 32-bit offsets.
    Binary,
    /// Byte strings of one length, in bytes.
    FixedSizeBinary(usize),
    /// Byte strings of any length, with 64-bit offsets.
    LargeBinary,
    /// UTF-8 strings, with 32-bit offsets.
    Utf8,
    /// UTF-8 strings, with 64-bit offsets.
    LargeUtf8,
    /// Lists of any length, with 32-bit offsets.
    List(Box<Field>),
    /// Lists of one length, in slots of the child.
    FixedSizeList(Box<Field>, usize),
    /// Lists of any length, with 64-bit offsets.
    LargeList(Box<Field>),
    /// Records: each slot is one slot of each child.
    Struct(Vec<Field>),
    /// Each slot is one slot of one child, selected by a type id: the children, their ids unless
    /// these are 0, 1, 2 and so on, and the layout.
    Union(Vec<Field>, Option<Vec<i32>>, UnionMode),
    /// Lists of key-value pairs: the field of the pairs, and whether the keys within a slot are
    /// sorted.
    Map(Box<Field>, bool),
    /// Indices into the values of a dictionary: the type of the indices, that of the values, and
    /// whether the order of the values has a meaning.
    Dictionary(IntegerType, Box<DataType>, bool),
    /// An extension type: its name, its storage type, and its metadata.
    Extension(String, Box<DataType>, Option<String>),
    /// A 128-bit decimal number: its precision, and its scale (digits after the point).
    Decimal(usize, usize),
    /// A 256-bit decimal number: its precision, and its scale (digits after the point).
    Decimal256(usize, usize),
}
