//! The memory layouts of columns.
ghost use Rattle.std.specs.Prelude.{◌≡◌};

use super::{DataType, IntegerType, IntervalUnit};
use crate::types::PrimitiveType;

/// The memory layout of a column (Arrow columnar format, "Physical Memory Layout").
///
/// Several data types can have the same layout: a 32-bit date has that of a 32-bit integer.
#[derive(Debug, Clone, Copy, PartialEq, Eq)]
pub enum PhysicalType {
    /// No memory.
    Null,
    /// One bit for each slot.
    Boolean,
    /// One number for each slot.
    Primitive(PrimitiveType),
    /// Concatenated bytes, with 32-bit offsets.
    Binary,
    /// The same number of bytes for each slot.
    FixedSizeBinary,
    /// Concatenated bytes, with 64-bit offsets.
    LargeBinary,
    /// Concatenated UTF-8 bytes, with 32-bit offsets.
    Utf8,
    /// Concatenated UTF-8 bytes, with 64-bit offsets.
    LargeUtf8,
    /// Concatenated slots of a child, with 32-bit offsets.
    List,
    /// The same number of slots of a child for each slot.
    FixedSizeList,
    /// Concatenated slots of a child, with 64-bit offsets.
    LargeList,
    /// One slot of each child.
    Struct,
    /// One slot of one child.
    Union,
    /// Lists of key-value pairs.
    Map,
    /// One key of this type for each slot.
    Dictionary(IntegerType),
}

impl DataType {
    ghost use Rattle.lower.specs.TypeViews.{type_view};
    ghost use Rattle.lower.specs.Physical.{physical, logical};

    /// Returns the memory layout of columns of this type. An extension has that of its storage
    /// type.
    pub fn to_physical_type(&self) -> PhysicalType
        ensures { result ≡ physical (type_view self.now) }
    {
        match self {
            DataType::Null => PhysicalType::Null,
            DataType::Boolean => PhysicalType::Boolean,
            DataType::Int8 => PhysicalType::Primitive(PrimitiveType::Int8),
            DataType::Int16 => PhysicalType::Primitive(PrimitiveType::Int16),
            DataType::Int32
            | DataType::Date32
            | DataType::Time32(_)
            | DataType::Interval(IntervalUnit::YearMonth) => {
                PhysicalType::Primitive(PrimitiveType::Int32)
            }
            DataType::Int64
            | DataType::Date64
            | DataType::Timestamp(_, _)
            | DataType::Time64(_)
            | DataType::Duration(_) => PhysicalType::Primitive(PrimitiveType::Int64),
            DataType::Decimal(_, _) => PhysicalType::Primitive(PrimitiveType::Int128),
            DataType::Decimal256(_, _) => PhysicalType::Primitive(PrimitiveType::Int256),
            DataType::UInt8 => PhysicalType::Primitive(PrimitiveType::UInt8),
            DataType::UInt16 => PhysicalType::Primitive(PrimitiveType::UInt16),
            DataType::UInt32 => PhysicalType::Primitive(PrimitiveType::UInt32),
            DataType::UInt64 => PhysicalType::Primitive(PrimitiveType::UInt64),
            DataType::Float16 => PhysicalType::Primitive(PrimitiveType::Float16),
            DataType::Float32 => PhysicalType::Primitive(PrimitiveType::Float32),
            DataType::Float64 => PhysicalType::Primitive(PrimitiveType::Float64),
            DataType::Interval(IntervalUnit::DayTime) => {
                PhysicalType::Primitive(PrimitiveType::DaysMs)
            }
            DataType::Interval(IntervalUnit::MonthDayNano) => {
                PhysicalType::Primitive(PrimitiveType::MonthDayNano)
            }
            DataType::Binary => PhysicalType::Binary,
            DataType::FixedSizeBinary(_) => PhysicalType::FixedSizeBinary,
            DataType::LargeBinary => PhysicalType::LargeBinary,
            DataType::Utf8 => PhysicalType::Utf8,
            DataType::LargeUtf8 => PhysicalType::LargeUtf8,
            DataType::List(_) => PhysicalType::List,
            DataType::FixedSizeList(_, _) => PhysicalType::FixedSizeList,
            DataType::LargeList(_) => PhysicalType::LargeList,
            DataType::Struct(_) => PhysicalType::Struct,
            DataType::Union(_, _, _) => PhysicalType::Union,
            DataType::Map(_, _) => PhysicalType::Map,
            DataType::Dictionary(keys, _, _) => PhysicalType::Dictionary(*keys),
            DataType::Extension(_, inner, _) => inner.to_physical_type(),
        }
    }

    /// Returns the type without its extensions.
    pub fn to_logical_type(&self) -> &DataType
        ensures { type_view result.now ≡ logical (type_view self.now) }
    {
        match self {
            DataType::Extension(_, inner, _) => inner.to_logical_type(),
            _ => self,
        }
    }
}

impl From<IntegerType> for DataType {
    ghost use Rattle.lower.specs.TypeTrees.{plain};
    ghost use Rattle.lower.specs.TypeViews.{type_view};
    ghost use Rattle.lower.specs.Physical.{integer};

    ghost from_gives = { λ keys data_type. type_view data_type ≡ plain (integer keys) };

    fn from(keys: IntegerType) -> DataType {
        match keys {
            IntegerType::Int8 => DataType::Int8,
            IntegerType::Int16 => DataType::Int16,
            IntegerType::Int32 => DataType::Int32,
            IntegerType::Int64 => DataType::Int64,
            IntegerType::UInt8 => DataType::UInt8,
            IntegerType::UInt16 => DataType::UInt16,
            IntegerType::UInt32 => DataType::UInt32,
            IntegerType::UInt64 => DataType::UInt64,
        }
    }
}

impl From<PrimitiveType> for DataType {
    ghost use Rattle.lower.specs.TypeTrees.{plain};
    ghost use Rattle.lower.specs.TypeViews.{type_view};
    ghost use Rattle.lower.specs.Physical.{physical, number_type};
    ghost use Rattle.lower.specs.declared.datatypes.physical_type.PhysicalType.TheVariants.{Primitive};

    ghost from_gives = { λ number data_type. (type_view data_type ≡ plain (number_type number)) × (physical (type_view data_type) ≡ Primitive number) };

    /// Returns the default type of an array of these numbers.
    ///
    /// Its layout is that of the numbers. For 128 and 256 bits it is a decimal of precision 32 and
    /// scale 32.
    fn from(number: PrimitiveType) -> DataType {
        match number {
            PrimitiveType::Int8 => DataType::Int8,
            PrimitiveType::Int16 => DataType::Int16,
            PrimitiveType::Int32 => DataType::Int32,
            PrimitiveType::Int64 => DataType::Int64,
            PrimitiveType::Int128 => DataType::Decimal(32, 32),
            PrimitiveType::Int256 => DataType::Decimal256(32, 32),
            PrimitiveType::UInt8 => DataType::UInt8,
            PrimitiveType::UInt16 => DataType::UInt16,
            PrimitiveType::UInt32 => DataType::UInt32,
            PrimitiveType::UInt64 => DataType::UInt64,
            PrimitiveType::Float16 => DataType::Float16,
            PrimitiveType::Float32 => DataType::Float32,
            PrimitiveType::Float64 => DataType::Float64,
            PrimitiveType::DaysMs => DataType::Interval(IntervalUnit::DayTime),
            PrimitiveType::MonthDayNano => DataType::Interval(IntervalUnit::MonthDayNano),
        }
    }
}
