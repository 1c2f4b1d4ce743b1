//! Number types of columns, and their bytes.
#![tactic(auto)]

mod native;
mod parts;

pub use native::{NativeType, append_bytes, numbers_from_bytes};
pub use parts::{days_ms, i256, months_days_ns};

/// The number types that a column can have in memory.
#[derive(Debug, Clone, Copy, PartialEq, Eq)]
pub enum PrimitiveType {
    Int8,
    Int16,
    Int32,
    Int64,
    /// A signed integer of 128 bits.
    Int128,
    /// A signed integer of 256 bits.
    Int256,
    UInt8,
    UInt16,
    UInt32,
    UInt64,
    Float16,
    Float32,
    Float64,
    /// Days and milliseconds.
    DaysMs,
    /// Months, days and nanoseconds.
    MonthDayNano,
}

/// The byte order of numbers (Arrow columnar format, "Byte Order (Endianness)").
#[derive(Debug, Clone, Copy, PartialEq, Eq)]
pub enum Endianness {
    /// The lowest byte first.
    Little,
    /// The highest byte first.
    Big,
}
