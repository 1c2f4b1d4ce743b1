//! Number types of columns, and their bytes.
pub use lower_types::{
    Endianness, NativeType, PrimitiveType, append_bytes, days_ms, i256, months_days_ns,
    numbers_from_bytes,
};
