//! arrow2's `types`: number types of columns, their bytes, and floats by their bits.
pub use lower::floats::{f16_of_bits, f32_of_bits, f64_of_bits};
pub use lower::types::{
    Endianness, NativeType, PrimitiveType, append_bytes, days_ms, i256, months_days_ns,
    numbers_from_bytes,
};
pub use lower_builders::zero::Zero;
