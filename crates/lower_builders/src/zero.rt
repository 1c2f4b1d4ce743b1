//! The number that the slot of a null holds.
use lower::types::{NativeType, days_ms, i256, months_days_ns};

/// A number type that has a zero.
pub trait Zero: NativeType {
    /// Returns the number whose bytes are all 0.
    fn zero() -> Self;
}

impl Zero for i8 {
    fn zero() -> i8 {
        0
    }
}

impl Zero for i16 {
    fn zero() -> i16 {
        0
    }
}

impl Zero for i32 {
    fn zero() -> i32 {
        0
    }
}

impl Zero for i64 {
    fn zero() -> i64 {
        0
    }
}

impl Zero for i128 {
    fn zero() -> i128 {
        0
    }
}

impl Zero for u8 {
    fn zero() -> u8 {
        0
    }
}

impl Zero for u16 {
    fn zero() -> u16 {
        0
    }
}

impl Zero for u32 {
    fn zero() -> u32 {
        0
    }
}

impl Zero for u64 {
    fn zero() -> u64 {
        0
    }
}

impl Zero for days_ms {
    fn zero() -> days_ms {
        days_ms {
            days: 0,
            milliseconds: 0,
        }
    }
}

impl Zero for months_days_ns {
    fn zero() -> months_days_ns {
        months_days_ns {
            months: 0,
            days: 0,
            nanoseconds: 0,
        }
    }
}

impl Zero for i256 {
    fn zero() -> i256 {
        i256 { low: 0, high: 0 }
    }
}
