//! Downcasts of arrays of numbers.
ghost use Rattle.std.specs.Prelude.{◌≡◌, MatchOption};
ghost use Rattle.lower_validation.specs.Numbers.{numbers_in};
ghost use Rattle.lower_validation.specs.AnyNumbers.{numbers_seen};

use crate::numbers::AnyPrimitive;
use lower::types::{NativeType, days_ms, i256, months_days_ns};
use lower_flat_arrays::PrimitiveArray;

/// A number type of which an [`AnyPrimitive`] can be.
pub trait Numeric: NativeType {
    /// Returns the array with its number type, or `None` if that isn't `Self`.
    fn downcast_ref(array: &AnyPrimitive) -> Option<&PrimitiveArray<Self>>
        ensures { MatchOption result
            (¬ ((numbers_seen array.now).number ≡ Self.primitive))
            (λ a. numbers_in Self.primitive Self.number a.now ≡ numbers_seen array.now) };
}

impl Numeric for i8 {
    fn downcast_ref(array: &AnyPrimitive) -> Option<&PrimitiveArray<i8>> {
        match array {
            AnyPrimitive::Int8(array) => Some(array),
            _ => None,
        }
    }
}

impl Numeric for i16 {
    fn downcast_ref(array: &AnyPrimitive) -> Option<&PrimitiveArray<i16>> {
        match array {
            AnyPrimitive::Int16(array) => Some(array),
            _ => None,
        }
    }
}

impl Numeric for i32 {
    fn downcast_ref(array: &AnyPrimitive) -> Option<&PrimitiveArray<i32>> {
        match array {
            AnyPrimitive::Int32(array) => Some(array),
            _ => None,
        }
    }
}

impl Numeric for i64 {
    fn downcast_ref(array: &AnyPrimitive) -> Option<&PrimitiveArray<i64>> {
        match array {
            AnyPrimitive::Int64(array) => Some(array),
            _ => None,
        }
    }
}

impl Numeric for i128 {
    fn downcast_ref(array: &AnyPrimitive) -> Option<&PrimitiveArray<i128>> {
        match array {
            AnyPrimitive::Int128(array) => Some(array),
            _ => None,
        }
    }
}

impl Numeric for i256 {
    fn downcast_ref(array: &AnyPrimitive) -> Option<&PrimitiveArray<i256>> {
        match array {
            AnyPrimitive::Int256(array) => Some(array),
            _ => None,
        }
    }
}

impl Numeric for u8 {
    fn downcast_ref(array: &AnyPrimitive) -> Option<&PrimitiveArray<u8>> {
        match array {
            AnyPrimitive::UInt8(array) => Some(array),
            _ => None,
        }
    }
}

impl Numeric for u16 {
    fn downcast_ref(array: &AnyPrimitive) -> Option<&PrimitiveArray<u16>> {
        match array {
            AnyPrimitive::UInt16(array) => Some(array),
            _ => None,
        }
    }
}

impl Numeric for u32 {
    fn downcast_ref(array: &AnyPrimitive) -> Option<&PrimitiveArray<u32>> {
        match array {
            AnyPrimitive::UInt32(array) => Some(array),
            _ => None,
        }
    }
}

impl Numeric for u64 {
    fn downcast_ref(array: &AnyPrimitive) -> Option<&PrimitiveArray<u64>> {
        match array {
            AnyPrimitive::UInt64(array) => Some(array),
            _ => None,
        }
    }
}

impl Numeric for days_ms {
    fn downcast_ref(array: &AnyPrimitive) -> Option<&PrimitiveArray<days_ms>> {
        match array {
            AnyPrimitive::DaysMs(array) => Some(array),
            _ => None,
        }
    }
}

impl Numeric for months_days_ns {
    fn downcast_ref(array: &AnyPrimitive) -> Option<&PrimitiveArray<months_days_ns>> {
        match array {
            AnyPrimitive::MonthDayNano(array) => Some(array),
            _ => None,
        }
    }
}
