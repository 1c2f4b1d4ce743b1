//! Arrays of numbers of any type except floats.
ghost use Rattle.std.specs.Prelude.{◌≡◌, ◌↔◌, ◌+◌, ◌≤◌, IsTrue, IfOk};
ghost use Rattle.std.specs.Ordering.{on};
ghost use Rattle.std.specs.Option.{option_copied};
ghost use Rattle.lower.specs.TypeViews.{type_view};
ghost use Rattle.lower_flat_arrays.specs.Validities.{null_count_of};
ghost use Rattle.lower_flat_arrays.specs.Columns.{IsSame, same_column};
ghost use Rattle.lower_flat_arrays.specs.ColumnLaws.{columns_equiv, columns_per};
ghost use Rattle.lower_validation.specs.Numbers.{IsNumbers, cut_numbers, numbers_column};
ghost use Rattle.lower_validation.specs.AnyNumbers.{numbers_seen};

use lower::bitmap::Bitmap;
use lower::datatypes::{DataType, is_same_type};
use lower::types::{days_ms, i256, months_days_ns};
use lower_flat_arrays::PrimitiveArray;
use lower_flat_arrays::equality::is_same_column;
use std::alloc::{AllocError, Global};
use std::fmt;

/// An array of numbers of any type except floats.
#[derive(Drop)]
pub enum AnyPrimitive {
    Int8(PrimitiveArray<i8>),
    Int16(PrimitiveArray<i16>),
    Int32(PrimitiveArray<i32>),
    Int64(PrimitiveArray<i64>),
    Int128(PrimitiveArray<i128>),
    Int256(PrimitiveArray<i256>),
    UInt8(PrimitiveArray<u8>),
    UInt16(PrimitiveArray<u16>),
    UInt32(PrimitiveArray<u32>),
    UInt64(PrimitiveArray<u64>),
    DaysMs(PrimitiveArray<days_ms>),
    MonthDayNano(PrimitiveArray<months_days_ns>),
}

impl AnyPrimitive {
    /// Returns the data type.
    pub fn data_type(&self) -> &DataType
        ensures tree { type_view result.now ≡ (numbers_seen self.now).type }
        ensures valid { IsNumbers (numbers_seen self.now) }
    {
        match self {
            AnyPrimitive::Int8(array) => array.data_type(),
            AnyPrimitive::Int16(array) => array.data_type(),
            AnyPrimitive::Int32(array) => array.data_type(),
            AnyPrimitive::Int64(array) => array.data_type(),
            AnyPrimitive::Int128(array) => array.data_type(),
            AnyPrimitive::Int256(array) => array.data_type(),
            AnyPrimitive::UInt8(array) => array.data_type(),
            AnyPrimitive::UInt16(array) => array.data_type(),
            AnyPrimitive::UInt32(array) => array.data_type(),
            AnyPrimitive::UInt64(array) => array.data_type(),
            AnyPrimitive::DaysMs(array) => array.data_type(),
            AnyPrimitive::MonthDayNano(array) => array.data_type(),
        }
    }

    /// Returns the validity bitmap, or `None` if there is none: all slots are valid.
    pub fn validity(&self) -> Option<&Bitmap>
        ensures bits { option_copied result ≡ (numbers_seen self.now).validity }
        ensures valid { IsNumbers (numbers_seen self.now) }
    {
        match self {
            AnyPrimitive::Int8(array) => array.validity(),
            AnyPrimitive::Int16(array) => array.validity(),
            AnyPrimitive::Int32(array) => array.validity(),
            AnyPrimitive::Int64(array) => array.validity(),
            AnyPrimitive::Int128(array) => array.validity(),
            AnyPrimitive::Int256(array) => array.validity(),
            AnyPrimitive::UInt8(array) => array.validity(),
            AnyPrimitive::UInt16(array) => array.validity(),
            AnyPrimitive::UInt32(array) => array.validity(),
            AnyPrimitive::UInt64(array) => array.validity(),
            AnyPrimitive::DaysMs(array) => array.validity(),
            AnyPrimitive::MonthDayNano(array) => array.validity(),
        }
    }

    /// Returns the number of slots.
    pub fn len(&self) -> usize
        ensures len { result ≡ (numbers_seen self.now).len }
        ensures valid { IsNumbers (numbers_seen self.now) }
    {
        match self {
            AnyPrimitive::Int8(array) => array.len(),
            AnyPrimitive::Int16(array) => array.len(),
            AnyPrimitive::Int32(array) => array.len(),
            AnyPrimitive::Int64(array) => array.len(),
            AnyPrimitive::Int128(array) => array.len(),
            AnyPrimitive::Int256(array) => array.len(),
            AnyPrimitive::UInt8(array) => array.len(),
            AnyPrimitive::UInt16(array) => array.len(),
            AnyPrimitive::UInt32(array) => array.len(),
            AnyPrimitive::UInt64(array) => array.len(),
            AnyPrimitive::DaysMs(array) => array.len(),
            AnyPrimitive::MonthDayNano(array) => array.len(),
        }
    }

    /// Returns the number of null slots.
    pub fn null_count(&self) -> usize
        ensures { result ≡ null_count_of (numbers_seen self.now).validity }
    {
        match self {
            AnyPrimitive::Int8(array) => array.null_count(),
            AnyPrimitive::Int16(array) => array.null_count(),
            AnyPrimitive::Int32(array) => array.null_count(),
            AnyPrimitive::Int64(array) => array.null_count(),
            AnyPrimitive::Int128(array) => array.null_count(),
            AnyPrimitive::Int256(array) => array.null_count(),
            AnyPrimitive::UInt8(array) => array.null_count(),
            AnyPrimitive::UInt16(array) => array.null_count(),
            AnyPrimitive::UInt32(array) => array.null_count(),
            AnyPrimitive::UInt64(array) => array.null_count(),
            AnyPrimitive::DaysMs(array) => array.null_count(),
            AnyPrimitive::MonthDayNano(array) => array.null_count(),
        }
    }

    /// Returns the `len` slots from `offset`, in the same memory. It allocates nothing.
    pub fn sliced(self, offset: usize, len: usize) -> Self
        requires { offset + len ≤ (numbers_seen self).len }
        ensures { numbers_seen result ≡ cut_numbers offset len (numbers_seen self) }
    {
        match self {
            AnyPrimitive::Int8(array) => AnyPrimitive::Int8(array.sliced(offset, len)),
            AnyPrimitive::Int16(array) => AnyPrimitive::Int16(array.sliced(offset, len)),
            AnyPrimitive::Int32(array) => AnyPrimitive::Int32(array.sliced(offset, len)),
            AnyPrimitive::Int64(array) => AnyPrimitive::Int64(array.sliced(offset, len)),
            AnyPrimitive::Int128(array) => AnyPrimitive::Int128(array.sliced(offset, len)),
            AnyPrimitive::Int256(array) => AnyPrimitive::Int256(array.sliced(offset, len)),
            AnyPrimitive::UInt8(array) => AnyPrimitive::UInt8(array.sliced(offset, len)),
            AnyPrimitive::UInt16(array) => AnyPrimitive::UInt16(array.sliced(offset, len)),
            AnyPrimitive::UInt32(array) => AnyPrimitive::UInt32(array.sliced(offset, len)),
            AnyPrimitive::UInt64(array) => AnyPrimitive::UInt64(array.sliced(offset, len)),
            AnyPrimitive::DaysMs(array) => AnyPrimitive::DaysMs(array.sliced(offset, len)),
            AnyPrimitive::MonthDayNano(array) => AnyPrimitive::MonthDayNano(array.sliced(
                offset, len,
            )),
        }
    }

    /// Returns the number of bytes that stay allocated as long as the array exists.
    ///
    /// See [`Buffer::retained_bytes`](lower::buffer::Buffer::retained_bytes). Memory that several
    /// of its buffers share counts for each.
    pub fn retained_bytes(&self) -> usize {
        match self {
            AnyPrimitive::Int8(array) => array.retained_bytes(),
            AnyPrimitive::Int16(array) => array.retained_bytes(),
            AnyPrimitive::Int32(array) => array.retained_bytes(),
            AnyPrimitive::Int64(array) => array.retained_bytes(),
            AnyPrimitive::Int128(array) => array.retained_bytes(),
            AnyPrimitive::Int256(array) => array.retained_bytes(),
            AnyPrimitive::UInt8(array) => array.retained_bytes(),
            AnyPrimitive::UInt16(array) => array.retained_bytes(),
            AnyPrimitive::UInt32(array) => array.retained_bytes(),
            AnyPrimitive::UInt64(array) => array.retained_bytes(),
            AnyPrimitive::DaysMs(array) => array.retained_bytes(),
            AnyPrimitive::MonthDayNano(array) => array.retained_bytes(),
        }
    }

    /// Returns an array of the same slots in memory of its own.
    ///
    /// It fails only if an allocation fails.
    pub fn compact(&self, alloc: Global) -> Result<Self, AllocError>
        ensures { IfOk result (λ copy. numbers_seen copy ≡ numbers_seen self.now) }
    {
        match self {
            AnyPrimitive::Int8(array) => Ok(AnyPrimitive::Int8(array.compact(alloc)?)),
            AnyPrimitive::Int16(array) => Ok(AnyPrimitive::Int16(array.compact(alloc)?)),
            AnyPrimitive::Int32(array) => Ok(AnyPrimitive::Int32(array.compact(alloc)?)),
            AnyPrimitive::Int64(array) => Ok(AnyPrimitive::Int64(array.compact(alloc)?)),
            AnyPrimitive::Int128(array) => Ok(AnyPrimitive::Int128(array.compact(alloc)?)),
            AnyPrimitive::Int256(array) => Ok(AnyPrimitive::Int256(array.compact(alloc)?)),
            AnyPrimitive::UInt8(array) => Ok(AnyPrimitive::UInt8(array.compact(alloc)?)),
            AnyPrimitive::UInt16(array) => Ok(AnyPrimitive::UInt16(array.compact(alloc)?)),
            AnyPrimitive::UInt32(array) => Ok(AnyPrimitive::UInt32(array.compact(alloc)?)),
            AnyPrimitive::UInt64(array) => Ok(AnyPrimitive::UInt64(array.compact(alloc)?)),
            AnyPrimitive::DaysMs(array) => Ok(AnyPrimitive::DaysMs(array.compact(alloc)?)),
            AnyPrimitive::MonthDayNano(array) => Ok(AnyPrimitive::MonthDayNano(array.compact(
                alloc,
            )?)),
        }
    }
}

impl Clone for AnyPrimitive {
    ghost is_clone = { λ a b. numbers_seen b ≡ numbers_seen a };

    /// Returns an array of the same slots, in the same memory.
    ///
    /// It fails if an allocation fails or the count of owners can't grow.
    fn clone(&self) -> Result<Self, AllocError> {
        match self {
            AnyPrimitive::Int8(array) => Ok(AnyPrimitive::Int8(array.clone()?)),
            AnyPrimitive::Int16(array) => Ok(AnyPrimitive::Int16(array.clone()?)),
            AnyPrimitive::Int32(array) => Ok(AnyPrimitive::Int32(array.clone()?)),
            AnyPrimitive::Int64(array) => Ok(AnyPrimitive::Int64(array.clone()?)),
            AnyPrimitive::Int128(array) => Ok(AnyPrimitive::Int128(array.clone()?)),
            AnyPrimitive::Int256(array) => Ok(AnyPrimitive::Int256(array.clone()?)),
            AnyPrimitive::UInt8(array) => Ok(AnyPrimitive::UInt8(array.clone()?)),
            AnyPrimitive::UInt16(array) => Ok(AnyPrimitive::UInt16(array.clone()?)),
            AnyPrimitive::UInt32(array) => Ok(AnyPrimitive::UInt32(array.clone()?)),
            AnyPrimitive::UInt64(array) => Ok(AnyPrimitive::UInt64(array.clone()?)),
            AnyPrimitive::DaysMs(array) => Ok(AnyPrimitive::DaysMs(array.clone()?)),
            AnyPrimitive::MonthDayNano(array) => Ok(AnyPrimitive::MonthDayNano(array.clone()?)),
        }
    }
}

/// Prints the array inside.
impl fmt::Debug for AnyPrimitive {
    fn fmt<W: fmt::Write>(&self, f: &mut fmt::Formatter<W>) -> fmt::Result {
        match self {
            AnyPrimitive::Int8(array) => fmt::Debug::fmt(array, f),
            AnyPrimitive::Int16(array) => fmt::Debug::fmt(array, f),
            AnyPrimitive::Int32(array) => fmt::Debug::fmt(array, f),
            AnyPrimitive::Int64(array) => fmt::Debug::fmt(array, f),
            AnyPrimitive::Int128(array) => fmt::Debug::fmt(array, f),
            AnyPrimitive::Int256(array) => fmt::Debug::fmt(array, f),
            AnyPrimitive::UInt8(array) => fmt::Debug::fmt(array, f),
            AnyPrimitive::UInt16(array) => fmt::Debug::fmt(array, f),
            AnyPrimitive::UInt32(array) => fmt::Debug::fmt(array, f),
            AnyPrimitive::UInt64(array) => fmt::Debug::fmt(array, f),
            AnyPrimitive::DaysMs(array) => fmt::Debug::fmt(array, f),
            AnyPrimitive::MonthDayNano(array) => fmt::Debug::fmt(array, f),
        }
    }
}

// Whether both have the same data type and the same slots.
fn are_same_numbers(numbers: &AnyPrimitive, others: &AnyPrimitive) -> bool
    ensures { IsTrue result ↔ IsSame (numbers_column (numbers_seen numbers.now)) (numbers_column (numbers_seen others.now)) }
{
    match (numbers, others) {
        (AnyPrimitive::Int8(lhs), AnyPrimitive::Int8(rhs)) => is_same_column(lhs, rhs),
        (AnyPrimitive::Int16(lhs), AnyPrimitive::Int16(rhs)) => is_same_column(lhs, rhs),
        (AnyPrimitive::Int32(lhs), AnyPrimitive::Int32(rhs)) => is_same_column(lhs, rhs),
        (AnyPrimitive::Int64(lhs), AnyPrimitive::Int64(rhs)) => is_same_column(lhs, rhs),
        (AnyPrimitive::Int128(lhs), AnyPrimitive::Int128(rhs)) => is_same_column(lhs, rhs),
        (AnyPrimitive::Int256(lhs), AnyPrimitive::Int256(rhs)) => is_same_column(lhs, rhs),
        (AnyPrimitive::UInt8(lhs), AnyPrimitive::UInt8(rhs)) => is_same_column(lhs, rhs),
        (AnyPrimitive::UInt16(lhs), AnyPrimitive::UInt16(rhs)) => is_same_column(lhs, rhs),
        (AnyPrimitive::UInt32(lhs), AnyPrimitive::UInt32(rhs)) => is_same_column(lhs, rhs),
        (AnyPrimitive::UInt64(lhs), AnyPrimitive::UInt64(rhs)) => is_same_column(lhs, rhs),
        (AnyPrimitive::DaysMs(lhs), AnyPrimitive::DaysMs(rhs)) => is_same_column(lhs, rhs),
        (AnyPrimitive::MonthDayNano(lhs), AnyPrimitive::MonthDayNano(rhs)) => is_same_column(
            lhs, rhs,
        ),
        // Different number types have different layouts, so these data types differ.
        _ => is_same_type(numbers.data_type(), others.data_type()),
    }
}

impl PartialEq for AnyPrimitive {
    ghost eq = { on (λ a. numbers_column (numbers_seen a)) same_column };

    ghost laws = { columns_per (λ a. numbers_column (numbers_seen a)) };

    fn eq(&self, other: &Self) -> bool {
        are_same_numbers(self, other)
    }
}

impl Eq for AnyPrimitive {
    ghost laws = { columns_equiv (λ a. numbers_column (numbers_seen a)) };
}
