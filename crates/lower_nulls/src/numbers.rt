//! Null numbers.
ghost use Rattle.std.specs.Prelude.{◌≡◌, IfOk};
ghost use Rattle.lower.specs.TypeViews.{type_view};
ghost use Rattle.lower.specs.Physical.{physical};
ghost use Rattle.lower.specs.declared.datatypes.physical_type.PhysicalType.TheVariants.{Primitive};
ghost use Rattle.lower_arrays.specs.AnyLayouts.{any_primitive_layout};
ghost use Rattle.lower_nulls.specs.Nulls.{AreNulls};
ghost use Rattle.lower_nulls.specs.Storage.{IsExact, AreNullNumbers};

use crate::parts::{repeated, unset_bits};
use lower::buffer::Buffer;
use lower::datatypes::DataType;
use lower::types::PrimitiveType;
use lower_builders::zero::Zero;
use lower_flat_arrays::PrimitiveArray;
use lower_validation::numbers::AnyPrimitive;
use std::alloc::{AllocError, Global};

// Null numbers of one type.
pub(crate) fn null_numbers<T: Zero>(
    alloc: Global,
    data_type: DataType,
    length: usize,
) -> Result<PrimitiveArray<T>, AllocError>
    requires { physical (type_view data_type) ≡ Primitive T.primitive }
    ensures { IfOk result (AreNullNumbers (type_view data_type) length) }
{
    let values = Buffer::new(repeated(alloc, T::zero(), length)?)?;
    let validity = unset_bits(alloc, length)?;
    match PrimitiveArray::try_new(data_type, values, Some(validity)) {
        Ok(array) => Ok(array),
        Err(_) => unreachable!(),
    }
}

// Null numbers of any type but floats.
pub(crate) fn null_primitive(
    alloc: Global,
    number: PrimitiveType,
    data_type: DataType,
    length: usize,
) -> Result<AnyPrimitive, AllocError>
    requires lies { physical (type_view data_type) ≡ Primitive number }
    requires exact { IsExact number }
    ensures { let t = type_view data_type in
        IfOk result (λ a. AreNulls t length (any_primitive_layout a)) }
{
    match number {
        PrimitiveType::Int8 => Ok(AnyPrimitive::Int8(null_numbers(alloc, data_type, length)?)),
        PrimitiveType::Int16 => Ok(AnyPrimitive::Int16(null_numbers(alloc, data_type, length)?)),
        PrimitiveType::Int32 => Ok(AnyPrimitive::Int32(null_numbers(alloc, data_type, length)?)),
        PrimitiveType::Int64 => Ok(AnyPrimitive::Int64(null_numbers(alloc, data_type, length)?)),
        PrimitiveType::Int128 => Ok(AnyPrimitive::Int128(null_numbers(alloc, data_type, length)?)),
        PrimitiveType::Int256 => Ok(AnyPrimitive::Int256(null_numbers(alloc, data_type, length)?)),
        PrimitiveType::UInt8 => Ok(AnyPrimitive::UInt8(null_numbers(alloc, data_type, length)?)),
        PrimitiveType::UInt16 => Ok(AnyPrimitive::UInt16(null_numbers(alloc, data_type, length)?)),
        PrimitiveType::UInt32 => Ok(AnyPrimitive::UInt32(null_numbers(alloc, data_type, length)?)),
        PrimitiveType::UInt64 => Ok(AnyPrimitive::UInt64(null_numbers(alloc, data_type, length)?)),
        PrimitiveType::DaysMs => Ok(AnyPrimitive::DaysMs(null_numbers(alloc, data_type, length)?)),
        PrimitiveType::MonthDayNano => Ok(AnyPrimitive::MonthDayNano(null_numbers(
            alloc, data_type, length,
        )?)),
        PrimitiveType::Float16 | PrimitiveType::Float32 | PrimitiveType::Float64 => unreachable!(),
    }
}
