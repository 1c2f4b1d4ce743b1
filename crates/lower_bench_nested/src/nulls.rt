//! Arrays of nulls of types without children.

use lower::datatypes::{DataType, IntervalUnit, TimeUnit};
use lower_arrays::array::AnyArray;
use lower_arrays::value::Value;
use lower_nulls::error::NullError;
use lower_nulls::{new_empty_array, new_null_array};
use std::alloc::Global;
use std::test::Fail;

// Whether an array has this type and this many slots, which are all null.
fn has_nulls(array: &AnyArray, data_type: &DataType, length: usize) -> bool {
    if array.data_type() != data_type || array.len() != length {
        return false;
    }
    for value in array.iter() {
        if value != Value::Null {
            return false;
        }
    }
    true
}

fn is_null(alloc: Global, data_type: &DataType, length: usize) -> Result<bool, NullError> {
    let array = new_null_array(alloc, data_type.clone()?, length)?;
    Ok(has_nulls(&array, data_type, length))
}

fn is_empty(alloc: Global, data_type: &DataType) -> Result<bool, NullError> {
    let array = new_empty_array(alloc, data_type.clone()?)?;
    Ok(has_nulls(&array, data_type, 0))
}

/// Whether there are arrays of the type without slots, of one null, and of nine.
pub fn has_null_arrays(alloc: Global, data_type: &DataType) -> Result<bool, NullError> {
    for length in [0, 1, 9] {
        if !is_null(alloc, data_type, length)? {
            return Ok(false);
        }
    }
    is_empty(alloc, data_type)
}

fn number_types() -> [DataType; 10] {
    [
        DataType::Int8,
        DataType::Int16,
        DataType::Int32,
        DataType::Int64,
        DataType::UInt8,
        DataType::UInt16,
        DataType::UInt32,
        DataType::UInt64,
        DataType::Decimal(38, 2),
        DataType::Decimal256(76, 2),
    ]
}

fn time_types() -> [DataType; 9] {
    [
        DataType::Timestamp(TimeUnit::Second, None),
        DataType::Date32,
        DataType::Date64,
        DataType::Time32(TimeUnit::Second),
        DataType::Time64(TimeUnit::Nanosecond),
        DataType::Duration(TimeUnit::Second),
        DataType::Interval(IntervalUnit::YearMonth),
        DataType::Interval(IntervalUnit::DayTime),
        DataType::Interval(IntervalUnit::MonthDayNano),
    ]
}

fn byte_types() -> [DataType; 7] {
    [
        DataType::Null,
        DataType::Boolean,
        DataType::Binary,
        DataType::LargeBinary,
        DataType::Utf8,
        DataType::LargeUtf8,
        DataType::FixedSizeBinary(3),
    ]
}

#[test]
fn numbers_are_null(rt: HostRuntime) -> Result<(), Fail> {
    let types = number_types();
    for data_type in &types {
        assert!(rt; has_null_arrays(rt.alloc(), data_type)?, "{data_type}");
    }
    Ok(())
}

#[test]
fn times_are_null(rt: HostRuntime) -> Result<(), Fail> {
    let types = time_types();
    for data_type in &types {
        assert!(rt; has_null_arrays(rt.alloc(), data_type)?, "{data_type}");
    }
    Ok(())
}

#[test]
fn bytes_are_null(rt: HostRuntime) -> Result<(), Fail> {
    let types = byte_types();
    for data_type in &types {
        assert!(rt; has_null_arrays(rt.alloc(), data_type)?, "{data_type}");
    }
    Ok(())
}
