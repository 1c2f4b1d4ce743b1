//! Numbers, decimals and spans as texts.

use crate::displays::{int32, int64, numbers, prints};
use lower::buffer::Buffer;
use lower::datatypes::{DataType, IntervalUnit, TimeUnit};
use lower::types::{days_ms, i256, months_days_ns};
use lower_arrays::array::{AnyArray, PrimitiveArray};
use lower_display::get_display;
use std::alloc::{AllocError, Global};
use std::test::Fail;

fn int128(alloc: Global, data_type: DataType, values: &[i128]) -> Result<AnyArray, Fail> {
    let values = Buffer::new(Vec::from_slice(alloc, values)?)?;
    Ok(AnyArray::from(PrimitiveArray::try_new(data_type, values, None)?))
}

#[test]
fn numbers_are_in_decimal(rt: HostRuntime) -> Result<(), Fail> {
    let alloc = rt.alloc();
    assert!(rt; prints(alloc, numbers(alloc)?, &["7", "null", "9"])?);
    let ends = int64(alloc, DataType::Int64, &[i64::MIN, 0, i64::MAX])?;
    let texts = ["-9223372036854775808", "0", "9223372036854775807"];
    assert!(rt; prints(alloc, ends, &texts)?);
    Ok(())
}

// Whether the second slot, a null, prints as the text that was given for nulls.
fn has_null(alloc: Global, array: &AnyArray, null: &str) -> Result<bool, AllocError> {
    match get_display(array, null).slot(1) {
        Some(slot) => Ok(format!(in alloc; "{slot}")?.as_str() == null),
        None => Ok(false),
    }
}

#[test]
fn nulls_are_the_given_text(rt: HostRuntime) -> Result<(), Fail> {
    let alloc = rt.alloc();
    let array = numbers(alloc)?;
    for null in ["", "n/a"] {
        assert!(rt; has_null(alloc, &array, null)?, "{null}");
    }
    Ok(())
}

// Numbers of a time unit, and their texts as spans.
const SPANS: [(TimeUnit, i64, &str); 5] = [
    (TimeUnit::Second, 90, "90s"),
    (TimeUnit::Millisecond, -5, "-5ms"),
    (TimeUnit::Microsecond, 0, "0us"),
    (TimeUnit::Nanosecond, 1, "1ns"),
    (TimeUnit::Nanosecond, i64::MIN, "-9223372036854775808ns"),
];

#[test]
fn spans_have_their_unit(rt: HostRuntime) -> Result<(), Fail> {
    let alloc = rt.alloc();
    for (unit, number, text) in SPANS {
        let array = int64(alloc, DataType::Duration(unit), &[number])?;
        assert!(rt; prints(alloc, array, &[text])?, "{text}");
    }
    Ok(())
}

#[test]
fn intervals_have_their_parts(rt: HostRuntime) -> Result<(), Fail> {
    let alloc = rt.alloc();
    let months = int32(
        alloc,
        DataType::Interval(IntervalUnit::YearMonth),
        &[14, -1],
    )?;
    assert!(rt; prints(alloc, months, &["14m", "-1m"])?);
    let span = days_ms {
        days: 1,
        milliseconds: -500,
    };
    let array = PrimitiveArray::from_slice(alloc, &[span])?;
    assert!(rt; prints(alloc, AnyArray::from(array), &["1d-500ms"])?);
    let span = months_days_ns {
        months: 3,
        days: 1,
        nanoseconds: 0,
    };
    let array = PrimitiveArray::from_slice(alloc, &[span])?;
    assert!(rt; prints(alloc, AnyArray::from(array), &["3m1d0ns"])?);
    Ok(())
}

#[test]
fn decimals_have_their_point(rt: HostRuntime) -> Result<(), Fail> {
    let alloc = rt.alloc();
    let two = int128(alloc, DataType::Decimal(5, 2), &[-150, 5, -5, 0, 12_345])?;
    let texts = ["-1.50", "0.05", "-0.05", "0.00", "123.45"];
    assert!(rt; prints(alloc, two, &texts)?);
    let none = int128(alloc, DataType::Decimal(38, 0), &[i128::MIN])?;
    let least = "-170141183460469231731687303715884105728";
    assert!(rt; prints(alloc, none, &[least])?);
    let all = int128(alloc, DataType::Decimal(38, 38), &[1])?;
    let text = "0.00000000000000000000000000000000000001";
    assert!(rt; prints(alloc, all, &[text])?);
    let many = int128(alloc, DataType::Decimal(38, 40), &[-7])?;
    assert!(rt; prints(alloc, many, &["-7E-40"])?);
    Ok(())
}

fn wide(high: i128, low: u128) -> i256 {
    i256 { low, high }
}

fn wide_decimals(alloc: Global, scale: usize, values: &[i256]) -> Result<AnyArray, Fail> {
    let values = Buffer::new(Vec::from_slice(alloc, values)?)?;
    let data_type = DataType::Decimal256(76, scale);
    Ok(AnyArray::from(PrimitiveArray::try_new(data_type, values, None)?))
}

#[test]
fn wide_decimals_have_their_point(rt: HostRuntime) -> Result<(), Fail> {
    let alloc = rt.alloc();
    let values = [
        // -150 and 5
        wide(-1, u128::MAX - 149),
        wide(0, 5),
        // 2 ^ 128 and -2 ^ 128
        wide(1, 0),
        wide(-1, 0),
        // the greatest and the least
        wide(i128::MAX, u128::MAX),
        wide(i128::MIN, 0),
    ];
    let texts = [
        "-1.50",
        "0.05",
        "3402823669209384634633746074317682114.56",
        "-3402823669209384634633746074317682114.56",
        "578960446186580977117854925043439539266349923328202820197287920039565648199.67",
        "-578960446186580977117854925043439539266349923328202820197287920039565648199.68",
    ];
    assert!(rt; prints(alloc, wide_decimals(alloc, 2, &values)?, &texts)?);
    let whole = wide_decimals(alloc, 0, &[wide(0, 0), wide(-1, u128::MAX)])?;
    assert!(rt; prints(alloc, whole, &["0", "-1"])?);
    let many = wide_decimals(alloc, 80, &[wide(0, 120)])?;
    assert!(rt; prints(alloc, many, &["120E-80"])?);
    Ok(())
}
