//! Dates, times and time stamps as texts, as in ISO 8601.

use crate::displays::{int32, int64, prints};
use lower::datatypes::{DataType, TimeUnit};
use lower_arrays::array::AnyArray;
use std::alloc::Global;
use std::test::Fail;

// Days from 1970-01-01, and their dates in the proleptic Gregorian calendar (ISO 8601), or their
// numbers for years of more than four digits.
const DATES: [(i32, &str); 16] = [
    (0, "1970-01-01"),
    (-1, "1969-12-31"),
    (18_658, "2021-01-31"),
    (10_956, "1999-12-31"),
    // leap days, and none in 1900 and 2100
    (11_016, "2000-02-29"),
    (-135_081, "1600-02-29"),
    (-25_509, "1900-02-28"),
    (-25_508, "1900-03-01"),
    (47_540, "2100-02-28"),
    (47_541, "2100-03-01"),
    (-141_427, "1582-10-15"),
    // the years 1, 0 and -1
    (-719_162, "0001-01-01"),
    (-719_528, "0000-01-01"),
    (-719_529, "-0001-12-31"),
    (2_932_896, "9999-12-31"),
    (2_932_897, "2932897"),
];

#[test]
fn dates_are_of_the_gregorian_calendar(rt: HostRuntime) -> Result<(), Fail> {
    let alloc = rt.alloc();
    for (day, text) in DATES {
        let array = int32(alloc, DataType::Date32, &[day])?;
        assert!(rt; prints(alloc, array, &[text])?, "{text}");
    }
    Ok(())
}

#[test]
fn dates_in_milliseconds_are_those_of_their_days(rt: HostRuntime) -> Result<(), Fail> {
    let alloc = rt.alloc();
    let milliseconds = [0, 86_399_999, 86_400_000, -1, -86_400_000, i64::MAX];
    let texts = [
        "1970-01-01",
        "1970-01-01",
        "1970-01-02",
        "1969-12-31",
        "1969-12-31",
        "9223372036854775807",
    ];
    let array = int64(alloc, DataType::Date64, &milliseconds)?;
    assert!(rt; prints(alloc, array, &texts)?);
    Ok(())
}

#[test]
fn times_have_all_digits_of_their_unit(rt: HostRuntime) -> Result<(), Fail> {
    let alloc = rt.alloc();
    let seconds = int32(
        alloc,
        DataType::Time32(TimeUnit::Second),
        &[45_296, 0, 86_399, -1],
    )?;
    let texts = ["12:34:56", "00:00:00", "23:59:59", "-00:00:01"];
    assert!(rt; prints(alloc, seconds, &texts)?);
    let milliseconds = int32(
        alloc,
        DataType::Time32(TimeUnit::Millisecond),
        &[45_296_789],
    )?;
    assert!(rt; prints(alloc, milliseconds, &["12:34:56.789"])?);
    let microseconds = int64(alloc, DataType::Time64(TimeUnit::Microsecond), &[1_000_020])?;
    assert!(rt; prints(alloc, microseconds, &["00:00:01.000020"])?);
    let nanoseconds = int64(alloc, DataType::Time64(TimeUnit::Nanosecond), &[1])?;
    assert!(rt; prints(alloc, nanoseconds, &["00:00:00.000000001"])?);
    Ok(())
}

fn time_stamps(
    alloc: Global,
    unit: TimeUnit,
    zone: Option<&str>,
    numbers: &[i64],
) -> Result<AnyArray, Fail> {
    let zone = match zone {
        Some(zone) => Some(zone.to_string(alloc)?),
        None => None,
    };
    int64(alloc, DataType::Timestamp(unit, zone), numbers)
}

// Zones, and the text of 1612096496789 ms in them.
const ZONES: [(Option<&str>, &str); 10] = [
    (None, "2021-01-31T12:34:56.789"),
    (Some(""), "2021-01-31T12:34:56.789"),
    (Some("UTC"), "2021-01-31T12:34:56.789Z"),
    (Some("+00:00"), "2021-01-31T12:34:56.789+00:00"),
    (Some("+02:00"), "2021-01-31T14:34:56.789+02:00"),
    (Some("+14:00"), "2021-02-01T02:34:56.789+14:00"),
    (Some("-13:30"), "2021-01-30T23:04:56.789-13:30"),
    (
        Some("Europe/Paris"),
        "2021-01-31T12:34:56.789Z[Europe/Paris]",
    ),
    // no offsets
    (Some("+2:00"), "2021-01-31T12:34:56.789Z[+2:00]"),
    (Some("+02-00"), "2021-01-31T12:34:56.789Z[+02-00]"),
];

#[test]
fn time_stamps_are_in_their_zone(rt: HostRuntime) -> Result<(), Fail> {
    let alloc = rt.alloc();
    for (zone, text) in ZONES {
        let array = time_stamps(alloc, TimeUnit::Millisecond, zone, &[1_612_096_496_789])?;
        assert!(rt; prints(alloc, array, &[text])?, "{text}");
    }
    Ok(())
}

// Numbers of a time unit, and their texts as time stamps.
const TIME_STAMPS: [(TimeUnit, i64, &str); 8] = [
    (TimeUnit::Second, 0, "1970-01-01T00:00:00"),
    (TimeUnit::Second, -1, "1969-12-31T23:59:59"),
    (TimeUnit::Millisecond, -1, "1969-12-31T23:59:59.999"),
    (TimeUnit::Microsecond, 1, "1970-01-01T00:00:00.000001"),
    (TimeUnit::Nanosecond, -1, "1969-12-31T23:59:59.999999999"),
    (
        TimeUnit::Nanosecond,
        i64::MAX,
        "2262-04-11T23:47:16.854775807",
    ),
    (
        TimeUnit::Nanosecond,
        i64::MIN,
        "1677-09-21T00:12:43.145224192",
    ),
    (TimeUnit::Second, i64::MAX, "9223372036854775807"),
];

#[test]
fn time_stamps_have_all_digits_of_their_unit(rt: HostRuntime) -> Result<(), Fail> {
    let alloc = rt.alloc();
    for (unit, number, text) in TIME_STAMPS {
        let array = time_stamps(alloc, unit, None, &[number])?;
        assert!(rt; prints(alloc, array, &[text])?, "{text}");
    }
    Ok(())
}
