//! Times of day and time stamps.
ghost use Rattle.std.specs.Prelude.{◌≡◌, ◌<◌, ◌^◌, pos, ◌*ℤ◌, MatchOption, true, false};
ghost use Rattle.std.specs.Fmt.{WritesOnOk};
ghost use Rattle.std.specs.Int.{int_div_euclid, int_rem_euclid};
ghost use Rattle.jiff_core.specs.Calendar.{IsWithin};
ghost use Rattle.jiff_core.specs.Date.{epoch_day};
ghost use Rattle.lower_display.specs.Clocks.{per_second, per_minute, per_day, fraction_text, hours_text, clock_text, time_text, fits_64, moment_text, at_text, local_text, timestamp_shown, unit_text};
ghost use Rattle.lower_display.specs.Zones.{minutes_of, suffix_of};

use crate::date::{date_at, write_day};
use crate::digits::{sign_of, write_three, write_two};
use crate::zone::Zone;
use jiff_core::civil::Date;
use lower::datatypes::TimeUnit;
use std::fmt;

fn per_second(unit: TimeUnit) -> u128
    ensures value { result ≡ per_second unit }
    ensures positive { 0 < result }
{
    match unit {
        TimeUnit::Second => 1,
        TimeUnit::Millisecond => 1_000,
        TimeUnit::Microsecond => 1_000_000,
        TimeUnit::Nanosecond => 1_000_000_000,
    }
}

// Writes the part of a second that so many units are.
fn write_fraction<W: fmt::Write>(
    unit: TimeUnit,
    count: u128,
    f: &mut fmt::Formatter<W>,
) -> fmt::Result
    ensures { WritesOnOk W.write_str_gives f.old result (fraction_text unit count) f.new }
{
    match unit {
        TimeUnit::Second => Ok(()),
        TimeUnit::Millisecond => {
            f.write_str(".")?;
            write_three(count, f)
        }
        TimeUnit::Microsecond => {
            f.write_str(".")?;
            write_three(count / 1_000, f)?;
            write_three(count % 1_000, f)
        }
        TimeUnit::Nanosecond => {
            f.write_str(".")?;
            write_three(count / 1_000_000, f)?;
            write_three(count / 1_000 % 1_000, f)?;
            write_three(count % 1_000, f)
        }
    }
}

// Writes hours, minutes and seconds.
fn write_hours<W: fmt::Write>(seconds: u128, f: &mut fmt::Formatter<W>) -> fmt::Result
    ensures { WritesOnOk W.write_str_gives f.old result (hours_text seconds) f.new }
{
    write_two(seconds / 3_600, f)?;
    f.write_str(":")?;
    write_two(seconds / 60 % 60, f)?;
    f.write_str(":")?;
    write_two(seconds % 60, f)
}

// Writes the time that is so many units after midnight.
fn write_clock<W: fmt::Write>(unit: TimeUnit, count: u128, f: &mut fmt::Formatter<W>) -> fmt::Result
    ensures { WritesOnOk W.write_str_gives f.old result (clock_text unit count) f.new }
{
    let per_second = per_second(unit);
    write_hours(count / per_second, f)?;
    write_fraction(unit, count % per_second, f)
}

// Writes a time of day.
pub fn write_time<W: fmt::Write>(
    unit: TimeUnit,
    number: i128,
    f: &mut fmt::Formatter<W>,
) -> fmt::Result
    ensures { WritesOnOk W.write_str_gives f.old result (time_text unit number) f.new }
{
    f.write_str(sign_of(number))?;
    write_clock(unit, number.unsigned_abs(), f)
}

// The units of so many minutes.
fn units_of_minutes(minutes: i32, unit: TimeUnit) -> i128
    ensures value { result ≡ minutes *ℤ pos (per_minute unit) }
    ensures bound { IsWithin (2 ^ 68) result }
{
    let minutes = i128::from(minutes);
    match unit {
        TimeUnit::Second => minutes * 60,
        TimeUnit::Millisecond => minutes * 60_000,
        TimeUnit::Microsecond => minutes * 60_000_000,
        TimeUnit::Nanosecond => minutes * 60_000_000_000,
    }
}

// The number of the day of a time, and the units since its midnight.
fn split_days(unit: TimeUnit, time: i128) -> (i128, i128)
    ensures day { result.0 ≡ int_div_euclid time (pos (per_day unit)) }
    ensures clock { result.1 ≡ int_rem_euclid time (pos (per_day unit)) }
{
    match unit {
        TimeUnit::Second => (time.div_euclid(86_400), time.rem_euclid(86_400)),
        TimeUnit::Millisecond => (time.div_euclid(86_400_000), time.rem_euclid(86_400_000)),
        TimeUnit::Microsecond => (
            time.div_euclid(86_400_000_000),
            time.rem_euclid(86_400_000_000),
        ),
        TimeUnit::Nanosecond => (
            time.div_euclid(86_400_000_000_000),
            time.rem_euclid(86_400_000_000_000),
        ),
    }
}

// The number, if it has at most 64 bits.
#[tactic(auto, using(crate::proofs::Days::fits_is))]
fn small(number: i128) -> Option<i64>
    ensures { MatchOption result
        (fits_64 number ≡ false)
        (λ small. (fits_64 number ≡ true) × (small ≡ number)) }
{
    match i64::try_from(number) {
        Ok(small) => Some(small),
        Err(_) => None,
    }
}

// Writes a time stamp of a zone.
#[tactic(auto, using(crate::proofs::Days::stamp_texts))]
pub fn write_timestamp<W: fmt::Write>(
    unit: TimeUnit,
    zone: Zone<'_>,
    number: i128,
    f: &mut fmt::Formatter<W>,
) -> fmt::Result
    ensures { WritesOnOk W.write_str_gives f.old result
        (timestamp_shown unit (minutes_of zone.entry) (suffix_of zone.entry) number) f.new }
{
    match small(number) {
        Some(small) => {
            let local = i128::from(small) + units_of_minutes(minutes_of(zone), unit);
            write_local(unit, zone, local, number, f)
        }
        None => write!(f, "{number}"),
    }
}

fn minutes_of(zone: Zone<'_>) -> i32
    ensures { result ≡ minutes_of zone.entry }
{
    match zone {
        Zone::Offset(minutes, _) => minutes,
        _ => 0,
    }
}

// Writes a date and a time, and the zone; or `number` for other years.
fn write_local<W: fmt::Write>(
    unit: TimeUnit,
    zone: Zone<'_>,
    time: i128,
    number: i128,
    f: &mut fmt::Formatter<W>,
) -> fmt::Result
    ensures { WritesOnOk W.write_str_gives f.old result
        (local_text unit time (suffix_of zone.entry) number) f.new }
{
    let (day, clock) = split_days(unit, time);
    write_at(unit, zone, day, clock.unsigned_abs(), number, f)
}

#[tactic(auto, using(crate::proofs::Days::at_texts))]
fn write_at<W: fmt::Write>(
    unit: TimeUnit,
    zone: Zone<'_>,
    day: i128,
    clock: u128,
    number: i128,
    f: &mut fmt::Formatter<W>,
) -> fmt::Result
    ensures { WritesOnOk W.write_str_gives f.old result
        (at_text unit day clock (suffix_of zone.entry) number) f.new }
{
    match date_at(day) {
        Some(date) => write_moment(date, unit, clock, zone, f),
        None => write!(f, "{number}"),
    }
}

// Writes a time of a date, and the zone.
fn write_moment<W: fmt::Write>(
    date: Date,
    unit: TimeUnit,
    clock: u128,
    zone: Zone<'_>,
    f: &mut fmt::Formatter<W>,
) -> fmt::Result
    ensures { WritesOnOk W.write_str_gives f.old result
        (moment_text unit (epoch_day date) clock (suffix_of zone.entry)) f.new }
{
    write_day(date, f)?;
    f.write_str("T")?;
    write_clock(unit, clock, f)?;
    write_suffix(zone, f)
}

// Writes what follows a time of a zone.
fn write_suffix<W: fmt::Write>(zone: Zone<'_>, f: &mut fmt::Formatter<W>) -> fmt::Result
    ensures { WritesOnOk W.write_str_gives f.old result (suffix_of zone.entry) f.new }
{
    match zone {
        Zone::Local => Ok(()),
        Zone::Offset(_, name) => f.write_str(name),
        Zone::Utc => f.write_str("Z"),
        Zone::Named(name) => {
            f.write_str("Z[")?;
            f.write_str(name)?;
            f.write_str("]")
        }
    }
}

// The letters after the number of a time span.
pub fn unit_text(unit: TimeUnit) -> &'static str
    ensures { result.now ≡ unit_text unit }
{
    match unit {
        TimeUnit::Second => "s",
        TimeUnit::Millisecond => "ms",
        TimeUnit::Microsecond => "us",
        TimeUnit::Nanosecond => "ns",
    }
}
