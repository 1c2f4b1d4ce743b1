//! How the numbers of a type print.
ghost use Rattle.std.specs.Prelude.{◌≡◌, ℤ};
ghost use Rattle.std.specs.Fmt.{WritesOnOk};
ghost use Rattle.lower.specs.TypeViews.{type_view};
ghost use Rattle.lower.specs.TypeTrees.{interval};
ghost use Rattle.lower_display.specs.Numbers.{plain_shown, integer_shown, type_scale, form_text, form_scale};

use crate::clock::{unit_text, write_time, write_timestamp};
use crate::date::write_date;
use crate::digits::write_decimal;
use crate::zone::{Zone, zone_of};
use lower::datatypes::{DataType, IntervalUnit, TimeUnit};
use std::fmt;

/// How the numbers of a column print.
#[derive(Debug, Clone, Copy)]
pub enum Form<'a> {
    /// As integers.
    Integer,
    /// Days since 1970-01-01, as dates.
    Days,
    /// Milliseconds since 1970-01-01, as the dates of their days.
    DateMilliseconds,
    /// Times of day.
    Time(TimeUnit),
    /// Times since 1970-01-01, as dates and times.
    Timestamp(TimeUnit, Zone<'a>),
    /// Time spans, as numbers with their unit.
    Duration(TimeUnit),
    /// Numbers of months.
    Months,
    /// Decimals with so many digits after the point.
    Decimal(usize),
}

/// Returns how the integers of a column of this type print.
///
/// For a dictionary it is the form of its values.
pub fn form_of(data_type: &DataType) -> Form<'_>
    ensures integers { (z : ℤ) →
        form_text result z ≡ integer_shown (type_view data_type.now) z }
    ensures scale { form_scale result ≡ type_scale (type_view data_type.now) }
{
    match data_type {
        DataType::Date32 => Form::Days,
        DataType::Date64 => Form::DateMilliseconds,
        DataType::Time32(unit) => Form::Time(*unit),
        DataType::Time64(unit) => Form::Time(*unit),
        DataType::Timestamp(unit, zone) => Form::Timestamp(*unit, zone_of(zone)),
        DataType::Duration(unit) => Form::Duration(*unit),
        DataType::Interval(unit) => interval_form(*unit),
        DataType::Decimal(_, scale) => Form::Decimal(*scale),
        DataType::Decimal256(_, scale) => Form::Decimal(*scale),
        DataType::Dictionary(_, values, _) => form_of(values),
        DataType::Extension(_, storage, _) => form_of(storage),
        _ => Form::Integer,
    }
}

fn interval_form<'a>(unit: IntervalUnit) -> Form<'a>
    ensures integers { (z : ℤ) → form_text result z ≡ plain_shown (interval unit) z }
    ensures scale { form_scale result ≡ 0 }
{
    match unit {
        IntervalUnit::YearMonth => Form::Months,
        IntervalUnit::DayTime => Form::Integer,
        IntervalUnit::MonthDayNano => Form::Integer,
    }
}

// Writes an integer in a form.
pub(crate) fn write_integer<W: fmt::Write>(
    form: Form<'_>,
    number: i128,
    f: &mut fmt::Formatter<W>,
) -> fmt::Result
    ensures { WritesOnOk W.write_str_gives f.old result (form_text form.entry number) f.new }
{
    match form {
        Form::Integer => write!(f, "{number}"),
        Form::Days => write_date(number, number, f),
        Form::DateMilliseconds => write_date(number.div_euclid(86_400_000), number, f),
        Form::Time(unit) => write_time(unit, number, f),
        Form::Timestamp(unit, zone) => write_timestamp(unit, zone, number, f),
        Form::Duration(unit) => {
            write!(f, "{number}")?;
            f.write_str(unit_text(unit))
        }
        Form::Months => write!(f, "{number}m"),
        Form::Decimal(scale) => write_decimal(number, scale, f),
    }
}
