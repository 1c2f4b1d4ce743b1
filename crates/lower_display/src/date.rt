//! Dates.
ghost use Rattle.std.specs.Prelude.{◌≡◌, MatchOption, true, false};
ghost use Rattle.std.specs.Fmt.{WritesOnOk};
ghost use Rattle.jiff_core.specs.Date.{epoch_day};
ghost use Rattle.lower_display.specs.Dates.{is_day, year_text, iso_date, day_text, date_text};

use crate::digits::{sign_of, write_four, write_two};
use jiff_core::civil::Date;
use std::fmt;

// The date of a day by its number, if it is in the years -9999 to 9999.
#[tactic(auto, using(crate::proofs::Days::day_is))]
pub fn date_at(day: i128) -> Option<Date>
    ensures { MatchOption result
        (is_day day ≡ false)
        (λ date. (is_day day ≡ true) × (epoch_day date ≡ day)) }
{
    let Ok(day) = i64::try_from(day) else {
        return None;
    };
    match Date::from_unix_epoch_day(day) {
        Ok(date) => Some(date),
        Err(_) => None,
    }
}

// Writes the date of a day, or `number` for days of other years.
#[tactic(auto, using(crate::proofs::Days::date_texts))]
pub fn write_date<W: fmt::Write>(day: i128, number: i128, f: &mut fmt::Formatter<W>) -> fmt::Result
    ensures { WritesOnOk W.write_str_gives f.old result (date_text day number) f.new }
{
    match date_at(day) {
        Some(date) => write_day(date, f),
        None => write!(f, "{number}"),
    }
}

// Writes a date.
#[tactic(auto, using(crate::proofs::Days::date_is))]
pub fn write_day<W: fmt::Write>(date: Date, f: &mut fmt::Formatter<W>) -> fmt::Result
    ensures { WritesOnOk W.write_str_gives f.old result (day_text (epoch_day date)) f.new }
{
    write_parts(
        i128::from(date.year),
        u128::from(date.month),
        u128::from(date.day),
        f,
    )
}

fn write_parts<W: fmt::Write>(
    year: i128,
    month: u128,
    day: u128,
    f: &mut fmt::Formatter<W>,
) -> fmt::Result
    ensures { WritesOnOk W.write_str_gives f.old result (iso_date year month day) f.new }
{
    write_year(year, f)?;
    f.write_str("-")?;
    write_two(month, f)?;
    f.write_str("-")?;
    write_two(day, f)
}

// Writes a year in four digits, after its sign.
fn write_year<W: fmt::Write>(year: i128, f: &mut fmt::Formatter<W>) -> fmt::Result
    ensures { WritesOnOk W.write_str_gives f.old result (year_text year) f.new }
{
    f.write_str(sign_of(year))?;
    write_four(year.unsigned_abs(), f)
}
