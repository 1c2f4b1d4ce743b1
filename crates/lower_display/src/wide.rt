//! Decimals of 256 bits.
ghost use Rattle.std.specs.Prelude.{◌≡◌, ◌+◌, ◌*◌, ◌/◌, ◌%◌, ◌^◌, ◌<◌, ◌≤◌, get_or};
ghost use Rattle.std.specs.Fmt.{WritesOnOk, decimal};
ghost use Rattle.lower_display.specs.Digits.{last_digits, after_point};
ghost use Rattle.lower_display.specs.Wide.{wide_size, digit_count, long_text, size_text, wide_text, limbs_value, groups_value, AreGroups};

use crate::digits::{power_of_ten, sign_of};
use lower::types::i256;
use std::fmt;

// A number of 256 bits without its sign, in parts of 64 bits, highest first.
#[derive(Clone, Copy)]
struct Limbs {
    first: u64,
    second: u64,
    third: u64,
    fourth: u64,
}

const LIMB_END: u128 = 18_446_744_073_709_551_616;

// The number that a group of 19 digits can't write.
const GROUP_END: u128 = 10_000_000_000_000_000_000;

// Writes a decimal number with so many digits after the point.
#[tactic(auto, using(crate::proofs::WideDigits::size_bound))]
pub fn write_wide<W: fmt::Write>(
    number: i256,
    scale: usize,
    f: &mut fmt::Formatter<W>,
) -> fmt::Result
    ensures { WritesOnOk W.write_str_gives f.old result
        (wide_text scale number.high number.low) f.new }
{
    let groups = groups_of(size_of(number));
    f.write_str(sign_of(number.high))?;
    write_size(&groups, scale, f)
}

// The number without its sign.
#[tactic(auto, using(crate::proofs::WideDigits::sizes))]
fn size_of(number: i256) -> Limbs
    ensures value { limbs_value result ≡ wide_size number.high number.low }
    ensures bound { limbs_value result ≤ 2 ^ 255 }
{
    let high = number.high.unsigned_abs();
    if number.high >= 0 || number.low == 0 {
        return limbs_of(high, number.low);
    }
    limbs_of(high - 1, u128::MAX - number.low + 1)
}

fn limbs_of(high: u128, low: u128) -> Limbs
    ensures { limbs_value result ≡ high * 2 ^ 128 + low }
{
    Limbs {
        first: (high / LIMB_END) as u64,
        second: (high % LIMB_END) as u64,
        third: (low / LIMB_END) as u64,
        fourth: (low % LIMB_END) as u64,
    }
}

// The decimal digits in groups of 19, lowest first.
fn groups_of(number: Limbs) -> [u64; 5]
    requires { limbs_value number ≤ 2 ^ 255 }
    ensures value { groups_value result ≡ limbs_value number }
    ensures groups { AreGroups result }
{
    let (number, first) = divide(number);
    let (number, second) = divide(number);
    let (number, third) = divide(number);
    let (number, fourth) = divide(number);
    [first, second, third, fourth, number.fourth]
}

// Divides a number by 10 ^ 19: the quotient and the rest.
fn divide(number: Limbs) -> (Limbs, u64)
    ensures value { limbs_value result.0 * 10 ^ 19 + result.1 ≡ limbs_value number }
    ensures rest { result.1 < 10 ^ 19 }
{
    let (first, rest) = divide_limb(0, number.first);
    let (second, rest) = divide_limb(rest, number.second);
    let (third, rest) = divide_limb(rest, number.third);
    let (fourth, rest) = divide_limb(rest, number.fourth);
    let quotient = Limbs {
        first,
        second,
        third,
        fourth,
    };
    (quotient, rest)
}

// Divides `2 ^ 64` times `rest`, plus `limb`.
fn divide_limb(rest: u64, limb: u64) -> (u64, u64)
    requires { rest < 10 ^ 19 }
    ensures value { result.0 * 10 ^ 19 + result.1 ≡ rest * 2 ^ 64 + limb }
    ensures rest { result.1 < 10 ^ 19 }
{
    let number = u128::from(rest) * LIMB_END + u128::from(limb);
    ((number / GROUP_END) as u64, (number % GROUP_END) as u64)
}

// Writes a number without its sign, with so many digits after the point.
fn write_size<W: fmt::Write>(
    groups: &[u64; 5],
    scale: usize,
    f: &mut fmt::Formatter<W>,
) -> fmt::Result
    requires { AreGroups groups.now }
    ensures { WritesOnOk W.write_str_gives f.old result
        (size_text scale (groups_value groups.now)) f.new }
{
    if scale > 76 {
        write_long(groups, 0, f)?;
        return write!(f, "E-{scale}");
    }
    write_long(groups, scale, f)?;
    write_after_point(groups, scale, f)
}

// Writes the digits before the point.
fn write_long<W: fmt::Write>(
    groups: &[u64; 5],
    scale: usize,
    f: &mut fmt::Formatter<W>,
) -> fmt::Result
    requires groups { AreGroups groups.now }
    requires scale { scale ≤ 76 }
    ensures { WritesOnOk W.write_str_gives f.old result
        (long_text (groups_value groups.now / 10 ^ scale)) f.new }
{
    let count = count_digits(groups, scale);
    write_places(groups, scale, count, f)
}

// How many digits are before the point.
fn count_digits(groups: &[u64; 5], scale: usize) -> usize
    requires groups { AreGroups groups.now }
    requires scale { scale ≤ 76 }
    ensures value { result ≡ digit_count 76 (groups_value groups.now / 10 ^ scale) }
    ensures bound { result ≤ 77 }
{
    for index in 0..76 {
        if digit_at(groups, scale, 76 - index) != 0 {
            return 77 - index;
        }
    }
    1
}

#[tactic(auto, using(crate::proofs::WideDigits::over_one))]
fn write_after_point<W: fmt::Write>(
    groups: &[u64; 5],
    scale: usize,
    f: &mut fmt::Formatter<W>,
) -> fmt::Result
    requires groups { AreGroups groups.now }
    requires scale { scale ≤ 76 }
    ensures { WritesOnOk W.write_str_gives f.old result
        (after_point scale (groups_value groups.now)) f.new }
{
    if scale == 0 {
        return Ok(());
    }
    f.write_str(".")?;
    write_places(groups, 0, scale, f)
}

// Writes `count` digits, the last of which is at the place `scale`.
fn write_places<W: fmt::Write>(
    groups: &[u64; 5],
    scale: usize,
    count: usize,
    f: &mut fmt::Formatter<W>,
) -> fmt::Result
    requires groups { AreGroups groups.now }
    requires scale { scale ≤ 76 }
    requires count { count ≤ 77 }
    ensures { WritesOnOk W.write_str_gives f.old result
        (last_digits count (groups_value groups.now / 10 ^ scale)) f.new }
{
    for index in 0..count {
        write_place(groups, scale, count - 1 - index, f)?;
    }
    Ok(())
}

fn write_place<W: fmt::Write>(
    groups: &[u64; 5],
    scale: usize,
    place: usize,
    f: &mut fmt::Formatter<W>,
) -> fmt::Result
    requires groups { AreGroups groups.now }
    requires scale { scale ≤ 76 }
    requires place { place ≤ 77 }
    ensures { WritesOnOk W.write_str_gives f.old result
        (decimal (groups_value groups.now / 10 ^ scale / 10 ^ place % 10)) f.new }
{
    write!(f, "{}", digit_at(groups, scale, place))
}

// The digit so many places before the last that is before the point.
#[tactic(auto, using(crate::proofs::WideDigits::digit_there))]
fn digit_at(groups: &[u64; 5], scale: usize, place: usize) -> u128
    requires groups { AreGroups groups.now }
    requires scale { scale ≤ 76 }
    requires place { place ≤ 77 }
    ensures { result ≡ groups_value groups.now / 10 ^ scale / 10 ^ place % 10 }
{
    let place = scale + place;
    let group = group_at(groups, place / 19);
    group / power_of_ten(place % 19) % 10
}

fn group_at(groups: &[u64; 5], index: usize) -> u128
    ensures { result ≡ get_or groups.now index 0 }
{
    if index < 5 {
        u128::from(groups[index])
    } else {
        0
    }
}
