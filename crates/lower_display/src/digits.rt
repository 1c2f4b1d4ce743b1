//! Numbers and bytes in digits.
ghost use Rattle.std.specs.Prelude.{◌≡◌, ◌/◌, ◌%◌, ◌^◌, ◌<◌, ◌≤◌};
ghost use Rattle.std.specs.Fmt.{WritesOnOk, decimal, sign_text};
ghost use Rattle.std.specs.Int.{is_negative};
ghost use Rattle.lower_display.specs.Digits.{pad2, pad3, pad4, last_digits, after_point, decimal_shown, byte_text, hex_text};

use std::fmt;

// Writes a number below 100 in two digits.
pub fn write_two<W: fmt::Write>(number: u128, f: &mut fmt::Formatter<W>) -> fmt::Result
    ensures { WritesOnOk W.write_str_gives f.old result (pad2 number) f.new }
{
    write!(f, "{}{}", number / 10, number % 10)
}

// Writes a number below 1,000 in three digits.
pub fn write_three<W: fmt::Write>(number: u128, f: &mut fmt::Formatter<W>) -> fmt::Result
    ensures { WritesOnOk W.write_str_gives f.old result (pad3 number) f.new }
{
    write!(f, "{}", number / 100)?;
    write_two(number % 100, f)
}

// Writes a number below 10,000 in four digits.
pub fn write_four<W: fmt::Write>(number: u128, f: &mut fmt::Formatter<W>) -> fmt::Result
    ensures { WritesOnOk W.write_str_gives f.old result (pad4 number) f.new }
{
    write_two(number / 100, f)?;
    write_two(number % 100, f)
}

// The sign of a number: `-`, or nothing.
pub fn sign_of(number: i128) -> &'static str
    ensures { result.now ≡ sign_text (is_negative number) }
{
    if number.is_negative() { "-" } else { "" }
}

// Writes a decimal number with so many digits after the point.
pub fn write_decimal<W: fmt::Write>(
    number: i128,
    scale: usize,
    f: &mut fmt::Formatter<W>,
) -> fmt::Result
    ensures { WritesOnOk W.write_str_gives f.old result (decimal_shown scale number) f.new }
{
    if scale > 38 {
        return write!(f, "{number}E-{scale}");
    }
    let size = number.unsigned_abs();
    f.write_str(sign_of(number))?;
    write!(f, "{}", size / power_of_ten(scale))?;
    write_after_point(size, scale, f)
}

pub fn power_of_ten(exponent: usize) -> u128
    requires { exponent ≤ 38 }
    ensures value { result ≡ 10 ^ exponent }
    ensures positive { 0 < result }
{
    10u128.pow(exponent as u32)
}

fn write_after_point<W: fmt::Write>(
    number: u128,
    scale: usize,
    f: &mut fmt::Formatter<W>,
) -> fmt::Result
    requires { scale ≤ 38 }
    ensures { WritesOnOk W.write_str_gives f.old result (after_point scale number) f.new }
{
    if scale == 0 {
        return Ok(());
    }
    f.write_str(".")?;
    write_last_digits(number, scale, f)
}

// Writes the last `count` digits of a number.
fn write_last_digits<W: fmt::Write>(
    number: u128,
    count: usize,
    f: &mut fmt::Formatter<W>,
) -> fmt::Result
    requires { count ≤ 38 }
    ensures { WritesOnOk W.write_str_gives f.old result (last_digits count number) f.new }
{
    for index in 0..count {
        write_digit(number, count - 1 - index, f)?;
    }
    Ok(())
}

// Writes one decimal digit of a number, by its place from the last.
fn write_digit<W: fmt::Write>(number: u128, place: usize, f: &mut fmt::Formatter<W>) -> fmt::Result
    requires { place ≤ 38 }
    ensures { WritesOnOk W.write_str_gives f.old result (decimal (number / 10 ^ place % 10)) f.new }
{
    write!(f, "{}", number / power_of_ten(place) % 10)
}

// Writes each byte in two hexadecimal digits.
pub fn write_hex<W: fmt::Write>(bytes: &[u8], f: &mut fmt::Formatter<W>) -> fmt::Result
    ensures { WritesOnOk W.write_str_gives f.old result (hex_text bytes.now) f.new }
{
    for byte in bytes {
        write_byte(*byte, f)?;
    }
    Ok(())
}

fn write_byte<W: fmt::Write>(byte: u8, f: &mut fmt::Formatter<W>) -> fmt::Result
    ensures { WritesOnOk W.write_str_gives f.old result (byte_text byte) f.new }
{
    write!(f, "{:x}{:x}", byte / 16, byte % 16)
}
