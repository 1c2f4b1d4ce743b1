//! Time zones of time stamps.
ghost use Rattle.std.specs.Prelude.{◌≡◌, ◌+◌, ◌<◌, ◌≤◌, length, IsTrue, Some};
ghost use Rattle.lower.specs.TypeViews.{text_of};
ghost use Rattle.lower_display.specs.Zones.{is_digit, is_offset, two_at, offset_minutes, zone_minutes, zone_shown, minutes_of, suffix_of};

/// How the time zone of a column of time stamps prints.
#[derive(Debug, Clone, Copy)]
pub enum Zone<'a> {
    /// No time zone.
    Local,
    /// A fixed offset: its minutes east of UTC, and its text.
    Offset(i32, &'a str),
    /// UTC.
    Utc,
    /// A zone with another name. Its times print in UTC.
    Named(&'a str),
}

/// Returns how a time zone prints; an empty name is no zone.
pub fn zone_of(zone: &Option<String>) -> Zone<'_>
    ensures minutes { minutes_of result ≡ zone_minutes (text_of zone.now) }
    ensures suffix { suffix_of result ≡ zone_shown (text_of zone.now) }
{
    match zone {
        None => Zone::Local,
        Some(name) => named_zone(name.as_str()),
    }
}

fn named_zone(name: &str) -> Zone<'_>
    ensures minutes { minutes_of result ≡ zone_minutes (Some name.now) }
    ensures suffix { suffix_of result ≡ zone_shown (Some name.now) }
{
    if is_offset(name.as_bytes()) {
        return Zone::Offset(offset_minutes(name.as_bytes()), name);
    }
    if name.is_empty() {
        return Zone::Local;
    }
    if name == "UTC" {
        return Zone::Utc;
    }
    Zone::Named(name)
}

// Whether the name is a sign, two digits, a colon and two digits.
fn is_offset(name: &[u8]) -> bool
    ensures value { result ≡ is_offset name.now }
    ensures len { IsTrue result → length name.now ≡ 6 }
{
    name.len() == 6
        && (name[0] == b'+' || name[0] == b'-')
        && name[3] == b':'
        && is_digit(name[1])
        && is_digit(name[2])
        && is_digit(name[4])
        && is_digit(name[5])
}

fn is_digit(byte: u8) -> bool
    ensures { result ≡ is_digit byte }
{
    b'0' <= byte && byte <= b'9'
}

fn offset_minutes(name: &[u8]) -> i32
    requires { length name.now ≡ 6 }
    ensures { result ≡ offset_minutes name.now }
{
    let minutes = (60 * two_at(name, 1) + two_at(name, 4)) as i32;
    if name[0] == b'-' { -minutes } else { minutes }
}

// The number in two digits.
fn two_at(name: &[u8], index: usize) -> u32
    requires { index + 1 < length name.now }
    ensures value { result ≡ two_at name.now index }
    ensures bound { result ≤ 3_000 }
{
    let tens = u32::from(name[index].saturating_sub(b'0'));
    let ones = u32::from(name[index + 1].saturating_sub(b'0'));
    10 * tens + ones
}
