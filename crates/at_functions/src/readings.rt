// Numbers, dates and times that texts spell.
ghost use Rattle.std.specs.Char.{is_ascii_digit};
ghost use Rattle.std.specs.Prelude.{◌≡◌, ◌≤◌, ◌<◌, ◌+◌, IfNone, IfSome, Some, None, drop, length, take, map};
ghost use Rattle.std.specs.Option.{ForSome};
ghost use Rattle.lics_text.specs.Ascii as ascii;
ghost use Rattle.at_functions.specs.Readings.{before, behind, clock, dashed, datevalue, is_name, month_named, month_number, number_in, short_number, slashed, three, timevalue, two_digits, value, with_minutes, with_seconds};

use crate::dates::{date_by, time_of};
use fixed_value::{Decimal, Fixed, read_decimal};
use lics_text::Text;

/// The number that a text spells as a decimal, spaces at its ends left out; the empty text is 0.
pub fn value(text: &Text) -> Option<Fixed>
    ensures { result ≡ value text.now }
{
    let line = text.trimmed();
    let bytes = line.bytes();
    if bytes.len() == 0 {
        return Some(Fixed::ZERO);
    }
    match read_decimal(bytes) {
        Decimal::Num(number) => Some(number),
        Decimal::TooLarge => None,
        Decimal::NotNumber => None,
    }
}

// Where a byte first stands.
fn place_of(bytes: &[u8], sep: u8) -> Option<usize>
    ensures some { IfSome result (λ at. (at < length bytes.now) × (take at bytes.now ≡ before sep bytes.now)
        × (behind sep bytes.now ≡ Some (drop (at + 1) bytes.now))) }
    ensures none { IfNone result ((before sep bytes.now ≡ bytes.now) × (behind sep bytes.now ≡ None)) }
{
    for at in 0..bytes.len() {
        if bytes[at] == sep {
            return Some(at);
        }
    }
    None
}

// What stands before, between and behind the first two such bytes.
fn three(bytes: &[u8], sep: u8) -> Option<(&[u8], &[u8], &[u8])>
    ensures some { IfSome result (λ parts. three sep bytes.now ≡ Some (parts.0.now, parts.1.now, parts.2.now)) }
    ensures none { IfNone result (three sep bytes.now ≡ None) }
{
    let first = place_of(bytes, sep)?;
    let rest = &bytes[first + 1..];
    let second = place_of(rest, sep)?;
    Some((&bytes[..first], &rest[..second], &rest[second + 1..]))
}

// The number of two digits.
fn two_digits(bytes: &[u8]) -> Option<u16>
    ensures value { result ≡ two_digits bytes.now }
    ensures below { ForSome result (λ n. n < 100) }
{
    if bytes.len() == 2 && bytes[0].is_ascii_digit() && bytes[1].is_ascii_digit() {
        Some(u16::from(bytes[0] - b'0') * 10 + u16::from(bytes[1] - b'0'))
    } else {
        None
    }
}

// The number of one digit, or two.
fn short_number(bytes: &[u8]) -> Option<u16>
    ensures value { result ≡ short_number bytes.now }
    ensures below { ForSome result (λ n. n < 100) }
{
    if bytes.len() == 1 && bytes[0].is_ascii_digit() {
        Some(u16::from(bytes[0] - b'0'))
    } else {
        two_digits(bytes)
    }
}

// Whether three letters are those of a name.
fn is_name(letters: (u8, u8, u8), name: (u8, u8, u8)) -> bool
    ensures { result ≡ is_name letters.0 letters.1 letters.2 name.0 name.1 name.2 }
{
    letters.0 == name.0 && letters.1 == name.1 && letters.2 == name.2
}

// The month of three letters, and 0 where no month has them.
#[tactic(auto, unfolding(crate::specs::Readings::month_named))]
fn month_named(a: u8, b: u8, c: u8) -> u8
    ensures value { result ≡ month_named a b c }
    ensures below { result < 13 }
{
    match (a, b, c) {
        (b'J', b'A', b'N') => 1,
        (b'F', b'E', b'B') => 2,
        (b'M', b'A', b'R') => 3,
        (b'A', b'P', b'R') => 4,
        (b'M', b'A', b'Y') => 5,
        (b'J', b'U', b'N') => 6,
        (b'J', b'U', b'L') => 7,
        (b'A', b'U', b'G') => 8,
        (b'S', b'E', b'P') => 9,
        (b'O', b'C', b'T') => 10,
        (b'N', b'O', b'V') => 11,
        (b'D', b'E', b'C') => 12,
        _ => 0,
    }
}

// The month of a name of three letters.
fn month_number(bytes: &[u8]) -> Option<u16>
    ensures value { result ≡ month_number bytes.now }
    ensures below { ForSome result (λ n. n < 100) }
{
    if bytes.len() == 3 {
        Some(u16::from(month_named(
            bytes[0].to_ascii_uppercase(),
            bytes[1].to_ascii_uppercase(),
            bytes[2].to_ascii_uppercase(),
        )))
    } else {
        None
    }
}

/// The day number of a date D-MMM-YY, with the letters of the month in either case, or M/D/YY, of the years 1900
/// to 1999; days, months and years have one or two digits.
pub fn datevalue(text: &Text) -> Option<Fixed>
    ensures { result ≡ datevalue text.now }
{
    let bytes = text.bytes();
    if let Some((day, month, year)) = three(bytes, b'-') {
        return date_by(short_number(year), month_number(month), short_number(day));
    }
    let (month, day, year) = three(bytes, b'/')?;
    date_by(short_number(year), short_number(month), short_number(day))
}

// An hour, minute and second, where each is there.
fn clock(hour: Option<u16>, minute: Option<u16>, second: Option<u16>) -> Option<Fixed>
    ensures { result ≡ clock hour minute second }
{
    time_of(i64::from(hour?), i64::from(minute?), i64::from(second?))
}

// The time of an hour and what stands behind its colon.
fn behind_hour(hour: &[u8], rest: &[u8]) -> Option<Fixed>
    ensures { result ≡ with_seconds hour.now (before ascii.colon rest.now) (behind ascii.colon rest.now) }
{
    let hour = short_number(hour);
    match place_of(rest, b':') {
        Some(second) => clock(
            hour,
            two_digits(&rest[..second]),
            two_digits(&rest[second + 1..]),
        ),
        None => clock(hour, two_digits(rest), Some(0)),
    }
}

/// The part of a day of a time H:MM or H:MM:SS, hours to 23; the hour has one or two digits.
pub fn timevalue(text: &Text) -> Option<Fixed>
    ensures { result ≡ timevalue text.now }
{
    let bytes = text.bytes();
    let first = place_of(bytes, b':')?;
    behind_hour(&bytes[..first], &bytes[first + 1..])
}
