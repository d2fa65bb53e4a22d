// Decimals read from bytes.
ghost use Rattle.std.specs.Char.{is_ascii_digit};
ghost use Rattle.std.specs.Prelude.{◌≡◌, ◌≤◌, ◌<◌, ◌-◌, ◌*◌, ◌/◌, ◌^◌, ◌++◌, true, length, take, drop, min, replicate, slice_index_or};
ghost use Rattle.std.specs.List.{list_all};
ghost use Rattle.std.specs.Option.{option_copied};
ghost use Rattle.lics_text.specs.Ascii as ascii;
ghost use Rattle.fixed_value.specs.Decimals.{behind_digits, decimal_of, fraction_of, is_minus, number_of, places_of, whole_digits, without_sign};

use crate::Fixed;

/// What bytes spell as a decimal.
#[derive(Clone, Copy)]
pub enum Decimal {
    Num(Fixed),
    TooLarge,
    NotNumber,
}

// Whether a text begins with a minus.
fn is_minus(bytes: &[u8]) -> bool
    ensures { result ≡ is_minus bytes.now }
{
    0 < bytes.len() && bytes[0] == b'-'
}

// A text without the plus or the minus in front of it.
fn without_sign(bytes: &[u8]) -> &[u8]
    ensures { result.now ≡ without_sign bytes.now }
{
    if 0 < bytes.len() && (bytes[0] == b'+' || bytes[0] == b'-') {
        &bytes[1..]
    } else {
        bytes
    }
}

/// How many digits the bytes begin with.
pub fn digits_len(bytes: &[u8]) -> usize
    ensures within { result ≤ length bytes.now }
    ensures whole { take result bytes.now ≡ whole_digits bytes.now }
    ensures behind { drop result bytes.now ≡ behind_digits bytes.now }
{
    let mut len = 0;
    while len < bytes.len() && bytes[len].is_ascii_digit() {
        len += 1;
    }
    len
}

/// Whether all bytes are digits.
pub fn all_digits(bytes: &[u8]) -> bool
    ensures { result ≡ list_all is_ascii_digit bytes.now }
{
    bytes.iter().all(|b| b.is_ascii_digit())
}

/// What digits stand for, and 1,000,000,000 where it is more.
pub fn capped_number(digits: &[u8]) -> u64
    requires { list_all is_ascii_digit digits.now ≡ true }
    ensures { result ≡ min (number_of digits.now) 1000000000 }
{
    let mut number: u64 = 0;
    for b in digits {
        number = (number * 10 + u64::from(*b - b'0')).min(1_000_000_000);
    }
    number
}

// A place's digit, 0 where the place isn't there.
fn digit_at(places: &[u8], at: usize) -> u8
    requires digits { list_all is_ascii_digit places.now ≡ true }
    requires at_in { at < 7 }
    ensures value { result ≡ slice_index_or (places.now ++ replicate 7 ascii.zero) at ascii.zero - ascii.zero }
    ensures size { result ≤ 9 }
{
    if at < places.len() {
        places[at] - b'0'
    } else {
        0
    }
}

// The first seven places, of which those that aren't there are zeros.
#[tactic(auto, using(crate::proofs::Places::seven_first))]
fn seven_places(places: &[u8]) -> u64
    requires { list_all is_ascii_digit places.now ≡ true }
    ensures value { result ≡ number_of places.now * 10000000 / 10 ^ length places.now }
    ensures size { result < 10000000 }
{
    let mut number: u64 = 0;
    for at in 0..7usize {
        number = number * 10 + u64::from(digit_at(places, at));
    }
    number
}

// The number of these digits before and behind the point.
fn fraction(minus: bool, whole: &[u8], places: &[u8]) -> Decimal
    requires whole { list_all is_ascii_digit whole.now ≡ true }
    requires places { list_all is_ascii_digit places.now ≡ true }
    ensures { result ≡ fraction_of minus whole.now places.now }
{
    let size = capped_number(whole) * 1_000_000 + (seven_places(places) + 5) / 10;
    if size > 999_999_999_999_999 {
        return Decimal::TooLarge;
    }
    Decimal::Num(Fixed::of_size(minus, size))
}

// The bytes behind the first.
fn behind_first(bytes: &[u8]) -> &[u8]
    requires { 0 < length bytes.now }
    ensures { result.now ≡ drop 1 bytes.now }
{
    &bytes[1..]
}

// The digits behind the point.
fn places_of(bytes: &[u8]) -> Option<&[u8]>
    ensures { option_copied result ≡ places_of bytes.now }
{
    if bytes.len() == 0 {
        return Some(bytes);
    }
    if bytes[0] == b'.' && all_digits(behind_first(bytes)) {
        Some(behind_first(bytes))
    } else {
        None
    }
}

/// Reads a decimal: an optional sign, and then digits with at most one point and at least one digit. Digits
/// past the sixth decimal are rounded, halves away from zero. `TooLarge` comes where the rounded size is
/// 1,000,000,000 or more, and `NotNumber` where the bytes are no decimal. (Worksheet entry of Release 2; the
/// size is this project's choice.)
pub fn read_decimal(bytes: &[u8]) -> Decimal
    ensures { result ≡ decimal_of bytes.now }
{
    let unsigned = without_sign(bytes);
    let len = digits_len(unsigned);
    match places_of(&unsigned[len..]) {
        None => Decimal::NotNumber,
        Some(places) => {
            if len == 0 && places.len() == 0 {
                Decimal::NotNumber
            } else {
                fraction(is_minus(bytes), &unsigned[..len], places)
            }
        }
    }
}
