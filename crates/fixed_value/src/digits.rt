// Decimals as they are written.
ghost use Rattle.std.specs.Int.RustNames.{int_lt};
ghost use Rattle.std.specs.Prelude.{◌≡◌, ◌≤◌, ◌<◌, ◌+◌, ◌/◌, ◌^◌, ◌++◌, ◌&&◌, ◌==◌, if◌then◌else◌, not, length, nat_le, replicate, ℕ, ℤ, pos, nat_abs, Some, None};
ghost use Rattle.lics_text.specs.Ascii as ascii;
ghost use Rattle.fixed_value.specs.Decimals.{decimal_of};
ghost use Rattle.fixed_value.specs.Written.{decimals, fixed_digits, hundredfold, minus_sign, pointed, scaled, short, without_last_zeros, whole_len, without_zeros, written};
ghost use Rattle.fixed_value.specs.declared.decimal.Decimal.TheVariants.{Num};

use crate::Fixed;
use crate::front::Digits;

// Puts so many zeros in front.
fn put_zeros(text: &mut Digits, count: u8)
    requires { length text.old + count ≤ 32 }
    ensures digits { text.new ≡ replicate count ascii.zero ++ text.old }
    ensures size { length text.new ≡ length text.old + count }
{
    let mut more = count;
    while more > 0 {
        text.put(b'0');
        more -= 1;
    }
}

// Puts so many digits of a number in front, and answers what stands before these.
#[tactic(auto, using(crate::proofs::LastDigits::one_more, crate::proofs::LastDigits::by_ten))]
fn put_places(text: &mut Digits, count: u8, number: u64) -> u64
    requires { length text.old + count ≤ 32 }
    ensures digits { text.new ≡ fixed_digits count number ++ text.old }
    ensures size { length text.new ≡ length text.old + count }
    ensures left { result ≡ number / 10 ^ count }
{
    let mut left = number;
    let mut more = count;
    while more > 0 {
        text.put(b'0' + (left % 10) as u8);
        left /= 10;
        more -= 1;
    }
    left
}

// Puts the digits of a number in front, of which there are at most so many.
#[tactic(auto, using(crate::proofs::LastDigits::whole_more, crate::proofs::LastDigits::smaller, crate::proofs::LastDigits::one_digit))]
fn put_whole(text: &mut Digits, most: u8, number: u64)
    requires below { number < 10 ^ most }
    requires some { 1 ≤ most }
    requires room { length text.old + most ≤ 32 }
    ensures digits { text.new ≡ without_zeros (fixed_digits most number) ++ text.old }
    ensures size { length text.new ≤ length text.old + most }
{
    let mut left = number;
    let mut more = most;
    while left >= 10 {
        text.put(b'0' + (left % 10) as u8);
        left /= 10;
        more -= 1;
    }
    text.put(b'0' + left as u8);
}

// How many digits a number below 10,000,000,000 has.
pub(crate) fn count_digits(number: u64) -> u8
    requires { number < 10000000000 }
    ensures len { result ≡ length (without_zeros (fixed_digits 10 number)) }
    ensures most { result ≤ 10 }
{
    if number < 10 {
        1
    } else if number < 100 {
        2
    } else if number < 1_000 {
        3
    } else if number < 10_000 {
        4
    } else if number < 100_000 {
        5
    } else if number < 1_000_000 {
        6
    } else if number < 10_000_000 {
        7
    } else if number < 100_000_000 {
        8
    } else if number < 1_000_000_000 {
        9
    } else {
        10
    }
}

// The number in units of the last place.
fn scaled(value: Fixed, places: u8) -> u64
    requires { places ≤ 6 }
    ensures value { result ≡ scaled value places }
    ensures whole { result / 10 ^ places ≤ 1000000000 }
    ensures size { nat_abs value ≤ 999999999999999 }
{
    let size = size_of(value);
    match places {
        0 => (size + 500_000) / 1_000_000,
        1 => (size + 50_000) / 100_000,
        2 => (size + 5_000) / 10_000,
        3 => (size + 500) / 1_000,
        4 => (size + 50) / 100,
        5 => (size + 5) / 10,
        _ => size,
    }
}

// The size in millionths.
pub(crate) fn size_of(value: Fixed) -> u64
    ensures size { result ≡ nat_abs value }
    ensures most { nat_abs value ≤ 999999999999999 }
{
    value.millionths().unsigned_abs()
}

// Whether it is below zero.
pub(crate) fn is_minus(value: Fixed) -> bool
    ensures { result ≡ int_lt value (pos 0) }
{
    value.millionths() < 0
}

// How long the sign of a number is, of which none stands where all digits are zero.
pub(crate) fn sign_len(value: Fixed, number: u64) -> usize
    ensures len { result ≡ length (minus_sign (int_lt value (pos 0) && not (number == 0))) }
    ensures most { result ≤ 1 }
{
    if is_minus(value) && number != 0 { 1 } else { 0 }
}

// How long so many places are with the point, which stands only where there are places.
pub(crate) fn behind_len(places: u8) -> usize
    ensures len { (number : ℕ) → result ≡ length (pointed (fixed_digits places number)) }
    ensures most { result ≤ 1 + places }
{
    if places > 0 {
        1 + usize::from(places)
    } else {
        0
    }
}

// Writes a number of units of the last place, and so many zeros behind its places.
fn write(minus: bool, number: u64, places: u8, zeros: u8, most: u8) -> Digits
    requires below { number / 10 ^ places < 10 ^ most }
    requires some { 1 ≤ most }
    requires room { most + places + zeros ≤ 30 }
    ensures { result ≡ minus_sign (minus && not (number == 0))
        ++ (without_zeros (fixed_digits most (number / 10 ^ places))
        ++ pointed (fixed_digits places number ++ replicate zeros ascii.zero)) }
{
    let mut text = Digits::new();
    put_zeros(&mut text, zeros);
    let whole = put_places(&mut text, places, number);
    if places + zeros > 0 {
        text.put(b'.');
    }
    put_whole(&mut text, most, whole);
    if minus && number != 0 {
        text.put(b'-');
    }
    text
}

// A number of units without the zeros at its end, of which so many may go.
#[tactic(auto, using(crate::proofs::LastDigits::zero_gone, crate::proofs::LastDigits::digit_stays, crate::proofs::LastDigits::no_digits, crate::proofs::LastDigits::by_ten))]
pub(crate) fn without_zeros_at_end(number: u64, places: u8) -> (u64, u8)
    ensures places { fixed_digits result.1 result.0 ≡ without_last_zeros (fixed_digits places number) }
    ensures whole { result.0 / 10 ^ result.1 ≡ number / 10 ^ places }
    ensures zero { (result.0 == 0) ≡ (number == 0) }
    ensures size { result.1 ≤ places }
    ensures most { result.0 ≤ number }
{
    let mut left = number;
    let mut more = places;
    while more > 0 && left % 10 == 0 {
        left /= 10;
        more -= 1;
    }
    (left, more)
}

// The same of six places, of which most numbers have one or none: five zeros go at once.
#[tactic(auto, using(crate::proofs::Few::few_left, crate::proofs::Few::none_left, crate::proofs::Kept::zero_raised))]
fn without_zeros_of_six(number: u64) -> (u64, u8)
    ensures places { fixed_digits result.1 result.0 ≡ without_last_zeros (fixed_digits 6 number) }
    ensures whole { result.0 / 10 ^ result.1 ≡ number / 10 ^ 6 }
    ensures zero { (result.0 == 0) ≡ (number == 0) }
    ensures size { result.1 ≤ 6 }
{
    if number % 100_000 > 0 {
        return without_zeros_at_end(number, 6);
    }
    let tenths = number / 100_000;
    if tenths % 10 > 0 {
        (tenths, 1)
    } else {
        (tenths / 10, 0)
    }
}

// A number of units without the zeros at its end, of which so many may go.
#[inline(always)]
fn without_end_zeros(number: u64, places: u8) -> (u64, u8)
    ensures places { fixed_digits result.1 result.0 ≡ without_last_zeros (fixed_digits places number) }
    ensures whole { result.0 / 10 ^ result.1 ≡ number / 10 ^ places }
    ensures zero { (result.0 == 0) ≡ (number == 0) }
    ensures size { result.1 ≤ places }
{
    if places == 6 {
        without_zeros_of_six(number)
    } else {
        without_zeros_at_end(number, places)
    }
}

/// Whether all digits are zero of a number that is written with so many places, at most 15.
pub fn rounds_to_zero(value: Fixed, places: u8) -> bool
    requires { places ≤ 15 }
    ensures { result ≡ (scaled value places == 0) }
{
    scaled(value, places.min(6)) == 0
}

/// Writes a number with so many places, at most 15: rounded once, halves away from zero, with zeros past the
/// sixth place, no point where there are no places, and no sign where all digits are zero.
pub fn write_decimal(value: Fixed, places: u8) -> Digits
    requires { places ≤ 15 }
    ensures { result ≡ written value places }
{
    let kept = places.min(6);
    write(
        is_minus(value),
        scaled(value, kept),
        kept,
        places - kept,
        10,
    )
}

/// Writes a number with at most so many places, at most 15: rounded once, halves away from zero, without the
/// zeros at the end of its places.
pub fn write_short(value: Fixed, places: u8) -> Digits
    requires { places ≤ 15 }
    ensures { result ≡ short value places }
{
    let kept = places.min(6);
    let (number, left) = without_end_zeros(scaled(value, kept), kept);
    write(is_minus(value), number, left, 0, 10)
}

/// Writes a hundred times a number with so many places, at most 15: multiplied exactly and rounded once, halves
/// away from zero.
pub fn write_hundredfold(value: Fixed, places: u8) -> Digits
    requires { places ≤ 15 }
    ensures { result ≡ hundredfold value places }
{
    let kept = places.min(4);
    let number = scaled(value, kept + 2);
    write(is_minus(value), number, kept, places - kept, 12)
}

/// Writes a number of so many whole digits with the decimals that it has, without zeros at their end, where that
/// takes at most so many bytes, and else answers none: with more places its short text is the same.
pub fn write_exact(value: Fixed, whole: u8, room: usize) -> Option<Digits>
    requires { whole ≡ whole_len value }
    ensures text { result ≡ (if nat_le (length (written value (decimals value))) room
        then Some (written value (decimals value)) else None) }
    ensures few { decimals value ≤ 6 }
    ensures enough { (places : ℕ) → decimals value ≤ places → short value places ≡ written value (decimals value) }
{
    let size = size_of(value);
    let (number, places) = without_zeros_of_six(size);
    if sign_len(value, size) + usize::from(whole) + behind_len(places) > room {
        return None;
    }
    Some(write(is_minus(value), number, places, 0, 10))
}

/// Writes a number with at most so many places, at most 6, without the zeros at their end, where it would take at
/// most so many bytes with these zeros, and else answers none.
pub fn write_fitting(value: Fixed, places: u8, room: usize) -> Option<Digits>
    requires { places ≤ 6 }
    ensures { result ≡ (if nat_le (length (written value places)) room then Some (short value places) else None) }
{
    let (number, left) = without_zeros_at_end(scaled(value, places), places);
    let text = write(is_minus(value), number, left, 0, 10);
    if text.bytes().len() - behind_len(left) + behind_len(places) > room {
        return None;
    }
    Some(text)
}

/// How many whole digits a number has, at least one: with places it is at least so long, a point and the places.
pub fn whole_len(value: Fixed) -> u8
    ensures len { result ≡ whole_len value }
    ensures most { result ≤ 10 }
    ensures least { (places : ℕ) → 0 < places → result + 1 + places ≤ length (written value places) }
{
    count_digits(size_of(value) / 1_000_000)
}

/// At least how many bytes a number of so many whole digits takes in front of its point: these digits, and the
/// sign where its size is 1 or more, for a smaller one can be rounded to zero.
pub fn front_len(value: Fixed, whole: u8) -> u8
    requires { whole ≡ whole_len value }
    ensures least { (places : ℕ) → 0 < places → result + 1 + places ≤ length (written value places) }
    ensures most { result ≤ whole + 1 }
{
    let size = size_of(value);
    if is_minus(value) && size >= 1_000_000 {
        whole + 1
    } else {
        whole
    }
}

/// A number that is written with six places or more is read back as itself.
pub fn written_is_read()
    ensures { (v : ℤ) (places : ℕ) → nat_abs v ≤ 999999999999999 → 6 ≤ places → decimal_of (written v places) ≡ Num v }
{}

/// A number that is written with at most six places or more, and no more than are needed, is read back as itself.
pub fn short_is_read()
    ensures { (v : ℤ) (places : ℕ) → nat_abs v ≤ 999999999999999 → 6 ≤ places → decimal_of (short v places) ≡ Num v }
{}
