// Decimals written at their place among other bytes.
ghost use Rattle.std.specs.Int.RustNames.{int_lt};
ghost use Rattle.std.specs.Prelude.{◌≡◌, ◌≤◌, ◌<◌, ◌+◌, ◌-◌, ◌^◌, ◌++◌, ◌∷◌, ◌&&◌, ◌==◌, not, [], length, nat_le, true, false, ℕ, pos};
ghost use Rattle.fixed_value.specs.Standing.{Stands};
ghost use Rattle.fixed_value.specs.Written.{decimals, fixed_digits, minus_sign, pointed, short, without_last_zeros, without_zeros, written};

use crate::Fixed;
use crate::digits::{behind_len, count_digits, is_minus, sign_len, size_of, without_zeros_at_end};

// The digits of a number: its whole part, and its places as a number.
#[derive(Clone, Copy)]
struct Parts {
    whole: u32,
    behind: u32,
    places: u8,
}

// Puts a byte in front of a place.
#[tactic(auto, using(crate::proofs::InPlace::byte_stands))]
fn put_byte(bytes: &mut [u8], end: usize, byte: u8)
    requires some { 1 ≤ end }
    requires within { end ≤ length bytes.old }
    ensures { Stands (byte ∷ []) (end - 1) end bytes.old bytes.new }
{
    bytes[end - 1] = byte;
}

// Puts so many digits of a number, which has no more, in front of a place: two at a time, by one division.
fn put_digits(bytes: &mut [u8], end: usize, count: u8, number: u32)
    requires room { count ≤ end }
    requires within { end ≤ length bytes.old }
    requires below { number < 10 ^ count }
    ensures { Stands (fixed_digits count number) (end - count) end bytes.old bytes.new }
{
    let first = end - usize::from(count);
    let mut left = number;
    let mut from = end;
    while from > first + 1 {
        let pair = left % 100;
        put_byte(bytes, from, b'0' + (pair % 10) as u8);
        put_byte(bytes, from - 1, b'0' + (pair / 10) as u8);
        left /= 100;
        from -= 2;
    }
    if from > first {
        put_byte(bytes, from, b'0' + left as u8);
    }
}

// Puts the point and the places in front of a place, where there are any. The answer is where they begin.
#[tactic(auto, using(crate::proofs::InPlace::nothing_stands))]
fn put_behind(bytes: &mut [u8], end: usize, behind: u32, places: u8) -> usize
    requires room { length (pointed (fixed_digits places behind)) ≤ end }
    requires within { end ≤ length bytes.old }
    requires below { behind < 10 ^ places }
    ensures { Stands (pointed (fixed_digits places behind)) result end bytes.old bytes.new }
{
    if places == 0 {
        return end;
    }
    put_digits(bytes, end, places, behind);
    let point = end - usize::from(places);
    put_byte(bytes, point, b'.');
    point - 1
}

// Puts the sign of a number in front of a place, where it has one. The answer is where it begins.
#[tactic(auto, using(crate::proofs::InPlace::nothing_stands))]
fn put_sign(bytes: &mut [u8], end: usize, minus: bool) -> usize
    requires room { length (minus_sign minus) ≤ end }
    requires within { end ≤ length bytes.old }
    ensures { Stands (minus_sign minus) result end bytes.old bytes.new }
{
    if minus {
        put_byte(bytes, end, b'-');
        end - 1
    } else {
        end
    }
}

// Puts a number in front of a place, by its sign, its parts and its count of whole digits. The answer is where it
// begins.
fn put_parts(bytes: &mut [u8], end: usize, minus: bool, parts: Parts, len: u8) -> usize
    requires len { len ≡ length (without_zeros (fixed_digits 10 parts.whole)) }
    requires below { parts.behind < 10 ^ parts.places }
    requires whole { parts.whole < 10000000000 }
    requires room { length (minus_sign minus) + len + length (pointed (fixed_digits parts.places parts.behind)) ≤ end }
    requires within { end ≤ length bytes.old }
    ensures { Stands
        (minus_sign minus
        ++ (without_zeros (fixed_digits 10 parts.whole) ++ pointed (fixed_digits parts.places parts.behind)))
        result end bytes.old bytes.new }
{
    let point = put_behind(bytes, end, parts.behind, parts.places);
    put_digits(bytes, point, len, parts.whole);
    put_sign(bytes, point - usize::from(len), minus)
}

// Whether a number of that many units has a sign.
fn has_sign(value: Fixed, number: u64) -> bool
    ensures { result ≡ (int_lt value (pos 0) && not (number == 0)) }
{
    is_minus(value) && number != 0
}

// The places of so many millionths as a number, without the zeros at their end, and how many these are: most numbers
// have one or none.
fn short_places(millionths: u32) -> (u32, u8)
    requires { millionths < 1000000 }
    ensures places { fixed_digits result.1 result.0 ≡ without_last_zeros (fixed_digits 6 millionths) }
    ensures below { result.0 < 10 ^ result.1 }
    ensures zero { (result.0 == 0) ≡ (millionths == 0) }
    ensures size { result.1 ≤ 6 }
{
    if millionths == 0 {
        return (0, 0);
    }
    let tenths = millionths / 100_000;
    if tenths * 100_000 == millionths {
        return (tenths, 1);
    }
    let (number, places) = without_zeros_at_end(u64::from(millionths), 6);
    (number as u32, places)
}

/// Puts a number with the decimals that it has, without zeros at their end, in front of a place of other bytes, where
/// it takes no more than there are before that place. Whether it did; where it didn't, the bytes are as they were.
pub fn put_exact(value: Fixed, bytes: &mut [u8], end: usize) -> bool
    requires { end ≤ length bytes.old }
    ensures fits { result ≡ nat_le (length (written value (decimals value))) end }
    ensures text { result ≡ true → Stands (written value (decimals value))
        (end - length (written value (decimals value))) end bytes.old bytes.new }
    ensures same { result ≡ false → bytes.new ≡ bytes.old }
    ensures size { length bytes.new ≡ length bytes.old }
    ensures few { decimals value ≤ 6 }
    ensures enough { (places : ℕ) → decimals value ≤ places → short value places ≡ written value (decimals value) }
{
    let size = size_of(value);
    let whole = (size / 1_000_000) as u32;
    let (behind, places) = short_places((size % 1_000_000) as u32);
    let len = count_digits(u64::from(whole));
    if sign_len(value, size) + usize::from(len) + behind_len(places) > end {
        return false;
    }
    let parts = Parts {
        whole,
        behind,
        places,
    };
    put_parts(bytes, end, has_sign(value, size), parts, len);
    true
}
