// Doubles as bits, by whole-number arithmetic alone.
ghost use Rattle.std.specs.Prelude.{◌≡◌, ◌≤◌, ◌<◌, ◌*◌, ◌^◌, pos, nat_abs, IfSome, IfNone};
ghost use Rattle.fixed_value.specs.Doubles.{double_of, mantissa_of, nearest_even, sign_bit, size_by, IsWritten};
ghost use Rattle.fixed_value.specs.declared.doubles.DoubleRead.TheVariants.{Num};

use crate::Fixed;
use crate::digits::is_minus;

const FRACTIONS: u64 = 4_503_599_627_370_496;

const SIGN: u64 = 9_223_372_036_854_775_808;

/// What the bits of a double hold.
#[derive(Clone, Copy)]
pub enum DoubleRead {
    Num(Fixed),
    Na,
    Err,
    TooLarge,
}

// The mantissa of a double, with the bit that isn't stored where there is one.
fn mantissa_of(exponent: u64, fraction: u64) -> u64
    requires { fraction < 4503599627370496 }
    ensures value { result ≡ mantissa_of exponent fraction }
    ensures size { result < 9007199254740992 }
{
    if exponent == 0 {
        fraction
    } else {
        FRACTIONS + fraction
    }
}

// The size in millionths; none past the size of a number.
fn size_by(mantissa: u64, exponent: u64) -> Option<u64>
    requires mantissa { mantissa < 9007199254740992 }
    requires exponent { exponent ≤ 2046 }
    requires normal { 2 ≤ exponent → 4503599627370496 ≤ mantissa }
    ensures some { IfSome result (λ size. (size ≡ size_by mantissa exponent) × (size ≤ 999999999999999)) }
    ensures none { IfNone result (999999999999999 < size_by mantissa exponent) }
{
    if exponent >= 1075 {
        return None;
    }
    let scale = 1075 - exponent;
    if scale >= 74 {
        return Some(0);
    }
    let unit = 1u128 << scale;
    let size = (2 * (u128::from(mantissa) * 1_000_000) + unit) / (2 * unit);
    if size > 999_999_999_999_999 {
        return None;
    }
    Some(size as u64)
}

/// Reads the bits of a double: the nearest millionth, halves away from zero. All ones in the exponent are
/// `Err`, but the bits hex FFF0000000000000 are `Na`. `TooLarge` comes exactly past the size of a number.
/// (Worksheet file format; the size is this project's choice.)
pub fn from_double_bits(bits: u64) -> DoubleRead
    ensures { result ≡ double_of bits }
{
    if bits == 0xFFF0_0000_0000_0000 {
        return DoubleRead::Na;
    }
    let exponent = bits / FRACTIONS % 2048;
    if exponent == 2047 {
        return DoubleRead::Err;
    }
    let mantissa = mantissa_of(exponent, bits % FRACTIONS);
    match size_by(mantissa, exponent.max(1)) {
        Some(size) => DoubleRead::Num(Fixed::of_size(bits >= SIGN, size)),
        None => DoubleRead::TooLarge,
    }
}

// By how many powers of two a size is raised to have 72 bits.
fn scale_below(size: u64) -> u32
    requires least { 1 ≤ size }
    requires most { size ≤ 999999999999999 }
    ensures in_range { (22 ≤ result) × (result ≤ 71) }
    ensures least { 2361183241434822606848 ≤ size * 2 ^ result }
    ensures below { size * 2 ^ result < 4722366482869645213696 }
{
    let highest = size.ilog2();
    71 - highest
}

// By how many powers of two a size in millionths is raised to have 53 bits, and the size so raised.
fn scale_of(size: u64) -> (u32, u128)
    requires least { 1 ≤ size }
    requires most { size ≤ 999999999999999 }
    ensures in_range { (23 ≤ result.0) × (result.0 ≤ 72) }
    ensures value { result.1 ≡ size * 2 ^ result.0 }
    ensures least { 4503599627370496 * 1000000 ≤ result.1 }
    ensures below { result.1 < 9007199254740992 * 1000000 }
{
    let scale = scale_below(size);
    let count = u128::from(size) << scale;
    if count < 4_503_599_627_370_496_000_000 {
        (scale + 1, 2 * count)
    } else {
        (scale, count)
    }
}

// A count of millionths to the nearest whole number, and at the same distance to the even one.
fn nearest_even(count: u128) -> u64
    requires least { 4503599627370496 * 1000000 ≤ count }
    requires below { count < 9007199254740992 * 1000000 }
    ensures value { result ≡ nearest_even count 1000000 }
    ensures least { 4503599627370496 ≤ result }
    ensures most { result ≤ 9007199254740992 }
{
    let whole = (count / 1_000_000) as u64;
    let rest = (count % 1_000_000) as u64;
    if 2 * rest + whole % 2 > 1_000_000 {
        whole + 1
    } else {
        whole
    }
}

// The sign of a number as the highest bit of its double.
fn sign_bit(value: Fixed) -> u64
    ensures value { result ≡ sign_bit value }
    ensures size { result ≤ 9223372036854775808 }
{
    if is_minus(value) { SIGN } else { 0 }
}

// The bits of a number that isn't 0.
fn written_bits(value: Fixed) -> u64
    requires { 1 ≤ nat_abs value }
    ensures { IsWritten value result }
{
    let size = value.millionths().unsigned_abs();
    let (scale, count) = scale_of(size);
    let mantissa = nearest_even(count);
    sign_bit(value) + (u64::from(1075 - scale) * FRACTIONS + (mantissa - FRACTIONS))
}

/// The bits of the nearest double, ties to even (worksheet file format); 0 is written without a sign. What
/// is written is read back as itself.
pub fn to_double_bits(value: Fixed) -> u64
    ensures nothing { value ≡ pos 0 → result ≡ 0 }
    ensures nearest { 1 ≤ nat_abs value → IsWritten value result }
    ensures back { double_of result ≡ Num value }
{
    if value == Fixed::ZERO {
        return 0;
    }
    written_bits(value)
}
