// The parts of a rounded fraction: its sign and its size.
ghost use Rattle.std.specs.Prelude.{◌≡◌, ◌≢◌, ◌≤◌, ℤ, pos, ◌*ℤ◌, nat_abs};
ghost use Rattle.std.specs.Int.RustNames.{int_lt};
ghost use Rattle.fixed_value.specs.Numbers.{within, rounded, signed, unlike};

use crate::Fixed;

/// A product of two numbers of the size of a `Fixed`.
pub fn product(a: i64, b: i64) -> i128
    requires left { nat_abs a ≤ 999999999999999 }
    requires right { nat_abs b ≤ 999999999999999 }
    ensures value { result ≡ a *ℤ b }
    ensures size { nat_abs result ≤ 1000000000000000000000000000000 }
{
    i128::from(a) * i128::from(b)
}

/// The fraction, rounded once.
#[tactic(auto, unfolding(crate::specs::Numbers::rounded))]
pub fn ratio(num: i128, den: i128) -> Option<Fixed>
    requires num_size { nat_abs num ≤ 1000000000000000000000000000000 }
    requires den_size { nat_abs den ≤ 999999999999999 }
    requires den_is { den ≢ pos 0 }
    ensures { result ≡ within (rounded num den) }
{
    let den_size = size_of(den);
    let size = (2 * size_of(num) + den_size) / (2 * den_size);
    if size > 999_999_999_999_999 {
        return None;
    }
    let minus = unlike(is_negative(num), is_negative(den));
    Fixed::of(with_sign(minus, size as u64))
}

// The largest product that is divided in 64 bits.
const MOST_SMALL: u128 = 9_000_000_000_000_000_000;

const MILLION: u64 = 1_000_000;

/// The millionth part of a product, rounded once; in 64 bits where its size fits these.
#[tactic(auto, using(crate::proofs::Rounding::million_rounded))]
pub fn millionth(product: i128) -> Option<Fixed>
    requires { nat_abs product ≤ 1000000000000000000000000000000 }
    ensures { result ≡ within (rounded product (pos 1000000)) }
{
    let size = size_of(product);
    if size > MOST_SMALL {
        return ratio(product, i128::from(MILLION));
    }
    let units = (size as u64 + MILLION / 2) / MILLION;
    Fixed::of(with_sign(is_negative(product), units))
}

/// A number in 128 bits, where products have room.
pub fn wide(z: i64) -> i128
    ensures { result ≡ z }
{
    i128::from(z)
}

/// The size of a number without its sign.
pub fn size_of(z: i128) -> u128
    ensures { result ≡ nat_abs z }
{
    z.unsigned_abs()
}

/// Whether a number is below zero.
pub fn is_negative(z: i128) -> bool
    ensures { result ≡ int_lt z (pos 0) }
{
    z < 0
}

// Whether two signs differ.
fn unlike(a: bool, b: bool) -> bool
    ensures { result ≡ unlike a b }
{
    if a { !b } else { b }
}

/// The number of that size, below zero if so.
pub fn with_sign(minus: bool, size: u64) -> i64
    requires { size ≤ 999999999999999 }
    ensures { result ≡ signed minus size }
{
    if minus { -(size as i64) } else { size as i64 }
}
