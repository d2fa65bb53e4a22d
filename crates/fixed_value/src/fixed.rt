ghost use Rattle.std.specs.Prelude.{◌≡◌, ◌≤◌, ◌<◌, ℤ, pos, ◌+ℤ◌, ◌-ℤ◌, neg_ℤ, nat_abs};
ghost use Rattle.fixed_value.specs.Numbers.{within, rounded, signed, product, quotient, remainder, whole_part, IsNearest};
ghost use Rattle.fixed_value.specs.Powers.{power, rounded_to};

use crate::digits::is_minus;
use crate::parts::{millionth, product, ratio, wide, with_sign};
use crate::power::power;
use crate::round::rounded_to;
use std::marker::Model;

/// The largest size of a number, in millionths.
pub const MAX_SIZE: u64 = 999_999_999_999_999;

/// A number: a whole count of millionths of a size of at most 999,999,999,999,999.
#[derive(Clone, Copy, PartialEq, Eq)]
pub struct Fixed {
    millionths: i64,
}

impl Model for Fixed {
    ghost use Rattle.std.specs.Prelude.{ℤ, nat_abs, ◌≤◌};

    ghost Value = { ℤ };

    ghost view = { λ f. f.millionths };

    ghost invariant = { λ f. nat_abs f.millionths ≤ 999999999999999 };

    ghost inverse = { λ z. record { millionths = z } };
}

impl Fixed {
    /// The number 0.
    pub const ZERO: Fixed = Fixed { millionths: 0 };

    /// The number 1.
    pub const ONE: Fixed = Fixed {
        millionths: 1_000_000,
    };

    /// The number of so many millionths; none exactly past the size.
    pub fn of(millionths: i64) -> Option<Fixed>
        ensures { result ≡ within millionths }
    {
        if millionths.unsigned_abs() <= MAX_SIZE {
            Some(Fixed { millionths })
        } else {
            None
        }
    }

    // The number of that size, below zero if so.
    pub(crate) fn of_size(minus: bool, size: u64) -> Fixed
        requires { size ≤ 999999999999999 }
        ensures { result ≡ signed minus size }
    {
        Fixed {
            millionths: with_sign(minus, size),
        }
    }

    /// How many millionths it is.
    pub fn millionths(self) -> i64
        ensures value { result ≡ self }
        ensures size { nat_abs self ≤ 999999999999999 }
    {
        self.millionths
    }

    /// The number with the other sign.
    pub fn neg(self) -> Fixed
        ensures { result ≡ neg_ℤ self }
    {
        Fixed {
            millionths: -self.millionths,
        }
    }

    /// The number without its sign.
    pub fn abs(self) -> Fixed
        ensures { result ≡ pos (nat_abs self) }
    {
        if self.millionths < 0 {
            self.neg()
        } else {
            self
        }
    }

    /// The whole part, cut toward zero.
    pub fn int(self) -> Fixed
        ensures { result ≡ whole_part self }
    {
        Fixed {
            millionths: self.millionths / 1_000_000 * 1_000_000,
        }
    }

    /// The sum; none exactly past the size.
    pub fn add(self, other: Fixed) -> Option<Fixed>
        ensures { result ≡ within (self +ℤ other) }
    {
        Fixed::of(self.millionths + other.millionths)
    }

    /// The difference; none exactly past the size.
    pub fn sub(self, other: Fixed) -> Option<Fixed>
        ensures { result ≡ within (self -ℤ other) }
    {
        Fixed::of(self.millionths - other.millionths)
    }

    /// The product, rounded once; none exactly past the size.
    pub fn mul(self, other: Fixed) -> Option<Fixed>
        ensures { result ≡ product self other }
    {
        millionth(product(self.millionths, other.millionths))
    }

    /// The quotient, rounded once; none exactly past the size or where the divisor is zero.
    pub fn div(self, other: Fixed) -> Option<Fixed>
        ensures { result ≡ quotient self other }
    {
        if other.millionths == 0 {
            return None;
        }
        ratio(product(self.millionths, 1_000_000), wide(other.millionths))
    }

    /// The remainder, with the sign of the number itself; none exactly where the divisor is zero.
    pub fn modulo(self, other: Fixed) -> Option<Fixed>
        ensures { result ≡ remainder self other }
    {
        if other.millionths == 0 {
            return None;
        }
        let left = self.millionths.unsigned_abs() % other.millionths.unsigned_abs();
        Some(Fixed {
            millionths: with_sign(is_minus(self), left),
        })
    }

    /// The power by a whole number of at most 1000 in size: products from the left, each rounded, and below
    /// zero 1 divided by the positive power. None exactly where the exponent is no such number, a product
    /// is past the size, or 0 would divide 1.
    pub fn pow(self, exponent: Fixed) -> Option<Fixed>
        ensures { result ≡ power self exponent }
    {
        power(self, exponent)
    }

    /// The number rounded to so many decimals, halves away from zero; none exactly past the size or where
    /// the places are outside -15 to 15.
    pub fn round(self, places: i8) -> Option<Fixed>
        ensures { result ≡ rounded_to self places }
    {
        rounded_to(self, places)
    }
}

/// The rounded fraction is nearest to the exact one, and of two that are equally near the larger.
pub fn rounding_is_nearest()
    ensures { (num den : ℤ) → 0 < nat_abs den → IsNearest num den (rounded num den) }
{}
