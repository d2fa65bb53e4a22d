// Rounding to decimals.
ghost use Rattle.std.specs.Prelude.{◌≡◌, ◌≤◌, ◌<◌, pos, nat_abs};
ghost use Rattle.std.specs.Int.RustNames.{int_lt, int_le};
ghost use Rattle.fixed_value.specs.Numbers.{within};
ghost use Rattle.fixed_value.specs.Powers.{nearest_multiple, rounded_to, unit_of};

use crate::Fixed;
use crate::digits::is_minus;
use crate::parts::with_sign;
use crate::power_of_ten::ten_to;

// The nearest multiple of a unit.
fn to_multiple(x: Fixed, unit: u128) -> Option<Fixed>
    requires least { 1 ≤ unit }
    requires most { unit ≤ 1000000000000000000000 }
    ensures { result ≡ within (nearest_multiple x unit) }
{
    let size = u128::from(x.millionths().unsigned_abs());
    let multiple = (2 * size + unit) / (2 * unit) * unit;
    if multiple > 999_999_999_999_999 {
        return None;
    }
    Fixed::of(with_sign(is_minus(x), multiple as u64))
}

/// The number rounded to so many decimals.
pub fn rounded_to(x: Fixed, places: i8) -> Option<Fixed>
    ensures { result ≡ rounded_to x places }
{
    if places < -15 || places > 15 {
        return None;
    }
    if places >= 6 {
        return Some(x);
    }
    to_multiple(x, ten_to((6 - places) as u32))
}
