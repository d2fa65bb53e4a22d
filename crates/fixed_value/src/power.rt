// Powers.
ghost use Rattle.std.specs.Prelude.{◌≡◌, ◌≤◌};
ghost use Rattle.fixed_value.specs.Powers.{power, powered};

use crate::Fixed;

// 1 times the number, times the number and so on.
fn powered(x: Fixed, count: u64) -> Option<Fixed>
    requires { count ≤ 1000 }
    ensures { result ≡ powered x count }
{
    let mut power = Fixed::ONE;
    for _ in 0..count {
        power = power.mul(x)?;
    }
    Some(power)
}

/// The power by a whole number of at most 1000 in size.
pub fn power(x: Fixed, exponent: Fixed) -> Option<Fixed>
    ensures { result ≡ power x exponent }
{
    let size = exponent.millionths().unsigned_abs();
    if size % 1_000_000 != 0 || size / 1_000_000 > 1000 {
        return None;
    }
    let power = powered(x, size / 1_000_000)?;
    if exponent.millionths() < 0 {
        Fixed::ONE.div(power)
    } else {
        Some(power)
    }
}
