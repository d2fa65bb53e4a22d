// The functions of numbers.
ghost use Rattle.std.specs.Prelude.{◌≡◌, pos, negsuc, ◌≤ℤ◌};
ghost use Rattle.at_functions.specs.Numbers.{round};

use crate::counts::whole;
use fixed_value::Fixed;

// Decimals in a small type.
fn narrow(places: i64) -> i8
    requires low { negsuc 14 ≤ℤ places }
    requires high { places ≤ℤ pos 15 }
    ensures { result ≡ places }
{
    places as i8
}

/// A number rounded to so many decimals; none outside -15 to 15, and past the size.
pub fn round(value: Fixed, places: Fixed) -> Option<Fixed>
    ensures { result ≡ round value places }
{
    let places = whole(places);
    if places < -15 || places > 15 {
        None
    } else {
        value.round(narrow(places))
    }
}
