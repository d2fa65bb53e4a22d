// Arguments and results in millionths.
ghost use Rattle.std.specs.Prelude.{◌≡◌, ◌≤◌, nat_abs, Some};
ghost use Rattle.std.specs.Option.{ForSome};
ghost use Rattle.serial_date.specs.Calendar.{is_between};
ghost use Rattle.at_functions.specs.Numbers.{count_of, in_units, units, whole, within};

use fixed_value::Fixed;

// Cut toward zero.
pub fn whole(value: Fixed) -> i64
    ensures value { result ≡ whole value }
    ensures size { nat_abs result ≤ 999999999 }
{
    value.millionths() / 1_000_000
}

// A whole number as a value.
pub fn units(number: u32) -> Option<Fixed>
    requires { number ≤ 999999999 }
    ensures { result ≡ Some (units number) }
{
    Fixed::of(i64::from(number) * 1_000_000)
}

// The whole number, where there is one, as a value.
pub fn in_units(number: Option<u32>) -> Option<Fixed>
    requires { ForSome number (λ n. n ≤ 999999999) }
    ensures { result ≡ in_units number }
{
    match number {
        Some(number) => units(number),
        None => None,
    }
}

// A place or a count, none below zero.
pub fn count_of(value: Fixed) -> Option<u32>
    ensures { result ≡ count_of value }
{
    let number = whole(value);
    if number < 0 {
        None
    } else {
        Some(number as u32)
    }
}

// Whether a number lies from one to another, both included.
fn is_between(low: u16, high: u16, number: i64) -> bool
    ensures { result ≡ is_between low high number }
{
    !(number < i64::from(low)) && !(i64::from(high) < number)
}

// A whole number within bounds.
#[tactic(auto, using(crate::proofs::Bounds::small_is))]
pub fn within(low: u16, high: u16, number: i64) -> Option<u16>
    ensures value { result ≡ within low high number }
    ensures bounds { ForSome result (λ n. (low ≤ n) × (n ≤ high)) }
{
    if is_between(low, high, number) {
        Some(number as u16)
    } else {
        None
    }
}
