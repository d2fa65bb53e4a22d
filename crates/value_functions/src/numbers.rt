// Conditions that are numbers.
ghost use Rattle.std.specs.Prelude.{◌≡◌, ◌==◌, nat_abs, not};
ghost use Rattle.std.specs.Ordering.{int_eq};
ghost use Rattle.formula_tree.specs.Seen.{seen_value};
ghost use Rattle.value_functions.specs.Numbers.{equals_number, is_true};

use fixed_value::Fixed;
use formula_tree::{Value, ValueRef};

/// Whether two numbers are equal.
pub fn is_same(a: Fixed, b: Fixed) -> bool
    ensures { result ≡ int_eq a b }
{
    a.millionths() == b.millionths()
}

// Whether a number is other than 0.
fn is_not_zero(number: Fixed) -> bool
    ensures { result ≡ not (nat_abs number == 0) }
{
    number.millionths() != 0
}

/// Whether a value is this number.
pub fn equals_number(number: Fixed, value: &ValueRef<'_>) -> bool
    ensures { result ≡ equals_number number (seen_value value.now) }
{
    match value {
        ValueRef::Num(other) => is_same(number, *other),
        ValueRef::Blank | ValueRef::Str(_) | ValueRef::Err | ValueRef::Na => false,
    }
}

/// Whether a value is a number other than 0.
pub fn is_true(value: &Value) -> bool
    ensures { result ≡ is_true value.now }
{
    match value {
        Value::Num(number) => is_not_zero(*number),
        Value::Blank | Value::Str(_) | Value::Err | Value::Na => false,
    }
}
