// Values as arguments and as answers.
ghost use Rattle.std.specs.Prelude.{◌≡◌, ◌≤◌, ◌||◌, IfOk, IfSome, IfNone, Some, None, nat_abs};
ghost use Rattle.lics_text.specs.Texts.{text_of};
ghost use Rattle.formula_tree.specs.declared.value.Value.TheVariants as value;
ghost use Rattle.value_functions.specs.Values.{answer, counted, is_err, is_na, is_text, number_in, stop, stop_four, stop_one, stop_three, stop_two, text_in, texted, truth, worded};

use fixed_value::Fixed;
use formula_tree::Value;
use lics_text::{Memory, Text, TextFault};
use std::alloc::Global;

/// The greatest whole number that a cell can hold.
const MOST_WHOLE: usize = 999_999_999;

/// Whether it is ERR.
pub fn is_err(value: &Value) -> bool
    ensures { result ≡ is_err value.now }
{
    match value {
        Value::Err => true,
        Value::Blank | Value::Num(_) | Value::Str(_) | Value::Na => false,
    }
}

/// Whether it is NA.
pub fn is_na(value: &Value) -> bool
    ensures { result ≡ is_na value.now }
{
    match value {
        Value::Na => true,
        Value::Blank | Value::Num(_) | Value::Str(_) | Value::Err => false,
    }
}

/// Whether it is a text.
pub fn is_text(value: &Value) -> bool
    ensures { result ≡ is_text value.now }
{
    match value {
        Value::Str(_) => true,
        Value::Blank | Value::Num(_) | Value::Err | Value::Na => false,
    }
}

/// The number of a value, 0 for a blank one; none for a text, ERR and NA.
pub fn number_in(value: &Value) -> Option<Fixed>
    ensures { result ≡ number_in value.now }
{
    match value {
        Value::Blank => Some(Fixed::ZERO),
        Value::Num(number) => Some(*number),
        Value::Str(_) | Value::Err | Value::Na => None,
    }
}

/// The text of a value that is one; none for any other.
pub fn text_in(value: &Value) -> Option<&Text>
    ensures some { IfSome result (λ t. text_in value.now ≡ Some t.now) }
    ensures none { IfNone result (text_in value.now ≡ None) }
{
    match value {
        Value::Str(text) => Some(text),
        Value::Blank | Value::Num(_) | Value::Err | Value::Na => None,
    }
}

/// The number as a value, and ERR where there is none.
pub fn answer(number: Option<Fixed>) -> Value
    ensures { result ≡ answer number }
{
    match number {
        Some(number) => Value::Num(number),
        None => Value::Err,
    }
}

/// The text as a value, and ERR where there is none.
pub fn worded(text: Option<Text>) -> Value
    ensures { result ≡ worded text }
{
    match text {
        Some(text) => Value::Str(text),
        None => Value::Err,
    }
}

/// The text of bytes, and ERR where they are no text.
pub fn texted(alloc: Global, bytes: &[u8]) -> Result<Value, Memory>
    ensures { IfOk result (λ v. v ≡ texted bytes.now) }
{
    match Text::from_bytes(alloc, bytes) {
        Ok(text) => Ok(Value::Str(text)),
        Err(TextFault::Memory) => Err(Memory),
        Err(TextFault::TooLong) => Ok(Value::Err),
        Err(TextFault::BadByte(_)) => Ok(Value::Err),
    }
}

/// The number 1 for true, and 0 for false.
pub fn one_if(is: bool) -> Fixed
    ensures { truth is ≡ value.Num result }
{
    if is { Fixed::ONE } else { Fixed::ZERO }
}

/// 1 for true, and 0 for false, as a value.
pub fn truth(is: bool) -> Value
    ensures { result ≡ truth is }
{
    Value::Num(one_if(is))
}

/// A whole number; none past 999,999,999.
pub fn whole_number(number: usize) -> Option<Fixed>
    ensures { counted number ≡ answer result }
{
    if number <= MOST_WHOLE {
        Fixed::of(number as i64 * 1_000_000)
    } else {
        None
    }
}

/// A whole number as a value, and ERR past 999,999,999.
pub fn counted(number: usize) -> Value
    ensures { result ≡ counted number }
{
    answer(whole_number(number))
}

/// What stops a function: ERR wins over NA, and NA over all else. (This project's choice.)
pub fn stop(err: bool, na: bool) -> Option<Value>
    ensures { result ≡ stop err na }
{
    if err {
        Some(Value::Err)
    } else if na {
        Some(Value::Na)
    } else {
        None
    }
}

/// What stops a function of one value.
pub fn stop_one(a: &Value) -> Option<Value>
    ensures { result ≡ stop_one a.now }
{
    stop(is_err(a), is_na(a))
}

/// What stops a function of two values.
pub fn stop_two(a: &Value, b: &Value) -> Option<Value>
    ensures { result ≡ stop_two a.now b.now }
{
    let err = is_err(a) || is_err(b);
    let na = is_na(a) || is_na(b);
    stop(err, na)
}

/// What stops a function of three values.
pub fn stop_three(a: &Value, b: &Value, c: &Value) -> Option<Value>
    ensures { result ≡ stop_three a.now b.now c.now }
{
    let err = is_err(a) || is_err(b) || is_err(c);
    let na = is_na(a) || is_na(b) || is_na(c);
    stop(err, na)
}

/// What stops a function of four values.
pub fn stop_four(a: &Value, b: &Value, c: &Value, d: &Value) -> Option<Value>
    ensures { result ≡ stop_four a.now b.now c.now d.now }
{
    let err = is_err(a) || is_err(b) || is_err(c) || is_err(d);
    let na = is_na(a) || is_na(b) || is_na(c) || is_na(d);
    stop(err, na)
}
