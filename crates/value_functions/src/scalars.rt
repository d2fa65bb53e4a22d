// Functions of single values.
ghost use Rattle.std.specs.Prelude.{◌≡◌, IfOk};
ghost use Rattle.value_functions.specs.Scalars.{changed, char_value, cut_value, exact_value, find_value, mid_value, of_number, of_numbers, of_parts, of_text, replace_value, string_value, test_value};
ghost use Rattle.value_functions.specs.inner.Worded.{in_words};

use crate::rows::{changed_row, cut_row, number_row, numbers_row, parts_row, text_row};
use crate::values::{
    answer, is_err, is_na, is_text, number_in, stop_four, stop_one, stop_three, stop_two, text_in,
    truth, worded,
};
use at_functions::{char_of, find_in, mid, replace, string};
use fixed_value::Fixed;
use formula_tree::{Function, Value};
use lics_text::{Memory, Text};
use std::alloc::Global;

// A text as a value, and ERR where there is none, unless memory is wanting.
fn in_words(text: Result<Option<Text>, Memory>) -> Result<Value, Memory>
    ensures { result ≡ in_words text }
{
    match text {
        Ok(text) => Ok(worded(text)),
        Err(Memory) => Err(Memory),
    }
}

/// DAY and its like, of a number.
pub fn of_number(function: Function, a: &Value) -> Value
    ensures { result ≡ of_number function a.now }
{
    if let Some(stopped) = stop_one(a) {
        return stopped;
    }
    match number_in(a) {
        Some(x) => answer(number_row(function, x)),
        None => Value::Err,
    }
}

/// LENGTH and its like, of a text.
pub fn of_text(function: Function, a: &Value) -> Value
    ensures { result ≡ of_text function a.now }
{
    if let Some(stopped) = stop_one(a) {
        return stopped;
    }
    match text_in(a) {
        Some(text) => answer(text_row(function, text)),
        None => Value::Err,
    }
}

/// UPPER and its like, of a text.
pub fn changed(function: Function, a: &Value) -> Result<Value, Memory>
    ensures { IfOk result (λ v. v ≡ changed function a.now) }
{
    if let Some(stopped) = stop_one(a) {
        return Ok(stopped);
    }
    match text_in(a) {
        Some(text) => in_words(changed_row(function, text)),
        None => Ok(Value::Err),
    }
}

/// CHAR.
pub fn char_value(alloc: Global, a: &Value) -> Result<Value, Memory>
    ensures { IfOk result (λ v. v ≡ char_value a.now) }
{
    if let Some(stopped) = stop_one(a) {
        return Ok(stopped);
    }
    match number_in(a) {
        Some(code) => in_words(char_of(alloc, code)),
        None => Ok(Value::Err),
    }
}

/// MOD and ROUND.
pub fn of_numbers(function: Function, a: &Value, b: &Value) -> Value
    ensures { result ≡ of_numbers function a.now b.now }
{
    if let Some(stopped) = stop_two(a, b) {
        return stopped;
    }
    match (number_in(a), number_in(b)) {
        (Some(x), Some(y)) => answer(numbers_row(function, x, y)),
        _ => Value::Err,
    }
}

/// STRING.
pub fn string_value(alloc: Global, a: &Value, b: &Value) -> Result<Value, Memory>
    ensures { IfOk result (λ v. v ≡ string_value a.now b.now) }
{
    if let Some(stopped) = stop_two(a, b) {
        return Ok(stopped);
    }
    match (number_in(a), number_in(b)) {
        (Some(x), Some(places)) => in_words(string(alloc, x, places)),
        _ => Ok(Value::Err),
    }
}

/// REPEAT, LEFT and RIGHT.
pub fn cut_value(function: Function, a: &Value, b: &Value) -> Result<Value, Memory>
    ensures { IfOk result (λ v. v ≡ cut_value function a.now b.now) }
{
    if let Some(stopped) = stop_two(a, b) {
        return Ok(stopped);
    }
    match (text_in(a), number_in(b)) {
        (Some(text), Some(count)) => in_words(cut_row(function, text, count)),
        _ => Ok(Value::Err),
    }
}

/// EXACT.
pub fn exact_value(a: &Value, b: &Value) -> Value
    ensures { result ≡ exact_value a.now b.now }
{
    if let Some(stopped) = stop_two(a, b) {
        return stopped;
    }
    match (text_in(a), text_in(b)) {
        (Some(first), Some(second)) => truth(first.bytes() == second.bytes()),
        _ => Value::Err,
    }
}

/// DATE and TIME.
pub fn of_parts(function: Function, a: &Value, b: &Value, c: &Value) -> Value
    ensures { result ≡ of_parts function a.now b.now c.now }
{
    if let Some(stopped) = stop_three(a, b, c) {
        return stopped;
    }
    match (number_in(a), number_in(b), number_in(c)) {
        (Some(x), Some(y), Some(z)) => answer(parts_row(function, x, y, z)),
        _ => Value::Err,
    }
}

/// MID.
pub fn mid_value(a: &Value, b: &Value, c: &Value) -> Result<Value, Memory>
    ensures { IfOk result (λ v. v ≡ mid_value a.now b.now c.now) }
{
    if let Some(stopped) = stop_three(a, b, c) {
        return Ok(stopped);
    }
    match (text_in(a), number_in(b), number_in(c)) {
        (Some(text), Some(start), Some(count)) => in_words(mid(text, start, count)),
        _ => Ok(Value::Err),
    }
}

/// FIND.
pub fn find_value(a: &Value, b: &Value, c: &Value) -> Value
    ensures { result ≡ find_value a.now b.now c.now }
{
    if let Some(stopped) = stop_three(a, b, c) {
        return stopped;
    }
    match (text_in(a), text_in(b), number_in(c)) {
        (Some(what), Some(text), Some(start)) => answer(find_in(what, text, start)),
        _ => Value::Err,
    }
}

/// REPLACE.
pub fn replace_value(a: &Value, b: &Value, c: &Value, d: &Value) -> Result<Value, Memory>
    ensures { IfOk result (λ v. v ≡ replace_value a.now b.now c.now d.now) }
{
    if let Some(stopped) = stop_four(a, b, c, d) {
        return Ok(stopped);
    }
    match (text_in(a), number_in(b), number_in(c), text_in(d)) {
        (Some(text), Some(start), Some(count), Some(new)) => {
            in_words(replace(text, start, count, new))
        }
        _ => Ok(Value::Err),
    }
}

/// ISNA, ISERR, ISNUMBER and ISSTRING.
pub fn test_value(function: Function, a: &Value) -> Value
    ensures { result ≡ test_value function a.now }
{
    match function {
        Function::IsNa => truth(is_na(a)),
        Function::IsErr => truth(is_err(a)),
        Function::IsString => truth(is_text(a)),
        _ => truth(!is_text(a)),
    }
}
