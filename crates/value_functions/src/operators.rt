// Operators between two values, and in front of one.
ghost use Rattle.std.specs.Prelude.{◌≡◌, ◌≤◌, ◌++◌, length, IfOk};
ghost use Rattle.std.specs.Ordering.{int_cmp};
ghost use Rattle.value_functions.specs.Operators.{binary_value, both_numbers, combined, computed, denied, is_zero, joined, joined_with, negated, of_numbers, order, order_with_number, order_with_text};
ghost use Rattle.value_functions.specs.Values.{answer, texted};
ghost use Rattle.formula_tree.specs.declared.value.Value.TheVariants as value;

use crate::values::{answer, number_in, one_if, stop_one, stop_two, texted, truth};
use fixed_value::Fixed;
use formula_tree::{Op, Value};
use lics_text::{Line, MAX_LEN, Memory, Text};
use std::alloc::Global;
use std::cmp::Ordering;

/// Whether it is 0.
pub fn is_zero(number: Fixed) -> bool
    ensures { result ≡ is_zero number }
{
    number.millionths() == 0
}

// How two numbers stand to one another by their size.
fn order_of_numbers(x: Fixed, y: Fixed) -> Ordering
    ensures { result ≡ int_cmp x y }
{
    x.millionths().cmp(&y.millionths())
}

// How a number stands to another value, which is 0 where it is blank.
fn order_with_number(x: Fixed, other: &Value) -> Ordering
    ensures { result ≡ order_with_number x other.now }
{
    match other {
        Value::Str(_) => Ordering::Less,
        Value::Num(y) => order_of_numbers(x, *y),
        Value::Blank | Value::Err | Value::Na => order_of_numbers(x, Fixed::ZERO),
    }
}

// How a text stands to another value.
fn order_with_text(text: &Text, other: &Value) -> Ordering
    ensures { result ≡ order_with_text text.now other.now }
{
    match other {
        Value::Str(second) => text.fold_cmp(second),
        Value::Num(_) | Value::Blank | Value::Err | Value::Na => Ordering::Greater,
    }
}

// Numbers by size, texts by their folded bytes, and any number before any text.
fn order(a: &Value, b: &Value) -> Ordering
    ensures { result ≡ order a.now b.now }
{
    match a {
        Value::Str(text) => order_with_text(text, b),
        Value::Num(number) => order_with_number(*number, b),
        Value::Blank | Value::Err | Value::Na => order_with_number(Fixed::ZERO, b),
    }
}

// The two texts, one behind the other, and ERR where they have no room in one.
fn texts_joined(alloc: Global, first: &[u8], second: &[u8]) -> Result<Value, Memory>
    requires first { length first.now ≤ MAX_LEN }
    requires second { length second.now ≤ MAX_LEN }
    ensures { IfOk result (λ v. v ≡ texted (first.now ++ second.now)) }
{
    if first.len() + second.len() > MAX_LEN {
        return Ok(Value::Err);
    }
    let mut line = Line::new();
    line.put_all(first);
    line.put_all(second);
    texted(alloc, line.bytes())
}

// A text joined with another value, which is the empty text where it is blank.
fn joined_with(alloc: Global, first: &[u8], other: &Value) -> Result<Value, Memory>
    requires { length first.now ≤ MAX_LEN }
    ensures { IfOk result (λ v. v ≡ joined_with first.now other.now) }
{
    match other {
        Value::Str(text) => texts_joined(alloc, first, text.bytes()),
        Value::Blank => texts_joined(alloc, first, b""),
        Value::Num(_) | Value::Err | Value::Na => Ok(Value::Err),
    }
}

// Two values joined as texts.
fn joined(alloc: Global, a: &Value, b: &Value) -> Result<Value, Memory>
    ensures { IfOk result (λ v. v ≡ joined a.now b.now) }
{
    match a {
        Value::Str(text) => joined_with(alloc, text.bytes(), b),
        Value::Blank => joined_with(alloc, b"", b),
        Value::Num(_) | Value::Err | Value::Na => Ok(Value::Err),
    }
}

// The two numbers of an operator that wants them.
fn both(a: &Value, b: &Value) -> Option<(Fixed, Fixed)>
    ensures { result ≡ both_numbers a.now b.now }
{
    match (number_in(a), number_in(b)) {
        (Some(x), Some(y)) => Some((x, y)),
        (Some(_), None) | (None, Some(_)) | (None, None) => None,
    }
}

// The number that an operator of numbers makes of two; none where that is ERR, and for any other operator.
fn arithmetic(op: Op, x: Fixed, y: Fixed) -> Option<Fixed>
    ensures { of_numbers op x y ≡ answer result }
{
    match op {
        Op::Pow => x.pow(y),
        Op::Mul => x.mul(y),
        Op::Div => x.div(y),
        Op::Add => x.add(y),
        Op::Sub => x.sub(y),
        Op::And => Some(one_if(!is_zero(x) && !is_zero(y))),
        Op::Or => Some(one_if(!is_zero(x) || !is_zero(y))),
        Op::Eq | Op::Ne | Op::Lt | Op::Gt | Op::Le | Op::Ge | Op::Join => None,
    }
}

/// The number that an operator makes of two numbers; none exactly where their value by `binary` is ERR. A sum or a
/// difference, of which there are most, takes no further call.
#[tactic(auto, unfolding(crate::specs::Operators::binary_value))]
pub fn binary_numbers(op: Op, x: Fixed, y: Fixed) -> Option<Fixed>
    ensures { binary_value op (value.Num x) (value.Num y) ≡ answer result }
{
    match op {
        Op::Eq => Some(one_if(order_of_numbers(x, y).is_eq())),
        Op::Ne => Some(one_if(order_of_numbers(x, y).is_ne())),
        Op::Lt => Some(one_if(order_of_numbers(x, y).is_lt())),
        Op::Gt => Some(one_if(order_of_numbers(x, y).is_gt())),
        Op::Le => Some(one_if(order_of_numbers(x, y).is_le())),
        Op::Ge => Some(one_if(order_of_numbers(x, y).is_ge())),
        Op::Add => x.add(y),
        Op::Sub => x.sub(y),
        Op::Pow | Op::Mul | Op::Div | Op::And | Op::Or | Op::Join => arithmetic(op, x, y),
    }
}

// An operator of numbers between any two values.
fn computed(op: Op, a: &Value, b: &Value) -> Value
    ensures { result ≡ computed op a.now b.now }
{
    match both(a, b) {
        Some((x, y)) => answer(arithmetic(op, x, y)),
        None => Value::Err,
    }
}

// An operator between two values of which none is ERR or NA.
fn combined(alloc: Global, op: Op, a: &Value, b: &Value) -> Result<Value, Memory>
    ensures { IfOk result (λ v. v ≡ combined op a.now b.now) }
{
    match op {
        Op::Pow | Op::Mul | Op::Div | Op::Add | Op::Sub | Op::And | Op::Or => Ok(computed(
            op, a, b,
        )),
        Op::Eq => Ok(truth(order(a, b).is_eq())),
        Op::Ne => Ok(truth(order(a, b).is_ne())),
        Op::Lt => Ok(truth(order(a, b).is_lt())),
        Op::Gt => Ok(truth(order(a, b).is_gt())),
        Op::Le => Ok(truth(order(a, b).is_le())),
        Op::Ge => Ok(truth(order(a, b).is_ge())),
        Op::Join => joined(alloc, a, b),
    }
}

/// An operator between two values.
#[tactic(auto, unfolding(crate::specs::Operators::binary_value))]
pub fn binary(alloc: Global, op: Op, a: &Value, b: &Value) -> Result<Value, Memory>
    ensures { IfOk result (λ v. v ≡ binary_value op a.now b.now) }
{
    match stop_two(a, b) {
        Some(stopped) => Ok(stopped),
        None => combined(alloc, op, a, b),
    }
}

/// A value divided by another.
#[tactic(auto, unfolding(crate::specs::Operators::binary_value))]
pub fn divided(a: &Value, b: &Value) -> Value
    ensures { result ≡ binary_value Op.Div a.now b.now }
{
    match stop_two(a, b) {
        Some(stopped) => stopped,
        None => computed(Op::Div, a, b),
    }
}

/// A minus in front of a value.
#[tactic(auto, unfolding(crate::specs::Operators::negated))]
pub fn negated(a: &Value) -> Value
    ensures { result ≡ negated a.now }
{
    if let Some(stopped) = stop_one(a) {
        return stopped;
    }
    match number_in(a) {
        Some(number) => Value::Num(number.neg()),
        None => Value::Err,
    }
}

/// #NOT# in front of a value.
#[tactic(auto, unfolding(crate::specs::Operators::denied))]
pub fn denied(a: &Value) -> Value
    ensures { result ≡ denied a.now }
{
    if let Some(stopped) = stop_one(a) {
        return stopped;
    }
    match number_in(a) {
        Some(number) => truth(is_zero(number)),
        None => Value::Err,
    }
}
