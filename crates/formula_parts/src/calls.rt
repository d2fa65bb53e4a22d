// Functions by the number of their arguments.
ghost use Rattle.std.specs.Prelude.{◌≡◌, IfOk};
ghost use Rattle.at_functions.specs.Numbers.{count_of};
ghost use Rattle.formula_parts.specs.Calls.{behind_first, called, choice, one_value, place_for, three_value, two_value};
ghost use Rattle.formula_parts.specs.Lookups.{extent_value, on_range, range_of};
ghost use Rattle.formula_parts.specs.Standpoints.{outlook_from};

use crate::argument::Argument;
use crate::attributes::{cell_value, told_value};
use crate::look::Look;
use crate::lookups::{extent_value, index_value, lookup_value, pointed_value, range_of};
use crate::standpoint::Standpoint;
use at_functions::whole;
use fixed_value::Fixed;
use formula_tree::{Function, Value};
use lics_text::Memory;
use value_functions::{
    changed, char_value, constant_value, cut_value, exact_value, find_value, is_zero, mid_value,
    number_in, of_number, of_numbers, of_parts, of_text, replace_value, stop_one, string_value,
    test_value,
};

// How many columns or rows an argument has, and ERR where it is no range.
fn extent_of(function: Function, argument: &Argument) -> Value
    ensures { result ≡ on_range (range_of argument.now.operand) (extent_value function) }
{
    match range_of(argument.operand) {
        Some(span) => extent_value(function, span),
        None => Value::Err,
    }
}

// A function of one argument.
fn one_value<K: Look>(
    from: &Standpoint<'_, K>,
    function: Function,
    a: &Argument,
) -> Result<Value, Memory>
    ensures { IfOk result (λ v. v ≡ one_value function (outlook_from K.Look from.now) a.now) }
{
    match function {
        Function::Abs
        | Function::Int
        | Function::Day
        | Function::Month
        | Function::Year
        | Function::Hour
        | Function::Minute
        | Function::Second => Ok(of_number(function, &a.value)),
        Function::Length
        | Function::Value
        | Function::Code
        | Function::DateValue
        | Function::TimeValue => Ok(of_text(function, &a.value)),
        Function::Upper | Function::Lower | Function::Proper | Function::Trim | Function::Clean =>
            changed(function, &a.value),
        Function::Char => char_value(from.alloc, &a.value),
        Function::CellPointer => told_value(from.alloc, from.scene.cursor, &a.value, from.look),
        Function::Pointed => pointed_value(&a.value, from.look),
        Function::Cols | Function::Rows => Ok(extent_of(function, a)),
        _ => Ok(test_value(function, &a.value)),
    }
}

// A function of two arguments.
fn two_value<K: Look>(
    from: &Standpoint<'_, K>,
    function: Function,
    a: &Argument,
    b: &Argument,
) -> Result<Value, Memory>
    ensures { IfOk result (λ v. v ≡ two_value function (outlook_from K.Look from.now) a.now b.now) }
{
    match function {
        Function::Repeat | Function::Left | Function::Right => {
            cut_value(function, &a.value, &b.value)
        }
        Function::String => string_value(from.alloc, &a.value, &b.value),
        Function::Exact => Ok(exact_value(&a.value, &b.value)),
        Function::Cell => cell_value(from.alloc, &a.value, b.operand, from.look),
        _ => Ok(of_numbers(function, &a.value, &b.value)),
    }
}

// A function of three arguments.
fn three_value<K: Look>(
    from: &Standpoint<'_, K>,
    function: Function,
    a: &Argument,
    b: &Argument,
    c: &Argument,
) -> Result<Value, Memory>
    ensures { IfOk result (λ v. v ≡ three_value function (outlook_from K.Look from.now) a.now b.now c.now) }
{
    match function {
        Function::Mid => mid_value(&a.value, &b.value, &c.value),
        Function::Find => Ok(find_value(&a.value, &b.value, &c.value)),
        Function::VLookup => lookup_value(false, &a.value, b.operand, &c.value, from.look),
        Function::HLookup => lookup_value(true, &a.value, b.operand, &c.value, from.look),
        Function::Index => index_value(a.operand, &b.value, &c.value, from.look),
        _ => Ok(of_parts(function, &a.value, &b.value, &c.value)),
    }
}

/// A function of arguments that are all wanted, but for the functions of lists.
pub fn called<K: Look>(
    from: &Standpoint<'_, K>,
    function: Function,
    arguments: &[Argument],
) -> Result<Value, Memory>
    ensures { IfOk result (λ v. v ≡ called function (outlook_from K.Look from.now) arguments.now) }
{
    match arguments {
        [] => Ok(constant_value(function, from.scene.now)),
        [a] => one_value(from, function, a),
        [a, b] => two_value(from, function, a, b),
        [a, b, c] => three_value(from, function, a, b, c),
        [a, b, c, d] => replace_value(&a.value, &b.value, &c.value, &d.value),
        _ => Ok(Value::Err),
    }
}

// The place behind the first argument that CHOOSE takes.
fn behind_first(count: usize, x: Fixed) -> Option<usize>
    ensures { result ≡ behind_first count (count_of x) }
{
    let number = whole(x);
    if number < 0 {
        return None;
    }
    let place = number as usize + 1;
    if place < count { Some(place) } else { None }
}

// The place of the argument that IF or CHOOSE takes by the number of its first.
fn place_for(function: Function, count: usize, x: Fixed) -> Option<usize>
    ensures { result ≡ place_for function count x }
{
    match function {
        Function::If => { if is_zero(x) { Some(2) } else { Some(1) } }
        _ => behind_first(count, x),
    }
}

/// The place of the argument that CHOOSE or IF takes by its first, where it has so many, or the value.
pub fn choice(function: Function, count: usize, first: &Value) -> Result<usize, Value>
    ensures { result ≡ choice function count first.now }
{
    if let Some(stopped) = stop_one(first) {
        return Err(stopped);
    }
    let Some(x) = number_in(first) else {
        return Err(Value::Err);
    };
    match place_for(function, count, x) {
        Some(place) => Ok(place),
        None => Err(Value::Err),
    }
}
