// Functions of numbers and texts, one row each.
ghost use Rattle.std.specs.Prelude.{◌≡◌, ℕ, ◌+◌, ◌*◌, pos, IfOk, Some, length, map};
ghost use Rattle.value_functions.specs.Scalars.{changed_row, constant_value, cut_row, now_value, number_row, numbers_row, parts_row, text_row};

use crate::values::answer;
use at_functions::{
    code, date, datevalue, day, hour, left, length, minute, month, repeat, right, round, second,
    time, timevalue, year,
};
use fixed_value::Fixed;
use formula_tree::{Function, Value};
use lics_text::{Memory, Text};
use serial_date::{Moment, fraction_of};

// The day number with the part of the day.
fn now_value(now: Moment) -> Value
    ensures { result ≡ now_value now.day now.second }
{
    match now.day {
        Some(day) => answer(Fixed::of(
            i64::from(day) * 1_000_000 + i64::from(fraction_of(now.second)),
        )),
        None => Value::Err,
    }
}

/// NA, ERR, FALSE, TRUE and NOW.
pub fn constant_value(function: Function, now: Moment) -> Value
    ensures { result ≡ constant_value function now.day now.second }
{
    match function {
        Function::Na => Value::Na,
        Function::False => Value::Num(Fixed::ZERO),
        Function::True => Value::Num(Fixed::ONE),
        Function::Now => now_value(now),
        _ => Value::Err,
    }
}

/// ABS, INT, DAY, MONTH, YEAR, HOUR, MINUTE and SECOND.
pub fn number_row(function: Function, x: Fixed) -> Option<Fixed>
    ensures { result ≡ number_row function x }
{
    match function {
        Function::Abs => Some(x.abs()),
        Function::Int => Some(x.int()),
        Function::Day => day(x),
        Function::Month => month(x),
        Function::Year => year(x),
        Function::Hour => hour(x),
        Function::Minute => minute(x),
        Function::Second => second(x),
        _ => None,
    }
}

/// LENGTH, VALUE, CODE, DATEVALUE and TIMEVALUE.
pub fn text_row(function: Function, text: &Text) -> Option<Fixed>
    ensures { result ≡ text_row function text.now }
{
    match function {
        Function::Length => length(text),
        Function::Value => at_functions::value(text),
        Function::Code => code(text),
        Function::DateValue => datevalue(text),
        Function::TimeValue => timevalue(text),
        _ => None,
    }
}

/// UPPER, LOWER, PROPER, TRIM and CLEAN.
pub fn changed_row(function: Function, text: &Text) -> Result<Option<Text>, Memory>
    ensures { IfOk result (λ t. t ≡ changed_row function text.now) }
{
    match function {
        Function::Upper => Ok(Some(text.upper()?)),
        Function::Lower => Ok(Some(text.lower()?)),
        Function::Proper => Ok(Some(text.proper()?)),
        Function::Trim => Ok(Some(text.trim()?)),
        Function::Clean => Ok(Some(text.copy()?)),
        _ => Ok(None),
    }
}

/// MOD and ROUND.
pub fn numbers_row(function: Function, x: Fixed, y: Fixed) -> Option<Fixed>
    ensures { result ≡ numbers_row function x y }
{
    match function {
        Function::Mod => x.modulo(y),
        Function::Round => round(x, y),
        _ => None,
    }
}

/// DATE and TIME.
pub fn parts_row(function: Function, x: Fixed, y: Fixed, z: Fixed) -> Option<Fixed>
    ensures { result ≡ parts_row function x y z }
{
    match function {
        Function::Date => date(x, y, z),
        Function::Time => time(x, y, z),
        _ => None,
    }
}

/// REPEAT, LEFT and RIGHT.
pub fn cut_row(function: Function, text: &Text, count: Fixed) -> Result<Option<Text>, Memory>
    ensures { IfOk result (λ t. t ≡ cut_row function text.now count) }
{
    match function {
        Function::Repeat => repeat(text, count),
        Function::Left => left(text, count),
        Function::Right => right(text, count),
        _ => Ok(None),
    }
}
