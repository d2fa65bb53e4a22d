// Loops, and what a return goes back to.
ghost use Rattle.std.specs.Prelude.{◌≡◌, Some, IfOk, not};
ghost use Rattle.macro_words.specs.Sources.{outlook_from};
ghost use Rattle.formula_tree.specs.declared.value.Value.TheVariants as value;
ghost use Rattle.macro_words.specs.Moves as moving;
ghost use Rattle.macro_words.specs.Rows as spec;
ghost use Rattle.macro_words.specs.declared.frames.Frame.TheVariants as frame;

use crate::going::start_of;
use crate::rows::{bad, has_room, moves};
use crate::values::{puts_one, puts_value};
use crate::{Frame, Loop, Move, Row, Running, Source};
use fixed_value::Fixed;
use formula_parts::Look;
use formula_tree::{Content, Op, Value};
use lics_text::Memory;
use macro_text::{MacroFault, Spot, TextList, number_of, place_of};
use std::alloc::Global;
use value_functions::binary;

// Whether a number is past a bound, by the sign of the step.
fn is_past(number: Fixed, bound: Fixed, step: Fixed) -> bool
    ensures { result ≡ spec.is_past number bound step }
{
    if 0 < step.millionths() {
        bound.millionths() < number.millionths()
    } else {
        number.millionths() < bound.millionths()
    }
}

// Where a loop goes on, by its count.
fn round(repeated: &Loop, value: &Value) -> Move
    ensures { result ≡ spec.round repeated.now value.now }
{
    match value {
        Value::Num(number) => {
            if is_past(*number, repeated.bound, repeated.step) {
                Move::Leave(repeated.behind)
            } else {
                Move::Go(start_of(repeated.routine))
            }
        }
        Value::Blank => Move::Leave(repeated.behind),
        Value::Str(_) => Move::Leave(repeated.behind),
        Value::Err => Move::Leave(repeated.behind),
        Value::Na => Move::Leave(repeated.behind),
    }
}

// The count and the step.
fn next_count<K: Look>(from: &Source<'_, K>, repeated: &Loop) -> Result<Value, Memory>
    ensures { IfOk result (λ v. v ≡ spec.next_count (outlook_from K.Look from.now) repeated.now) }
{
    let count = from.look.value(repeated.counter).copy()?;
    binary(from.alloc, Op::Add, &count, &Value::Num(repeated.step))
}

// A loop's next round, or its end.
fn loop_row<K: Look>(from: &Source<'_, K>, repeated: &Loop) -> Result<Row, Memory>
    ensures { IfOk result (λ r. r ≡ spec.returned (outlook_from K.Look from.now) (Some (frame.Loop repeated.now))) }
{
    let count = next_count(from, repeated)?;
    let after = round(repeated, &count);
    puts_value(from.alloc, repeated.counter, &count, after)
}

/// RETURN, and the end of a routine: back to the caller, or on with the loop, whose step is added to its count; in the
/// first routine the macro stops.
pub fn return_row<K: Look>(from: &Source<'_, K>, running: &Running) -> Result<Row, Memory>
    ensures { IfOk result (λ r. r ≡ spec.return_row (outlook_from K.Look from.now) running.now) }
{
    match running.frames.innermost() {
        None => Ok(moves(Move::Stop)),
        Some(Frame::Call(_, back)) => Ok(moves(Move::Leave(back))),
        Some(Frame::Loop(repeated)) => loop_row(from, &repeated),
    }
}

/// FORBREAK.
pub fn break_row(running: &Running) -> Row
    ensures { result ≡ spec.broken (moving.innermost running.now.frames) }
{
    match running.frames.innermost() {
        None => bad(),
        Some(Frame::Call(_, _)) => bad(),
        Some(Frame::Loop(repeated)) => moves(Move::Leave(repeated.behind)),
    }
}

// A loop begins, or ends before its first round.
fn begins(alloc: Global, running: &Running, first: Fixed, begun: Loop) -> Result<Row, Memory>
    ensures { IfOk result (λ r. r ≡ spec.begins running.now first begun) }
{
    let counter = begun.counter;
    if is_past(first, begun.bound, begun.step) {
        return puts_one(alloc, counter, Content::Number(first), Move::Stay);
    }
    if !has_room(running) {
        return Ok(Err(MacroFault::TooDeep));
    }
    puts_one(alloc, counter, Content::Number(first), Move::Begin(begun))
}

// Whether a number is 0.
fn is_zero(number: Fixed) -> bool
    ensures { result ≡ not (spec.is_true (value.Num number)) }
{
    number.millionths() == 0
}

/// FOR.
pub fn for_row<K: Look>(
    from: &Source<'_, K>,
    running: &Running,
    at: &Spot,
    args: &TextList,
) -> Result<Row, Memory>
    ensures { IfOk result (λ r. r ≡ spec.for_row (outlook_from K.Look from.now) running.now at.now args.now) }
{
    let Some(counter) = place_of(from.look.names(), args.get(0)) else {
        return Ok(bad());
    };
    let Some(first) = number_of(from.alloc, args.get(1), at.cell, from.look, from.scene)? else {
        return Ok(bad());
    };
    let Some(bound) = number_of(from.alloc, args.get(2), at.cell, from.look, from.scene)? else {
        return Ok(bad());
    };
    let Some(step) = number_of(from.alloc, args.get(3), at.cell, from.look, from.scene)? else {
        return Ok(bad());
    };
    let Some(routine) = place_of(from.look.names(), args.get(4)) else {
        return Ok(bad());
    };
    if is_zero(step) {
        return Ok(bad());
    }
    let begun = Loop {
        behind: running.position.spot,
        counter,
        routine,
        bound,
        step,
    };
    begins(from.alloc, running, first, begun)
}
