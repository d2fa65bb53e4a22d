// Numbers at equal steps, column by column.
ghost use Rattle.std.specs.Prelude.{◌≡◌, ◌⊎◌, IfOk, IfErr, Ok, Err, Some, None, length, pos, nat_abs, ◌==◌};
ghost use Rattle.std.specs.Int.RustNames.{int_lt};
ghost use Rattle.fixed_value.specs.Numbers.{within};
ghost use Rattle.data_blocks.specs.Filling.{fill, filled_with, is_past, numbered, numbers_of};
ghost use Rattle.data_blocks.specs.inner.Steps.{reached};

use crate::BlockFault;
use block_writes::{by_columns, written};
use fixed_value::Fixed;
use formula_tree::Content;
use grid_address::{Cell, Span};
use lics_text::Memory;
use sheet_store::Writes;
use std::alloc::Global;

/// Whether a number is below another.
pub fn is_less(a: Fixed, b: Fixed) -> bool
    ensures { result ≡ int_lt a b }
{
    a.millionths() < b.millionths()
}

// Whether a number is zero.
fn is_zero(number: Fixed) -> bool
    ensures { result ≡ (nat_abs number == 0) }
{
    number.millionths() == 0
}

// Whether a number is past the stop in the direction of the step.
fn is_past(step: Fixed, stop: Fixed, number: Fixed) -> bool
    ensures { result ≡ is_past step stop number }
{
    if is_less(step, Fixed::ZERO) {
        is_less(number, stop)
    } else {
        is_less(stop, number)
    }
}

// A number, where there is one that isn't past the stop.
fn reached(step: Fixed, stop: Fixed, number: Option<Fixed>) -> Option<Fixed>
    ensures { result ≡ reached step stop number }
{
    match number {
        Some(number) => {
            if is_past(step, stop, number) {
                None
            } else {
                Some(number)
            }
        }
        None => None,
    }
}

// The first number, unless it is past the stop.
fn first(step: Fixed, stop: Fixed, start: Fixed) -> Option<Fixed>
    ensures { result ≡ reached step stop (within start) }
{
    reached(step, stop, Fixed::of(start.millionths()))
}

// The numbers from one on, each for the next cell.
fn numbered(
    alloc: Global,
    cells: &[Cell],
    start: Fixed,
    step: Fixed,
    stop: Fixed,
) -> Result<Writes, Memory>
    ensures { IfOk result (λ w. w ≡ numbered cells.now (numbers_of start step stop (length cells.now))) }
{
    let mut writes = Writes::new(alloc);
    let mut next = first(step, stop, start);
    for cell in cells {
        let Some(number) = next else {
            break;
        };
        writes.push(written(*cell, Content::Number(number)))?;
        next = reached(step, stop, number.add(step));
    }
    Ok(writes)
}

// The numbers of a fill whose step isn't 0.
fn filled_with(
    alloc: Global,
    span: Span,
    start: Fixed,
    step: Fixed,
    stop: Fixed,
) -> Result<Writes, Memory>
    ensures { IfOk result (λ w. w ≡ filled_with span start step stop) }
{
    let cells = by_columns(alloc, span)?;
    numbered(alloc, cells.as_slice(), start, step, stop)
}

/// Numbers from `start` by `step`, column by column, before the first that is past `stop` in the step's direction or
/// beyond the size of a number. `ZeroStep` comes exactly where the step is 0. (Release 2 manual.)
pub fn fill(
    alloc: Global,
    span: Span,
    start: Fixed,
    step: Fixed,
    stop: Fixed,
) -> Result<Writes, BlockFault>
    ensures found { IfOk result (λ w. fill span start step stop ≡ Ok w) }
    ensures fault { IfErr result (λ f. (f ≡ BlockFault.Memory) ⊎ (fill span start step stop ≡ Err f)) }
{
    if is_zero(step) {
        return Err(BlockFault::ZeroStep);
    }
    match filled_with(alloc, span, start, step, stop) {
        Ok(writes) => Ok(writes),
        Err(Memory) => Err(BlockFault::Memory),
    }
}
