// The cells of a table, and their values before an input is tried.
ghost use Rattle.std.specs.Prelude.{◌≡◌, ◌<◌, ◌+◌, ◌-◌, ◌++◌, ◌∷◌, [], IfOk, OnOk, map};
ghost use Rattle.block_writes.specs.Writing.{as_content, at, rows_below};
ghost use Rattle.data_blocks.specs.Benches.{values_on};
ghost use Rattle.data_blocks.specs.Tables.{answer_written, columns_behind, is_no_table, Answer};

use crate::Bench;
use block_writes::{column_at, content_of, written};
use formula_tree::{Content, Value};
use grid_address::{Cell, Span};
use lics_text::Memory;
use sheet_store::Writes;
use std::alloc::Global;

/// Whether a span has one row or one column.
pub fn is_no_table(span: Span) -> bool
    ensures { result ≡ is_no_table span }
{
    span.first.row == span.last.row || span.first.col == span.last.col
}

/// How many rows a span has below its first.
pub fn rows_below(span: Span) -> u16
    ensures { result ≡ span.last.row - span.first.row }
{
    span.last.row - span.first.row
}

/// How many columns a span has behind its first.
pub fn columns_behind(span: Span) -> u16
    ensures { result ≡ span.last.col - span.first.col }
{
    u16::from(span.last.col - span.first.col)
}

/// A cell of the first column, its row counted from the second.
pub fn cell_down(span: Span, place: u16) -> Cell
    requires { place < span.last.row - span.first.row }
    ensures { result ≡ at (span.first.row + 1 + place) span.first.col }
{
    Cell {
        row: span.first.row + 1 + place,
        col: span.first.col,
    }
}

/// A cell of the first row, its column counted from the second.
pub fn cell_across(span: Span, place: u16) -> Cell
    requires { place < span.last.col - span.first.col }
    ensures { result ≡ at span.first.row (span.first.col + 1 + place) }
{
    Cell {
        row: span.first.row,
        col: column_at(span, place + 1),
    }
}

// A cell's value, as a copy; blank where the sheet holds nothing of the cell.
fn value_at<B: Bench>(bench: &B, cell: Cell) -> Result<Value, Memory>
    ensures { IfOk result (λ v. v ≡ values_on (B.shows bench.now) cell) }
{
    match bench.answer(cell) {
        Some(value) => value.copy(),
        None => Ok(Value::Blank),
    }
}

/// The values of the first column below its first cell.
pub fn values_down<B: Bench>(alloc: Global, span: Span, bench: &B) -> Result<Vec<Value>, Memory>
    ensures { let values = values_on (B.shows bench.now) in
        IfOk result (λ v. v.items ≡ map (λ row. values (at row span.first.col)) (rows_below span)) }
{
    let mut values = Vec::new(alloc);
    let count = rows_below(span);
    for place in 0..count {
        values.push(value_at(bench, cell_down(span, place))?)?;
    }
    Ok(values)
}

/// The values of the first row behind its first cell.
pub fn values_across<B: Bench>(alloc: Global, span: Span, bench: &B) -> Result<Vec<Value>, Memory>
    ensures { let values = values_on (B.shows bench.now) in
        IfOk result (λ v. v.items ≡ map (λ col. values (at span.first.row col)) (columns_behind span)) }
{
    let mut values = Vec::new(alloc);
    let count = columns_behind(span);
    for place in 0..count {
        values.push(value_at(bench, cell_across(span, place))?)?;
    }
    Ok(values)
}

// The answer of a cell as a content; blank where the sheet holds nothing of the cell.
fn answer_content<B: Bench>(alloc: Global, bench: &B, cell: Cell) -> Result<Content, Memory>
    ensures { IfOk result (λ c. c ≡ as_content (values_on (B.shows bench.now) cell)) }
{
    match bench.answer(cell) {
        Some(value) => content_of(alloc, &value),
        None => Ok(Content::Blank),
    }
}

/// Adds the answer of one cell, written into another.
pub fn push_answer<B: Bench>(
    alloc: Global,
    from: Cell,
    to: Cell,
    bench: &B,
    writes: &mut Writes,
) -> Result<(), Memory>
    ensures { let answer : Answer = record { from = from; to = to } in
        OnOk result (writes.new ≡ writes.old ++ answer_written (values_on (B.shows bench.now)) answer ∷ []) }
{
    let content = answer_content(alloc, bench, from)?;
    writes.push(written(to, content))?;
    Ok(())
}
