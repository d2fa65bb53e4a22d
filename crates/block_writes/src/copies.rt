// Writes of contents, and copies of cells.
ghost use Rattle.std.specs.Prelude.{◌≡◌, ◌≤◌, ◌<◌, ◌+◌, ◌++◌, ◌∷◌, [], length, map, IfOk, OnOk};
ghost use Rattle.grid_address.specs.Place.{height_of, width_of, Place};
ghost use Rattle.formula_parts.specs.Outlook.{Sight};
ghost use Rattle.block_writes.specs.Writing.{at, columns_of, content_or_blank, copied, row_copied, rows_copied, rows_of, written};

use formula_parts::Look;
use formula_tree::Content;
use grid_address::{Cell, Span, column_at};
use lics_text::Memory;
use sheet_store::{Write, Writes};
use std::alloc::Global;

/// A content for a cell that keeps its format.
pub fn written(cell: Cell, content: Content) -> Write
    ensures { result ≡ written cell content }
{
    Write {
        cell,
        content,
        format: None,
    }
}

// A copy of what a cell holds; nothing where it holds nothing.
fn content_or_blank<K: Look>(look: &K, cell: Cell) -> Result<Content, Memory>
    ensures { IfOk result (λ c. c ≡ content_or_blank ((K.sight look.now).contents cell)) }
{
    match look.content(cell) {
        Some(content) => content.copy(),
        None => Ok(Content::Blank),
    }
}

/// The content and the format of one cell, for another.
pub fn copied<K: Look>(look: &K, from: Cell, to: Cell) -> Result<Write, Memory>
    ensures { IfOk result (λ w. w ≡ copied (K.sight look.now) from to) }
{
    let content = content_or_blank(look, from)?;
    Ok(Write {
        cell: to,
        content,
        format: Some(look.format(from)),
    })
}

// Adds a cell of a row as a copy for another row, its column counted from the first of the span.
fn push_cell<K: Look>(
    writes: &mut Writes,
    look: &K,
    span: Span,
    col: u16,
    from: Cell,
    to: Cell,
) -> Result<(), Memory>
    requires { col < width_of span }
    ensures { let there = span.first.col + col in
        OnOk result (writes.new ≡ writes.old ++ copied (K.sight look.now) (at from.row there) (at to.row there) ∷ []) }
{
    let col = column_at(span, col);
    let write = copied(look, Cell { row: from.row, col }, Cell { row: to.row, col })?;
    writes.push(write)
}

// Adds a row of a span's columns as a copy for another row.
fn push_row<K: Look>(
    writes: &mut Writes,
    look: &K,
    span: Span,
    from: Cell,
    to: Cell,
) -> Result<(), Memory>
    ensures { OnOk result
        (writes.new ≡ writes.old ++ row_copied (K.sight look.now) (columns_of span) from.row to.row) }
{
    let width = span.width();
    for col in 0..width {
        push_cell(writes, look, span, col, from, to)?;
    }
    Ok(())
}

// The first cell of a span that is so many rows further down.
fn below(span: Span, row: u16) -> Cell
    requires { row < height_of span }
    ensures { result ≡ at (span.first.row + row) span.first.col }
{
    Cell {
        row: span.first.row + row,
        col: span.first.col,
    }
}

/// Copies of some rows of a span's columns, given by a cell of each, for the rows of the span in order.
pub fn rows_copied<K: Look>(
    alloc: Global,
    look: &K,
    span: Span,
    cells: &[Cell],
) -> Result<Writes, Memory>
    requires { length cells.now ≤ height_of span }
    ensures { let rows = map (λ (p : Place). p.row) cells.now in
        IfOk result (λ w. w ≡ rows_copied (K.sight look.now) (columns_of span) rows (rows_of span)) }
{
    let mut writes = Writes::new(alloc);
    for place in 0..cells.len() {
        push_row(
            &mut writes,
            look,
            span,
            cells[place],
            below(span, place as u16),
        )?;
    }
    Ok(writes)
}
