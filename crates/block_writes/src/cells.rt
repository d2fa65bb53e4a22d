// The cells of a block, in their order.
ghost use Rattle.std.specs.Prelude.{◌≡◌, ◌≤◌, ◌<◌, ◌+◌, ◌++◌, IfOk, OnOk};
ghost use Rattle.std.specs.List.{flat_map};
ghost use Rattle.grid_address.specs.Place.{width_of};
ghost use Rattle.block_writes.specs.Writing.{by_columns, down, numbers_from, rows_of};

use grid_address::{Cell, CellList, LAST_ROW, Span, column_at};
use lics_text::Memory;
use std::alloc::Global;

/// Adds so many cells of a column, from a row on.
pub fn push_down(cells: &mut CellList, col: u8, first: u16, count: u16) -> Result<(), Memory>
    requires { first + count ≤ LAST_ROW + 1 }
    ensures { OnOk result (cells.new ≡ cells.old ++ down col (numbers_from first count)) }
{
    for row in 0..count {
        cells.push(Cell {
            row: first + row,
            col,
        })?;
    }
    Ok(())
}

// Adds the cells of a column of a span, counted from its first.
fn push_column(cells: &mut CellList, span: Span, col: u16) -> Result<(), Memory>
    requires { col < width_of span }
    ensures { OnOk result (cells.new ≡ cells.old ++ down (span.first.col + col) (rows_of span)) }
{
    let height = span.height();
    push_down(cells, column_at(span, col), span.first.row, height)
}

/// The cells of a span, column by column.
pub fn by_columns(alloc: Global, span: Span) -> Result<CellList, Memory>
    ensures { IfOk result (λ l. l ≡ by_columns span) }
{
    let mut cells = CellList::new(alloc);
    let width = span.width();
    for col in 0..width {
        push_column(&mut cells, span, col)?;
    }
    Ok(cells)
}
