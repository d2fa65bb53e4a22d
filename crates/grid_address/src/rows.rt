// The rows of a range below its first.
ghost use Rattle.std.specs.Prelude.{◌≡◌, ◌≤◌, ◌<◌, ◌+◌, ◌-◌};
ghost use Rattle.grid_address.specs.Lines.{at, last_row, rows_down};

use crate::{Cell, LAST_ROW, Span};

/// How many rows a range has below its first.
pub fn count_below(span: Span) -> u16
    ensures count { result ≡ span.last.row - span.first.row }
    ensures most { result ≤ last_row }
{
    span.last.row - span.first.row
}

/// A row of a range below its first, counted from there, or the one behind its last.
pub fn row_below(span: Span, place: u16) -> u16
    requires { place ≤ span.last.row - span.first.row }
    ensures row { result ≡ span.first.row + 1 + place }
    ensures fits { result + (span.last.row - span.first.row - place) ≤ last_row + 1 }
{
    span.first.row + 1 + place
}

/// The first cell of a row of a range below its first, counted from there.
pub fn cell_below(span: Span, place: u16) -> Cell
    requires { place < span.last.row - span.first.row }
    ensures { result ≡ at (span.first.row + 1 + place) span.first.col }
{
    Cell {
        row: span.first.row + 1 + place,
        col: span.first.col,
    }
}

/// How many rows a row of a range stands below the range's second.
pub fn rows_behind(span: Span, row: u16) -> u16
    requires { span.first.row < row }
    ensures { result ≡ row - (span.first.row + 1) }
{
    row - (span.first.row + 1)
}

/// A cell so many rows further down, fewer than 8192; behind the last row comes the first.
pub fn rows_down(count: u16, cell: Cell) -> Cell
    requires { count ≤ last_row }
    ensures { result ≡ rows_down count cell }
{
    Cell {
        row: (cell.row + count) % (LAST_ROW + 1),
        col: cell.col,
    }
}
