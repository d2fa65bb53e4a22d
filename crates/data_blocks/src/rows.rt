// The rows of a span.
ghost use Rattle.std.specs.Prelude.{◌≡◌, ◌<◌, ◌+◌};
ghost use Rattle.grid_address.specs.Place.{height_of};
ghost use Rattle.block_writes.specs.Writing.{at};

use grid_address::{Cell, Span};

/// The first cell of a row of a span, the row counted from the first.
pub fn row_cell(span: Span, row: u16) -> Cell
    requires { row < height_of span }
    ensures { result ≡ at (span.first.row + row) span.first.col }
{
    Cell {
        row: span.first.row + row,
        col: span.first.col,
    }
}
