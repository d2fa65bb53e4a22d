// The columns of a range.
ghost use Rattle.std.specs.Prelude.{◌≡◌, ◌<◌, ◌+◌};
ghost use Rattle.grid_address.specs.Place.{width_of};
ghost use Rattle.grid_address.specs.Lines.{at};

use crate::{Cell, Span};

/// A column of a span, counted from its first.
pub fn column_at(span: Span, col: u16) -> u8
    requires { col < width_of span }
    ensures { result ≡ span.first.col + col }
{
    (u16::from(span.first.col) + col) as u8
}

/// A cell of a span's first row, its column counted from the first.
pub fn header(span: Span, col: u16) -> Cell
    requires { col < width_of span }
    ensures { result ≡ at span.first.row (span.first.col + col) }
{
    Cell {
        row: span.first.row,
        col: column_at(span, col),
    }
}
