ghost use Rattle.std.specs.Prelude.{◌≡◌, ◌≤◌, ◌+◌};
ghost use Rattle.grid_address.specs.Place.{height_of, is_within, spanned, whole, width_of};

use crate::{COLUMNS, Cell, LAST_COLUMN, LAST_ROW, ROWS};
use std::marker::Model;

/// A rectangle of cells by its corners, of which the first is at the top left.
#[derive(Clone, Copy, PartialEq, Eq)]
pub struct Span {
    pub first: Cell,
    pub last: Cell,
}

impl Model for Span {
    ghost use Rattle.std.specs.Prelude.{◌≤◌};
    ghost use Rattle.grid_address.specs.Place.{Extent};

    ghost Value = { Extent };

    ghost view = { λ s. record { first = s.first; last = s.last } };

    ghost invariant = { λ s. (s.first.col ≤ s.last.col) × (s.first.row ≤ s.last.row) };

    ghost inverse = { λ p. record { first = p.first; last = p.last } };
}

impl Span {
    /// Whether the cell lies in the span.
    pub fn contains(&self, cell: Cell) -> bool
        ensures { result ≡ is_within self.now cell }
    {
        self.first.row <= cell.row
            && cell.row <= self.last.row
            && self.first.col <= cell.col
            && cell.col <= self.last.col
    }

    /// How many columns it has, 1 to 256.
    pub fn width(self) -> u16
        ensures width { result ≡ width_of self }
        ensures some { 1 ≤ result }
        ensures fits { self.first.col + result ≤ COLUMNS }
    {
        u16::from(self.last.col) + 1 - u16::from(self.first.col)
    }

    /// How many rows it has, 1 to 8192.
    pub fn height(self) -> u16
        ensures height { result ≡ height_of self }
        ensures some { 1 ≤ result }
        ensures fits { self.first.row + result ≤ ROWS }
    {
        self.last.row + 1 - self.first.row
    }

    /// The span of two corners, put in order.
    pub fn of(a: Cell, b: Cell) -> Span
        ensures { result ≡ spanned a b }
    {
        let first = Cell {
            row: a.row.min(b.row),
            col: a.col.min(b.col),
        };
        let last = Cell {
            row: a.row.max(b.row),
            col: a.col.max(b.col),
        };
        Span { first, last }
    }

    /// The whole sheet, A1 to IV8192.
    pub fn whole() -> Span
        ensures { result ≡ whole }
    {
        Span {
            first: Cell { row: 0, col: 0 },
            last: Cell {
                row: LAST_ROW,
                col: LAST_COLUMN,
            },
        }
    }
}
