ghost use Rattle.std.specs.Prelude.{◌≡◌, ◌≤◌, ◌<◌};
ghost use Rattle.grid_address.specs.Axes.{axis_to, is_fixed, number_of, resolved};
ghost use Rattle.grid_address.specs.Leads.{reference_to, resolve};

use crate::{COLUMNS, Cell, ROWS};
use std::marker::Model;

/// A coordinate of a reference: an absolute number, or an offset that is added and wraps at the edge of
/// the sheet.
#[derive(Clone, Copy, PartialEq, Eq)]
pub enum Axis {
    Fixed(u16),
    Offset(u16),
}

/// A reference to a cell: its numbers are below 256 for the column and below 8192 for the row.
#[derive(Clone, Copy, PartialEq, Eq)]
pub struct Ref {
    pub col: Axis,
    pub row: Axis,
}

impl Model for Ref {
    ghost use Rattle.std.specs.Prelude.{◌<◌};
    ghost use Rattle.grid_address.specs.Axes.{number_of, Reference};
    ghost use Rattle.grid_address.specs.Limits.{COLUMNS, ROWS};

    ghost Value = { Reference };

    ghost view = { λ r. record { col = r.col; row = r.row } };

    ghost invariant = { λ r. (number_of r.col < COLUMNS) × (number_of r.row < ROWS) };

    ghost inverse = { λ p. record { col = p.col; row = p.row } };
}

impl Ref {
    /// The cell that the reference names where it stands in the cell `at`: offsets are added modulo 256
    /// columns and 8192 rows (the wrap is this project's choice).
    pub fn resolve(self, at: Cell) -> Cell
        ensures { result ≡ resolve self at }
    {
        let col = along(self.col, at.col as u16, COLUMNS);
        let row = along(self.row, at.row, ROWS);
        Cell {
            row,
            col: col as u8,
        }
    }

    /// The reference that stands in the cell `at` and names the cell `target`, with the column or the row
    /// absolute where it is asked for.
    pub fn of(target: Cell, at: Cell, fixed_col: bool, fixed_row: bool) -> Ref
        ensures is { result ≡ reference_to target at fixed_col fixed_row }
        ensures leads { resolve result at ≡ target }
        ensures fixed_col { is_fixed result.col ≡ fixed_col }
        ensures fixed_row { is_fixed result.row ≡ fixed_row }
    {
        Ref {
            col: back(fixed_col, target.col as u16, at.col as u16, COLUMNS),
            row: back(fixed_row, target.row, at.row, ROWS),
        }
    }
}

// The number that a coordinate names, from where it stands.
fn along(axis: Axis, at: u16, count: u16) -> u16
    requires below { at < count }
    requires count_in { count ≤ ROWS }
    requires size { number_of axis < count }
    ensures value { result ≡ resolved axis at count }
    ensures in_range { result < count }
{
    match axis {
        Axis::Fixed(number) => number,
        Axis::Offset(offset) => (at + offset) % count,
    }
}

// The coordinate that names a number, from where it stands.
fn back(fixed: bool, target: u16, at: u16, count: u16) -> Axis
    requires below { at < count }
    requires target_below { target < count }
    requires count_in { count ≤ ROWS }
    ensures is { result ≡ axis_to fixed target at count }
    ensures value { resolved result at count ≡ target }
    ensures fixed { is_fixed result ≡ fixed }
    ensures in_range { number_of result < count }
{
    if fixed {
        Axis::Fixed(target)
    } else if target >= at {
        Axis::Offset(target - at)
    } else {
        Axis::Offset(target + count - at)
    }
}
