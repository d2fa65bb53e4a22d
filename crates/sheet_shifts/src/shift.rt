// Edits that move cells, and where one cell, span or formula goes.
ghost use Rattle.std.specs.Prelude.{◌≡◌, IfOk};
ghost use Rattle.sheet_shifts.specs.Shifts.{formula_after, place_after, span_after, IsShift};

use formula_tree::Formula;
use grid_address::{Cell, Span};
use lics_text::Memory;
use ref_adjust::{Change, cell_moved, cell_shifted, moved, shifted, span_moved, span_shifted};

/// An edit that moves cells.
#[derive(Clone, Copy)]
pub enum Shift {
    /// Rows or columns are inserted or deleted.
    Lines(Change),
    /// A span is moved so that its first corner comes to a cell.
    Block(Span, Cell),
}

/// Where a cell goes; none where it is deleted, overwritten or pushed past the sheet.
pub fn place_after(shift: &Shift, cell: Cell) -> Option<Cell>
    requires { IsShift shift.now }
    ensures { result ≡ place_after shift.now cell }
{
    match shift {
        Shift::Lines(change) => cell_shifted(*change, cell),
        Shift::Block(from, to) => cell_moved(*from, *to, cell),
    }
}

/// Where a span goes, its corners in order; none where a corner is lost.
pub fn span_after(shift: &Shift, span: Span) -> Option<Span>
    requires { IsShift shift.now }
    ensures { result ≡ span_after shift.now span }
{
    match shift {
        Shift::Lines(change) => span_shifted(span, *change),
        Shift::Block(from, to) => span_moved(span, *from, *to),
    }
}

/// A formula whose cell has gone from the old to the new place.
pub fn formula_after(
    shift: &Shift,
    old_at: Cell,
    new_at: Cell,
    formula: &Formula,
) -> Result<Formula, Memory>
    requires { IsShift shift.now }
    ensures { IfOk result (λ f. f ≡ formula_after shift.now old_at new_at formula.now) }
{
    match shift {
        Shift::Lines(change) => shifted(formula, old_at, new_at, *change),
        Shift::Block(from, to) => moved(formula, old_at, new_at, *from, *to),
    }
}
