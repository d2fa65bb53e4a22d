// Why an edit that moves cells isn't made.
ghost use Rattle.std.specs.Prelude.{◌≡◌, IfNone};
ghost use Rattle.ref_adjust.specs.Lines.{IsChange};
ghost use Rattle.sheet_shifts.specs.Refusals.{first_cell, fits_at, out_of_sheet, protected_in, pushed_in, refusal, AreInSheet};
ghost use Rattle.sheet_shifts.specs.Shifts.{IsShift};

use crate::Shift;
use crate::protection::{earlier, first_marked};
use crate::pushing::pushed_by;
use grid_address::{COLUMNS, Cell, ROWS, Span};
use ref_adjust::{Change, target};
use sheet_store::{Settings, SheetFault, Store};

// Whether the target of a move lies in the sheet.
fn fits_at(from: Span, to: Cell) -> bool
    ensures { result ≡ fits_at from to }
{
    let last_row = from.last.row - from.first.row + to.row;
    let last_col = u16::from(from.last.col) - u16::from(from.first.col) + u16::from(to.col);
    last_row < ROWS && last_col < COLUMNS
}

// The first cell of the first line.
fn first_cell(change: Change) -> Cell
    requires { IsChange change }
    ensures { result ≡ first_cell change }
{
    match change {
        Change::InsertRows(first, _) | Change::DeleteRows(first, _) => Cell { row: first, col: 0 },
        Change::InsertColumns(first, _) | Change::DeleteColumns(first, _) => Cell {
            row: 0,
            col: first as u8,
        },
    }
}

// The fault of a move whose target leaves the sheet.
fn out_of_sheet(shift: &Shift) -> Option<SheetFault>
    requires { AreInSheet shift.now }
    ensures fault { result ≡ out_of_sheet shift.now }
    ensures fits { IfNone result (IsShift shift.now) }
{
    match shift {
        Shift::Lines(_) => None,
        Shift::Block(from, to) => {
            if fits_at(*from, *to) {
                None
            } else {
                Some(SheetFault::OutOfSheet(*from))
            }
        }
    }
}

// The cell that is named where protection is on.
fn protected_in(store: &Store, shift: &Shift) -> Option<Cell>
    requires { IsShift shift.now }
    ensures { result ≡ protected_in shift.now store.now.cells }
{
    match shift {
        Shift::Lines(change) => Some(first_cell(*change)),
        Shift::Block(from, to) => {
            let source = first_marked(store, *from);
            earlier(source, first_marked(store, target(*from, *to)))
        }
    }
}

// The first filled cell that would be pushed out of the sheet.
fn pushed_in(store: &Store, shift: &Shift) -> Option<Cell>
    requires { IsShift shift.now }
    ensures { result ≡ pushed_in shift.now store.now.cells }
{
    match shift {
        Shift::Lines(change) => pushed_by(store, *change),
        Shift::Block(_, _) => None,
    }
}

/// Why an edit that moves cells is refused, if it is, and none exactly where it can be made. `OutOfSheet` comes first,
/// then `Protected`, then `PushedOff`. They carry the span that is moved, where its target leaves the sheet; where
/// protection is on, the first protected cell in row order of this span and its target, and for lines the first cell of
/// the first one; and the first filled cell in row order that an insert would push out of the sheet (this project's
/// choice for the order and the cells). Lines that are inserted or deleted are at least one, and none past the last. It
/// needs no memory: where there is none for a list of cells, it looks at more places.
pub fn refusal(store: &Store, settings: &Settings, shift: &Shift) -> Option<SheetFault>
    requires { AreInSheet shift.now }
    ensures fault { result ≡ refusal settings.now store.now.cells shift.now }
    ensures fits { IfNone result (IsShift shift.now) }
{
    if let Some(fault) = out_of_sheet(shift) {
        return Some(fault);
    }
    if settings.protection {
        if let Some(cell) = protected_in(store, shift) {
            return Some(SheetFault::Protected(cell));
        }
    }
    match pushed_in(store, shift) {
        Some(cell) => Some(SheetFault::PushedOff(cell)),
        None => None,
    }
}
