// The first filled cell that would leave the sheet.
ghost use Rattle.std.specs.Prelude.{◌≡◌, true, None};
ghost use Rattle.std.specs.FinMap.{entries};
ghost use Rattle.grid_address.specs.Place.{is_within, InSheet, Place};
ghost use Rattle.ref_adjust.specs.Lines.{place_shifted, IsChange};
ghost use Rattle.sheet_shifts.specs.inner.Puts.{first_pushed_at, is_pushed_at};
ghost use Rattle.sheet_shifts.specs.Refusals.{first_pushed, is_pushed, pushed_by};

use grid_address::{COLUMNS, Cell, ROWS, Span};
use ref_adjust::{Change, cell_shifted};
use sheet_store::{CellState, Store};

// Whether a cell is filled and would leave the sheet.
fn is_pushed(change: Change, cell: Cell, state: &CellState) -> bool
    requires { IsChange change }
    ensures { result ≡ is_pushed change (cell, state.now) }
{
    !state.is_blank() && cell_shifted(change, cell).is_none()
}

// Whether a store has such a cell at a place.
fn is_pushed_at(store: &Store, change: Change, cell: Cell) -> bool
    requires { IsChange change }
    ensures { result ≡ is_pushed_at change store.now.cells cell }
{
    match store.get(cell) {
        Some(state) => is_pushed(change, cell, state),
        None => false,
    }
}

// The first such cell of some.
fn first_pushed_at(store: &Store, change: Change, cells: &[Cell]) -> Option<Cell>
    requires { IsChange change }
    ensures { result ≡ first_pushed_at change store.now.cells cells.now }
{
    for cell in cells {
        if is_pushed_at(store, change, *cell) {
            return Some(*cell);
        }
    }
    None
}

// The first such cell of a store, in row order, by all places near its cells.
fn first_pushed_beside(store: &Store, change: Change) -> Option<Cell>
    requires { IsChange change }
    ensures { result ≡ first_pushed change (entries store.now.cells) }
{
    let mut entries = store.entries();
    while let Some(entry) = entries.next() {
        if is_pushed(change, entry.0, entry.1) {
            return Some(entry.0);
        }
    }
    None
}

// A span in which all cells lie that a change takes out of the sheet: the last lines, for an insert.
fn leaving(change: Change) -> Span
    requires { IsChange change }
    ensures { (p : Place) → InSheet p → place_shifted change p ≡ None → is_within result p ≡ true }
{
    let last = Span::whole().last;
    match change {
        Change::InsertRows(_, count) => Span {
            first: Cell {
                row: ROWS - count,
                col: 0,
            },
            last,
        },
        Change::InsertColumns(_, count) => Span {
            first: Cell {
                row: 0,
                col: (COLUMNS - count) as u8,
            },
            last,
        },
        Change::DeleteRows(_, _) | Change::DeleteColumns(_, _) => Span::whole(),
    }
}

// The first such cell of a store, in row order. It looks at no more places than there are cells; where there is no
// memory for a list of them, at those beside them too.
fn first_pushed(store: &Store, change: Change) -> Option<Cell>
    requires { IsChange change }
    ensures { result ≡ first_pushed change (entries store.now.cells) }
{
    store.are_held();
    match store.cells_in(leaving(change)) {
        Ok(cells) => first_pushed_at(store, change, cells.as_slice()),
        Err(_) => first_pushed_beside(store, change),
    }
}

/// The first filled cell, in row order, that an insert would push out of the sheet; a delete pushes none.
pub fn pushed_by(store: &Store, change: Change) -> Option<Cell>
    requires { IsChange change }
    ensures { result ≡ pushed_by change store.now.cells }
{
    match change {
        Change::InsertRows(_, _) | Change::InsertColumns(_, _) => first_pushed(store, change),
        Change::DeleteRows(_, _) | Change::DeleteColumns(_, _) => None,
    }
}
