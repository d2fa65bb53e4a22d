// The cells that aren't lost, each at its new place.
ghost use Rattle.std.specs.Prelude.{◌≡◌, [], IfOk, OnOk};
ghost use Rattle.std.specs.List.{cons_option};
ghost use Rattle.std.specs.FinMap as map;
ghost use Rattle.sheet_store.specs.Grid.{IsHeld};
ghost use Rattle.sheet_shifts.specs.inner.Puts.{entry_at, put_all, put_all_at};
ghost use Rattle.sheet_shifts.specs.Shifts.{cells_after, entry_after, grid_after, state_after, IsShift};

use crate::Shift;
use crate::columns::put_columns;
use crate::shift::{formula_after, place_after};
use formula_tree::ContentRef;
use grid_address::{Cell, Span};
use lics_text::Memory;
use sheet_store::{CellState, Store};
use std::alloc::Global;

// A cell's state at its new place. The value and the format are carried.
fn state_after(
    alloc: Global,
    shift: &Shift,
    old_at: Cell,
    new_at: Cell,
    state: &CellState,
) -> Result<CellState, Memory>
    requires { IsShift shift.now }
    ensures { IfOk result (λ s. s ≡ state_after shift.now old_at new_at state.now) }
{
    match state.content() {
        ContentRef::Formula(formula) => {
            let formula = formula_after(shift, old_at, new_at, formula)?;
            state.with_formula(formula)
        }
        ContentRef::Blank | ContentRef::Number(_) | ContentRef::Label(_, _) => state.copy(alloc),
    }
}

// Puts a cell's state at its new place, if the cell isn't lost.
fn put_cell(shift: &Shift, cell: Cell, state: &CellState, into: &mut Store) -> Result<(), Memory>
    requires shift { IsShift shift.now }
    requires held { IsHeld cell state.now }
    ensures { OnOk result (into.new ≡ record into.old {
      cells = put_all into.old.cells (cons_option (entry_after shift.now (cell, state.now)) []);
    }) }
{
    match place_after(shift, cell) {
        Some(place) => into.put(place, state_after(into.alloc(), shift, cell, place, state)?),
        None => Ok(()),
    }
}

// Puts what a store holds at a cell, if anything, at its new place, if it isn't lost.
fn put_at(shift: &Shift, store: &Store, cell: Cell, into: &mut Store) -> Result<(), Memory>
    requires { IsShift shift.now }
    ensures { OnOk result (into.new ≡ record into.old {
      cells = put_all into.old.cells (cons_option (entry_at shift.now store.now.cells cell) []);
    }) }
{
    store.are_held();
    match store.get(cell) {
        Some(state) => put_cell(shift, cell, state, into),
        None => Ok(()),
    }
}

// Puts what a store holds at some cells, each at its new place, if it isn't lost.
fn put_all_at(shift: &Shift, store: &Store, cells: &[Cell], into: &mut Store) -> Result<(), Memory>
    requires { IsShift shift.now }
    ensures { OnOk result (into.new ≡ put_all_at shift.now store.now.cells into.old cells.now) }
{
    for cell in cells {
        put_at(shift, store, *cell, into)?;
    }
    Ok(())
}

// Puts each cell that isn't lost at its new place in a store without cells. It looks at no place without a cell.
fn put_cells(shift: &Shift, store: &Store, into: &mut Store) -> Result<(), Memory>
    requires shift { IsShift shift.now }
    requires none { into.old.cells ≡ map.empty }
    ensures { OnOk result (into.new ≡ record into.old { cells = cells_after shift.now store.now.cells }) }
{
    store.are_held();
    let cells = store.cells_in(Span::whole())?;
    put_all_at(shift, store, cells.as_slice(), into)?;
    Ok(())
}

/// A new store: what the cells and columns of a store are after rows or columns were inserted or deleted, at least one
/// and none past the last, or after a span was moved within the sheet (Release 2 manual; this project's choice for lost
/// references). References in formulas follow their cells, and those to a cell that was deleted or overwritten become
/// `@ERR`. The old store is as it was.
pub fn store_after(store: &Store, shift: &Shift) -> Result<Store, Memory>
    requires { IsShift shift.now }
    ensures { IfOk result (λ s. s ≡ grid_after shift.now store.now) }
{
    let mut after = Store::new(store.alloc());
    put_columns(shift, store, &mut after);
    put_cells(shift, store, &mut after)?;
    Ok(after)
}
