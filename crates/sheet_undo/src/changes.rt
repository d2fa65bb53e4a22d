// What cells of one store have otherwise than those of another, and changes that are made.
ghost use Rattle.std.specs.Bool.{Decides};
ghost use Rattle.std.specs.Prelude.{◌≡◌, [], None, Some, IfOk, OnErr, OnOk};
ghost use Rattle.std.specs.FinMap as map;
ghost use Rattle.edit_log.specs.Changes.{all_changed, with_changes};
ghost use Rattle.sheet_undo.specs.inner.Changes.{gone_of, AreTaken};
ghost use Rattle.sheet_undo.specs.inner.Keeping.{columns_or};

use crate::cells::{TwoCodes, is_same_entry};
use crate::columns::put_own_columns;
use edit_log::{Change, make_all};
use grid_address::Cell;
use lics_text::Memory;
use sheet_store::{CellState, Store};
use std::alloc::Global;
use std::marker::Model;

/// Changes of cells: those that go, of which only the places are kept, and then the others.
#[derive(Drop)]
pub struct CellChanges {
    gone: Vec<Cell>,
    others: Vec<Change>,
}

impl Model for CellChanges {
    ghost use Rattle.formula_tree.specs.contracts.formula.Formula as formula;
    ghost use Rattle.std.specs.Coded.{codes};
    ghost use Rattle.std.specs.Prelude.{◌++◌, List, Option};
    ghost use Rattle.grid_address.specs.Place.{Place};
    ghost use Rattle.sheet_store.specs.State.{CellState};
    ghost use Rattle.sheet_undo.specs.inner.Changes.{gone_of};

    ghost Value = { List (Place × Option CellState) };

    ghost coded = { Prim.hlevel (codes, formula.the_row.coded) };

    ghost view = { λ c. gone_of c.gone.items ++ c.others.items };
}

// Takes cells out of a store.
fn clear_all(cells: &[Cell], store: &mut Store)
    ensures { store.new ≡ with_changes store.old (gone_of cells.now) }
{
    for cell in cells {
        store.clear(*cell);
    }
}

impl CellChanges {
    /// No changes.
    pub fn none(alloc: Global) -> CellChanges
        ensures { result ≡ [] }
    {
        CellChanges {
            gone: Vec::new(alloc),
            others: Vec::new(alloc),
        }
    }

    /// The changes of a list.
    pub fn listed(changes: Vec<Change>) -> CellChanges
        ensures { result ≡ changes.items }
    {
        let alloc = *changes.allocator();
        CellChanges {
            gone: Vec::new(alloc),
            others: changes,
        }
    }

    /// Makes the changes in a store.
    pub fn make(&self, store: &mut Store) -> Result<(), Memory>
        ensures { OnOk result (store.new ≡ with_changes store.old self.now) }
    {
        clear_all(self.gone.as_slice(), store);
        make_all(self.others.as_slice(), store)
    }
}

// Whether a cell of a store has this state.
pub fn has_state(
    store: &Store,
    cell: Cell,
    state: &CellState,
    codes: &mut TwoCodes,
) -> Result<bool, Memory>
    ensures { IfOk result (λ same. Decides same (map.get store.now.cells cell ≡ Some state.now)) }
{
    match store.get(cell) {
        Some(found) => is_same_entry(cell, found, cell, state, codes),
        None => Ok(false),
    }
}

// Whether a cell of a store has no state.
pub fn is_absent(store: &Store, cell: Cell) -> bool
    ensures { Decides result (map.get store.now.cells cell ≡ None) }
{
    store.get(cell).is_none()
}

// The cells of the next store that the kept one hasn't, to be taken away.
fn cells_gone(kept: &Store, next: &Store) -> Result<Vec<Cell>, Memory>
    ensures { IfOk result (λ gone. AreTaken kept.now.cells next.now.cells
        (all_changed next.now.cells (gone_of gone.items))) }
{
    let mut gone = Vec::new(kept.alloc());
    let mut left = next.entries();
    while let Some(entry) = left.next() {
        if is_absent(kept, entry.0) {
            gone.push(entry.0)?;
        }
    }
    gone.shrink_to_fit();
    Ok(gone)
}

// Beside the cells that go, those of the kept store that the next one hasn't in the same state.
fn with_others(gone: Vec<Cell>, kept: &Store, next: &Store) -> Result<CellChanges, Memory>
    requires { AreTaken kept.now.cells next.now.cells (all_changed next.now.cells (gone_of gone.items)) }
    ensures { IfOk result (λ changes. all_changed next.now.cells changes ≡ kept.now.cells) }
{
    kept.are_held();
    let mut others = Vec::new(kept.alloc());
    let mut codes = TwoCodes::new(kept.alloc());
    let mut left = kept.entries();
    while let Some(entry) = left.next() {
        if !has_state(next, entry.0, entry.1, &mut codes)? {
            others.push(Change::of(entry.0, entry.1.copy(kept.alloc())?))?;
        }
    }
    others.shrink_to_fit();
    Ok(CellChanges { gone, others })
}

/// The changes that make the next store's cells the kept ones, and no room beside them.
pub fn changes_of(kept: &Store, next: &Store) -> Result<CellChanges, Memory>
    ensures { IfOk result (λ changes. all_changed next.now.cells changes ≡ kept.now.cells) }
{
    let gone = cells_gone(kept, next)?;
    with_others(gone, kept, next)
}

/// Makes changes in a store, and gives it the columns that are kept, if some are. Where there is no memory, the changes
/// lead to the same from there.
pub fn change_store(
    changes: &[Change],
    columns: &Option<Store>,
    store: &mut Store,
) -> Result<(), Memory>
    ensures ok { OnOk result (store.new ≡ columns_or columns.now (with_changes store.old changes.now)) }
    ensures err { OnErr result (with_changes store.new changes.now ≡ with_changes store.old changes.now) }
{
    make_all(changes, store)?;
    put_own_columns(columns, store);
    Ok(())
}
