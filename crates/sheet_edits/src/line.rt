// A formula is written into a cell and evaluated once.
ghost use Rattle.std.specs.Prelude.{◌≡◌, IfOk, OnErr, OnOk, None, true};
ghost use Rattle.std.specs.FinMap as map;
ghost use Rattle.std.specs.Option.{ForSome};
ghost use Rattle.grid_address.specs.Place.{same_place, Place};
ghost use Rattle.cell_maps.specs.Sets.{has};
ghost use Rattle.recalculation.specs.Context.{seen_context};
ghost use Rattle.recalculation.specs.Passes.{evaluated, raised_by};
ghost use Rattle.recalculation.specs.Reading.{is_formula_at, Matches};
ghost use Rattle.sheet_store.specs.Grid.{is_formula, is_kept, put_state, IsSound};
ghost use Rattle.sheet_edits.specs.Edits.{just, AreDirtied, AreUpward};
ghost use Rattle.sheet_edits.specs.inner.Parts.{IsSame};
ghost use Rattle.sheet_edits.specs.inner.Undoing.{put_back, IsOldState};

use crate::edit::{prepare, settle};
use crate::parts::Parts;
use depend_graph::cut_back;
use formula_eval::Means;
use grid_address::Cell;
use lics_text::Memory;
use recalculation::{ContextRef, evaluate_at};
use sheet_store::{CellState, Store};

// A copy of a cell's state.
fn copy_of(store: &Store, cell: Cell) -> Result<Option<CellState>, Memory>
    ensures state { IfOk result (λ o. o ≡ map.get store.now.cells cell) }
    ensures old { IfOk result (λ o. ForSome o IsOldState) }
{
    // The store is asked for what it keeps of its cells.
    store.are_held();
    match store.get(cell) {
        Some(state) => Ok(Some(state.copy(store.alloc())?)),
        None => Ok(None),
    }
}

// Gives a cell that is there its old state. It takes no memory.
fn put_back(store: &mut Store, cell: Cell, old: Option<CellState>)
    requires there { map.get store.old.cells cell ≡ None → ⊥ }
    requires old { ForSome old IsOldState }
    ensures { store.new ≡ put_back store.old cell old }
{
    match old {
        Some(state) => {
            let _ = store.put(cell, state);
        }
        None => store.clear(cell),
    }
}

/// Writes a formula into a cell and evaluates it over the values as they then stand. Where there is no memory, the
/// store and the dirty set are as before, and so are the formulas of the graph.
pub fn write_evaluated<E: Means>(
    parts: &mut Parts<'_>,
    cell: Cell,
    state: CellState,
    context: &ContextRef<'_>,
    tally: &mut E,
) -> Result<(), Memory>
    requires state { IsSound state }
    requires formula { is_formula state.content ≡ true }
    requires kept { is_kept state ≡ true }
    requires matches { Matches parts.old.graph.now parts.old.store.now }
    requires only { let dirty = parts.old.dirty.now.keys in
        (c : Place) → has same_place dirty c ≡ true → is_formula_at parts.old.store.now c ≡ true }
    requires upward { AreUpward parts.old.graph.now (has same_place parts.old.dirty.now.keys) }
    ensures store { OnOk result (parts.new.store.now
        ≡ evaluated E.meaning (seen_context context.now) (put_state parts.old.store.now cell state) cell) }
    ensures dirty { OnOk result
        (AreDirtied (put_state parts.old.store.now cell state) (has same_place parts.old.dirty.now.keys) (just cell)
        (has same_place parts.new.dirty.now.keys)) }
    ensures matches { OnOk result (Matches parts.new.graph.now (put_state parts.old.store.now cell state)) }
    ensures count { OnOk result (E.count tally.new ≡ raised_by 1 (E.count tally.old)) }
    ensures store_err { OnErr result (parts.new.store.now ≡ parts.old.store.now) }
    ensures dirty_err { OnErr result (parts.new.dirty.now.keys ≡ parts.old.dirty.now.keys) }
    ensures matches_err { OnErr result (Matches parts.new.graph.now parts.old.store.now) }
    ensures same { IsSame parts.old parts.new }
{
    let count = parts.dirty.len();
    let old = copy_of(parts.store, cell)?;
    match prepare(parts.store, parts.graph, parts.dirty, cell, state) {
        Ok(()) => {}
        Err(Memory) => {
            cut_back(parts.dirty, count);
            return Err(Memory);
        }
    }
    match evaluate_at(parts.store, cell, context, tally) {
        Ok(()) => {
            settle(parts.graph, parts.dirty, cell, true);
            Ok(())
        }
        Err(Memory) => {
            put_back(parts.store, cell, old);
            cut_back(parts.dirty, count);
            Err(Memory)
        }
    }
}
