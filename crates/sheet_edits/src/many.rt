// Many cells are written into the store, the graph and the dirty set. What takes memory comes first.
ghost use Rattle.std.specs.Prelude.{◌≡◌, ◌&&◌, ◌||◌, ◌⊎◌, [], cond, IfOk, OnErr, OnOk, None, Some, false, true};
ghost use Rattle.std.specs.FinMap as map;
ghost use Rattle.grid_address.specs.Place.{same_place, Place};
ghost use Rattle.depend_graph.specs.Sets.{Extends};
ghost use Rattle.cell_maps.specs.Sets.{has};
ghost use Rattle.recalculation.specs.Context.{formula_at};
ghost use Rattle.recalculation.specs.Reading.{is_formula_at, node_of, Matches};
ghost use Rattle.sheet_store.specs.Grid.{is_formula, is_kept, put_state, IsSound};
ghost use Rattle.sheet_store.specs.State.{CellState};
ghost use Rattle.sheet_edits.specs.Edits.{just, AreDirtied};
ghost use Rattle.sheet_edits.specs.inner.Settling.{WithReached};
ghost use Rattle.sheet_edits.specs.Spans.{changed, AreSound, Becomes};
ghost use Rattle.sheet_edits.specs.inner.Putting.{gives_formula, node_given, put_given, ArePut, GivePlain, HaveRoom, IsGrown, IsOffered};

use crate::changes::Changes;
use crate::edit::{node_of, offer, settle};
use cell_maps::CellSet;
use depend_graph::{Graph, cut_back, insert, insert_all};
use grid_address::{Cell, CellList};
use lics_text::Memory;
use sheet_store::Store;

// Offers the formula that a cell is given, or none.
fn offer_at(graph: &mut Graph, cell: Cell, changes: &Changes) -> Result<(), Memory>
    ensures formulas { graph.new.formulas ≡ graph.old.formulas }
    ensures others { (c : Place) → same_place c cell ≡ false → map.get graph.new.offers c ≡ map.get graph.old.offers c }
    ensures offer { OnOk result (map.get graph.new.offers cell ≡ node_given (map.get changes.now cell) cell) }
{
    let node = match changes.get(cell) {
        Some(state) => node_of(cell, state)?,
        None => None,
    };
    offer(graph, cell, node)?;
    Ok(())
}

// Each cell's new formula waits in the graph until all the memory is there.
fn offer_all(graph: &mut Graph, cells: &[Cell], changes: &Changes) -> Result<(), Memory>
    ensures formulas { graph.new.formulas ≡ graph.old.formulas }
    ensures offers { OnOk result
        ((c : Place) → has same_place cells.now c ≡ true →
        map.get graph.new.offers c ≡ node_given (map.get changes.now c) c) }
{
    for cell in cells {
        offer_at(graph, *cell, changes)?;
    }
    Ok(())
}

// Whether a cell is given a formula.
fn is_given(changes: &Changes, cell: Cell) -> bool
    ensures { result ≡ gives_formula (map.get changes.now cell) }
{
    match changes.get(cell) {
        Some(state) => state.is_formula(),
        None => false,
    }
}

// Adds the cells that are given a formula.
fn insert_given(dirty: &mut CellSet, cells: &[Cell], changes: &Changes) -> Result<(), Memory>
    ensures members { OnOk result
        ((c : Place) → has same_place dirty.new.keys c
        ≡ (has same_place dirty.old.keys c || (has same_place cells.now c && gives_formula (map.get changes.now c)))) }
    ensures extends { Extends dirty.old.keys dirty.new.keys }
{
    for cell in cells {
        if is_given(changes, *cell) {
            insert(dirty, *cell)?;
        }
    }
    Ok(())
}

// Whether a cell is to hold something, and isn't in the store.
fn is_new(store: &Store, cell: Cell, changes: &Changes) -> bool
    ensures absent { result ≡ true → map.get store.now.cells cell ≡ None }
    ensures rest { result ≡ false → (s : CellState) → map.get changes.now cell ≡ Some s → is_kept s ≡ true →
        map.get store.now.cells cell ≡ None → ⊥ }
{
    if store.get(cell).is_some() {
        return false;
    }
    match changes.get(cell) {
        Some(state) => state.is_kept(),
        None => false,
    }
}

// Puts the state of a cell that isn't in the store.
fn put_new(
    store: &mut Store,
    grown: &mut CellList,
    cell: Cell,
    changes: &mut Changes,
) -> Result<(), Memory>
    requires { (s : CellState) → map.get changes.old cell ≡ Some s → IsSound s }
    ensures grown { (c : Place) → has same_place grown.new c ≡ true →
        (has same_place grown.old c ≡ true) ⊎ (same_place c cell ≡ true) }
    ensures held { (c : Place) → has same_place grown.old c ≡ true → has same_place grown.new c ≡ true }
    ensures others { (c : Place) → has same_place grown.new c ≡ false →
        map.get store.new.cells c ≡ map.get store.old.cells c }
    ensures widths { store.new.widths ≡ store.old.widths }
    ensures hidden { store.new.hidden ≡ store.old.hidden }
    ensures store { OnOk result (store.new ≡ put_given store.old cell (map.get changes.old cell)) }
    ensures changes { OnOk result (changes.new ≡ map.remove changes.old cell) }
{
    grown.push(cell)?;
    if let Some(state) = changes.take(cell) {
        store.put(cell, state)?;
    }
    Ok(())
}

// Puts the states of the cells that aren't in the store, and tells which cells these are.
fn put_all_new(
    store: &mut Store,
    grown: &mut CellList,
    cells: &[Cell],
    changes: &mut Changes,
) -> Result<(), Memory>
    requires grown { grown.old ≡ [] }
    requires sound { AreSound changes.old }
    ensures grown { IsGrown grown.new store.old store.new }
    ensures put { OnOk result (ArePut changes.old store.old changes.new store.new) }
    ensures room { OnOk result (HaveRoom changes.new (has same_place cells.now) store.new) }
{
    for cell in cells {
        if is_new(store, *cell, changes) {
            put_new(store, grown, *cell, changes)?;
        }
    }
    Ok(())
}

// Nothing is held of the cells any more.
fn clear_all(store: &mut Store, cells: &[Cell])
    ensures cells { (c : Place) →
        map.get store.new.cells c ≡ cond (has same_place cells.now c) None (map.get store.old.cells c) }
    ensures widths { store.new.widths ≡ store.old.widths }
    ensures hidden { store.new.hidden ≡ store.old.hidden }
{
    for cell in cells {
        store.clear(*cell);
    }
}

// Puts the states that come into cells which aren't in the store. What is left of the changes takes no memory.
fn grow(store: &mut Store, cells: &[Cell], changes: &mut Changes) -> Result<(), Memory>
    requires { AreSound changes.old }
    ensures put { OnOk result (ArePut changes.old store.old changes.new store.new) }
    ensures room { OnOk result (HaveRoom changes.new (has same_place cells.now) store.new) }
    ensures err { OnErr result (store.new ≡ store.old) }
{
    let mut grown = CellList::new(store.alloc());
    match put_all_new(store, &mut grown, cells, changes) {
        Ok(()) => Ok(()),
        Err(Memory) => {
            clear_all(store, grown.as_slice());
            Err(Memory)
        }
    }
}

// Gives a cell its state. It takes no memory.
fn put_at(store: &mut Store, cell: Cell, changes: &mut Changes)
    requires sound { (s : CellState) → map.get changes.old cell ≡ Some s → IsSound s }
    requires room { (s : CellState) → map.get changes.old cell ≡ Some s → is_kept s ≡ true →
        map.get store.old.cells cell ≡ None → ⊥ }
    ensures store { store.new ≡ put_given store.old cell (map.get changes.old cell) }
    ensures changes { changes.new ≡ map.remove changes.old cell }
{
    if let Some(state) = changes.take(cell) {
        if state.is_kept() {
            let _ = store.put(cell, state);
        } else {
            store.clear(cell);
        }
    }
}

// Gives the cells their states, for which there is room. It takes no memory.
fn put_all(store: &mut Store, cells: &[Cell], changes: &mut Changes)
    requires sound { AreSound changes.old }
    requires room { HaveRoom changes.old (has same_place cells.now) store.old }
    ensures { Becomes store.old
        (λ c. cond (has same_place cells.now c) (changed (map.get changes.old c) (map.get store.old.cells c))
        (map.get store.old.cells c)) store.new }
{
    for cell in cells {
        put_at(store, *cell, changes);
    }
}

/// Gives cells their states. The store is unchanged where there is no memory.
pub fn change_cells(store: &mut Store, cells: &[Cell], mut changes: Changes) -> Result<(), Memory>
    requires sound { AreSound changes }
    requires given { (c : Place) → has same_place cells.now c ≡ false → map.get changes c ≡ None }
    ensures ok { OnOk result
        (Becomes store.old (λ c. changed (map.get changes c) (map.get store.old.cells c)) store.new) }
    ensures err { OnErr result (store.new ≡ store.old) }
{
    grow(store, cells, &mut changes)?;
    put_all(store, cells, &mut changes);
    Ok(())
}

// Whether the store has a formula in the cell.
fn holds_formula(store: &Store, cell: Cell) -> bool
    ensures { result ≡ is_formula_at store.now cell }
{
    match store.get(cell) {
        Some(state) => state.is_formula(),
        None => false,
    }
}

// The graph takes the offer of a cell that has its state, and the cell stays dirty only with a formula.
fn settle_at(store: &Store, graph: &mut Graph, dirty: &mut CellSet, cell: Cell)
    requires { IsOffered graph.old store.now cell }
    ensures here { map.get graph.new.formulas cell ≡ node_of (formula_at store.now cell) cell }
    ensures offer { (map.get graph.new.offers cell ≡ None)
        ⊎ (map.get graph.new.offers cell ≡ map.get graph.old.offers cell) }
    ensures formulas { (c : Place) → same_place c cell ≡ false →
        map.get graph.new.formulas c ≡ map.get graph.old.formulas c }
    ensures offers { (c : Place) → same_place c cell ≡ false → map.get graph.new.offers c ≡ map.get graph.old.offers c }
    ensures dirty { (c : Place) →
        has same_place dirty.new.keys c
        ≡ cond (same_place c cell) (has same_place dirty.old.keys c && is_formula_at store.now c)
        (has same_place dirty.old.keys c) }
{
    let holds_formula = holds_formula(store, cell);
    settle(graph, dirty, cell, holds_formula);
}

// The graph and the dirty set take what was prepared for cells that have their states. It takes no memory.
fn settle_all(store: &Store, graph: &mut Graph, dirty: &mut CellSet, cells: &[Cell])
    requires offered { (c : Place) → has same_place cells.now c ≡ true → IsOffered graph.old store.now c }
    requires others { (c : Place) → has same_place cells.now c ≡ false →
        map.get graph.old.formulas c ≡ node_of (formula_at store.now c) c }
    ensures matches { Matches graph.new store.now }
    ensures dirty { (c : Place) →
        has same_place dirty.new.keys c
        ≡ cond (has same_place cells.now c) (has same_place dirty.old.keys c && is_formula_at store.now c)
        (has same_place dirty.old.keys c) }
{
    for cell in cells {
        settle_at(store, graph, dirty, *cell);
    }
}

// All that takes memory: formulas are offered, what they will make dirty is added, and the states that come into cells
// which aren't in the store are put.
fn prepare_all(
    store: &mut Store,
    graph: &mut Graph,
    dirty: &mut CellSet,
    cells: &CellList,
    changes: &mut Changes,
) -> Result<(), Memory>
    requires { AreSound changes.old }
    ensures formulas { graph.new.formulas ≡ graph.old.formulas }
    ensures offers { OnOk result
        ((c : Place) → has same_place cells.now c ≡ true →
        map.get graph.new.offers c ≡ node_given (map.get changes.old c) c) }
    ensures extends { Extends dirty.old.keys dirty.new.keys }
    ensures dirty { OnOk result
        (WithReached graph.old cells.now (λ c. has same_place cells.now c && gives_formula (map.get changes.old c))
        dirty.old.keys dirty.new.keys) }
    ensures put { OnOk result (ArePut changes.old store.old changes.new store.new) }
    ensures room { OnOk result (HaveRoom changes.new (has same_place cells.now) store.new) }
    ensures err { OnErr result (store.new ≡ store.old) }
{
    offer_all(graph, cells.as_slice(), changes)?;
    let reached = graph.closure(cells)?;
    insert_all(dirty, reached.as_slice())?;
    insert_given(dirty, cells.as_slice(), changes)?;
    grow(store, cells.as_slice(), changes)?;
    Ok(())
}

// Whether it is known that there is no formula, and that none comes.
fn is_plain(graph: &Graph, changes: &Changes) -> bool
    ensures none { result ≡ true → graph.now.formulas ≡ map.empty }
    ensures plain { result ≡ true → GivePlain changes.now }
{
    changes.are_plain() && graph.is_empty()
}

/// Writes states into cells. A written cell that isn't given a state keeps its own. Where there is no memory, the store
/// and the dirty set are as before, and so are the formulas of the graph. Where there is no formula before and none
/// comes, the states are put, and nothing else is done.
pub fn write_cells(
    store: &mut Store,
    graph: &mut Graph,
    dirty: &mut CellSet,
    cells: &CellList,
    mut changes: Changes,
) -> Result<(), Memory>
    requires sound { AreSound changes }
    requires given { (c : Place) → has same_place cells.now c ≡ false → map.get changes c ≡ None }
    requires matches { Matches graph.old store.old }
    requires only { (c : Place) → has same_place dirty.old.keys c ≡ true → is_formula_at store.old c ≡ true }
    ensures store { OnOk result
        (Becomes store.old (λ c. changed (map.get changes c) (map.get store.old.cells c)) store.new) }
    ensures dirty { OnOk result
        (AreDirtied store.new (has same_place dirty.old.keys) (has same_place cells.now)
        (has same_place dirty.new.keys)) }
    ensures matches { Matches graph.new store.new }
    ensures store_err { OnErr result (store.new ≡ store.old) }
    ensures dirty_err { OnErr result (dirty.new.keys ≡ dirty.old.keys) }
{
    if is_plain(graph, &changes) {
        change_cells(store, cells.as_slice(), changes)?;
        return Ok(());
    }
    let count = dirty.len();
    match prepare_all(store, graph, dirty, cells, &mut changes) {
        Ok(()) => {
            put_all(store, cells.as_slice(), &mut changes);
            settle_all(store, graph, dirty, cells.as_slice());
            Ok(())
        }
        Err(Memory) => {
            cut_back(dirty, count);
            Err(Memory)
        }
    }
}
