// A cell is written into the store, the graph and the dirty set. What takes memory comes first.
ghost use Rattle.std.specs.Prelude.{◌≡◌, ◌↔◌, ◌∷◌, [], ◌||◌, IfOk, OnOk, OnErr, false, true};
ghost use Rattle.std.specs.FinMap as map;
ghost use Rattle.grid_address.specs.Place.{same_place, Place};
ghost use Rattle.depend_graph.specs.Network.{reads, IsSpread};
ghost use Rattle.depend_graph.specs.Sets.{Extends};
ghost use Rattle.cell_maps.specs.Sets.{has};
ghost use Rattle.recalculation.specs.Context.{formula_in};
ghost use Rattle.recalculation.specs.Reading.{is_formula_at, node_of, Matches};
ghost use Rattle.sheet_store.specs.Grid.{is_formula, is_kept, put_state, IsSound};
ghost use Rattle.sheet_edits.specs.Edits.{just, AreDirtied, AreUpward};
ghost use Rattle.sheet_edits.specs.inner.Settling.{kept_at, settled, WithReached};

use cell_maps::CellSet;
use depend_graph::{Graph, Node, cut_back, insert, insert_all};
use formula_tree::ContentRef;
use grid_address::{Cell, CellList};
use lics_text::Memory;
use recalculation::formula_node;
use sheet_store::{CellState, Store};
use std::alloc::Global;

// What the formula of a state reads, where its content is a formula.
pub fn node_of(cell: Cell, state: &CellState) -> Result<Option<Node>, Memory>
    ensures { IfOk result (λ node. node ≡ node_of (formula_in state.now.content) cell) }
{
    match state.content() {
        ContentRef::Formula(formula) => {
            let mut spans = Vec::new(formula.alloc());
            let node = formula_node(formula, cell, &mut spans)?;
            Ok(Some(node))
        }
        ContentRef::Blank | ContentRef::Number(_) | ContentRef::Label(_, _) => Ok(None),
    }
}

// Offers a formula for a cell, or none.
#[inline(always)]
pub fn offer(graph: &mut Graph, cell: Cell, node: Option<Node>) -> Result<(), Memory>
    ensures formulas { graph.new.formulas ≡ graph.old.formulas }
    ensures others { (c : Place) → same_place c cell ≡ false → map.get graph.new.offers c ≡ map.get graph.old.offers c }
    ensures offer { OnOk result (map.get graph.new.offers cell ≡ node) }
{
    match node {
        Some(node) => {
            graph.offer(cell, node)?;
            Ok(())
        }
        None => {
            graph.withdraw(cell);
            Ok(())
        }
    }
}

// The formulas among a cell and those that reach it. They are kept where no formula changes.
fn reached_from(
    alloc: Global,
    graph: &mut Graph,
    cell: Cell,
    is_formula: bool,
) -> Result<CellList, Memory>
    ensures same { graph.new ≡ graph.old }
    ensures list { IfOk result (λ l. (c : Place) → (has same_place l c ≡ true) ↔ IsSpread graph.old (cell ∷ []) c) }
{
    if is_formula {
        let cells = CellList::one(alloc, cell)?;
        let list = graph.closure(&cells)?;
        return Ok(list);
    }
    let list = graph.spread_of(cell)?;
    Ok(list)
}

// Whether all of the cells are in the set.
fn are_in(set: &CellSet, cells: &[Cell]) -> bool
    ensures { result ≡ true → (d : Place) → has same_place cells.now d ≡ true → has same_place set.now.keys d ≡ true }
{
    for cell in cells {
        if !set.contains(*cell) {
            return false;
        }
    }
    true
}

// Whether all formulas that read the cell are known to be in the set.
fn are_readers_in(alloc: Global, graph: &Graph, set: &CellSet, cell: Cell) -> Result<bool, Memory>
    ensures { IfOk result (λ b. b ≡ true →
        (d : Place) → reads graph.now d cell ≡ true → has same_place set.now.keys d ≡ true) }
{
    if set.len() == 0 {
        return Ok(false);
    }
    let mut readers = Vec::new(alloc);
    graph.add_readers(cell, &mut readers)?;
    Ok(are_in(set, readers.as_slice()))
}

// Adds a cell, and the formulas that reach it. Where all that read it are dirty, so is all that reaches it, and it is
// not looked for.
fn insert_reached(
    alloc: Global,
    graph: &mut Graph,
    dirty: &mut CellSet,
    cell: Cell,
    is_formula: bool,
) -> Result<(), Memory>
    requires { AreUpward graph.old (has same_place dirty.old.keys) }
    ensures same { graph.new ≡ graph.old }
    ensures extends { Extends dirty.old.keys dirty.new.keys }
    ensures dirty { OnOk result (WithReached graph.old (cell ∷ []) (just cell) dirty.old.keys dirty.new.keys) }
{
    let is_known = are_readers_in(alloc, graph, dirty, cell)?;
    if is_known {
        insert(dirty, cell)?;
        return Ok(());
    }
    let reached = reached_from(alloc, graph, cell, is_formula)?;
    insert_all(dirty, reached.as_slice())?;
    insert(dirty, cell)?;
    Ok(())
}

// All that takes memory: the formula is offered, what it will make dirty is added, and the state is put.
pub fn prepare(
    store: &mut Store,
    graph: &mut Graph,
    dirty: &mut CellSet,
    cell: Cell,
    state: CellState,
) -> Result<(), Memory>
    requires sound { IsSound state }
    requires upward { AreUpward graph.old (has same_place dirty.old.keys) }
    ensures store { OnOk result (store.new ≡ put_state store.old cell state) }
    ensures store_err { OnErr result (store.new ≡ store.old) }
    ensures formulas { graph.new.formulas ≡ graph.old.formulas }
    ensures offer { OnOk result (map.get graph.new.offers cell ≡ node_of (formula_in state.content) cell) }
    ensures extends { Extends dirty.old.keys dirty.new.keys }
    ensures dirty { OnOk result (WithReached graph.old (cell ∷ []) (just cell) dirty.old.keys dirty.new.keys) }
{
    offer(graph, cell, node_of(cell, &state)?)?;
    insert_reached(store.alloc(), graph, dirty, cell, state.is_formula())?;
    store.put(cell, state)?;
    Ok(())
}

// The graph and the dirty set take what was prepared. It takes no memory.
#[inline(always)]
pub fn settle(graph: &mut Graph, dirty: &mut CellSet, cell: Cell, holds_formula: bool)
    ensures graph { graph.new ≡ settled holds_formula graph.old cell }
    ensures dirty { (c : Place) →
        has same_place dirty.new.keys c ≡ kept_at holds_formula cell c (has same_place dirty.old.keys c) }
{
    if holds_formula {
        graph.accept(cell);
    } else {
        graph.drop_cell(cell);
        dirty.remove(cell);
    }
}

// Whether an edit of a cell is known to make nothing dirty: it brings no formula, no formula is dirty, and none reads
// the cell.
#[inline(always)]
fn is_alone(graph: &Graph, dirty: &CellSet, cell: Cell, holds_formula: bool) -> bool
    ensures formula { result ≡ true → holds_formula ≡ false }
    ensures dirty { result ≡ true → dirty.now.keys ≡ [] }
    ensures unread { result ≡ true → (d : Place) → reads graph.now d cell ≡ false }
{
    !holds_formula && dirty.len() == 0 && graph.is_unread(cell)
}

// Writes a state without a formula into a cell: the graph drops the formula that is there.
fn write_alone(
    store: &mut Store,
    graph: &mut Graph,
    cell: Cell,
    state: CellState,
) -> Result<(), Memory>
    requires state { IsSound state }
    requires other { is_formula state.content ≡ false }
    requires matches { Matches graph.old store.old }
    ensures store { OnOk result (store.new ≡ put_state store.old cell state) }
    ensures matches { Matches graph.new store.new }
    ensures store_err { OnErr result (store.new ≡ store.old) }
{
    store.put(cell, state)?;
    graph.drop_cell(cell);
    Ok(())
}

/// Writes a state into a cell. Where there is no memory, the store and the dirty set are as before, and so are the
/// formulas of the graph.
#[inline(always)]
pub fn write_cell(
    store: &mut Store,
    graph: &mut Graph,
    dirty: &mut CellSet,
    cell: Cell,
    state: CellState,
) -> Result<(), Memory>
    requires state { IsSound state }
    requires kept { is_formula state.content ≡ true → is_kept state ≡ true }
    requires matches { Matches graph.old store.old }
    requires only { (c : Place) → has same_place dirty.old.keys c ≡ true → is_formula_at store.old c ≡ true }
    requires upward { AreUpward graph.old (has same_place dirty.old.keys) }
    ensures store { OnOk result (store.new ≡ put_state store.old cell state) }
    ensures dirty { OnOk result
        (AreDirtied store.new (has same_place dirty.old.keys) (just cell) (has same_place dirty.new.keys)) }
    ensures matches { Matches graph.new store.new }
    ensures store_err { OnErr result (store.new ≡ store.old) }
    ensures dirty_err { OnErr result (dirty.new.keys ≡ dirty.old.keys) }
{
    let count = dirty.len();
    let holds_formula = state.is_formula();
    if is_alone(graph, dirty, cell, holds_formula) {
        return write_alone(store, graph, cell, state);
    }
    match prepare(store, graph, dirty, cell, state) {
        Ok(()) => {
            settle(graph, dirty, cell, holds_formula);
            Ok(())
        }
        Err(Memory) => {
            cut_back(dirty, count);
            Err(Memory)
        }
    }
}
