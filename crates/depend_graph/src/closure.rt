// What reaches cells through what formulas read, by a search that goes depth first.
ghost use Rattle.std.specs.Prelude.{◌≡◌, ◌<◌, ◌^◌, ◌⊎◌, ◌↔◌, ◌++◌, ◌∷◌, [], List, cond, length, true, false, IfOk, OnOk};
ghost use Rattle.cell_maps.specs.Sets.{has};
ghost use Rattle.grid_address.specs.Place.{same_place, InSheet, Place};
ghost use Rattle.depend_graph.specs.inner.Backward.{work_left, IsDeeper, IsSearched};
ghost use Rattle.depend_graph.specs.inner.Marked.{mark_at};
ghost use Rattle.depend_graph.specs.Network.{is_formula, reads, IsSpread, Network};
ghost use Rattle.depend_graph.specs.inner.Within.{Within};

use crate::Graph;
use crate::marks::Marks;
use grid_address::{Cell, CellList};
use lics_text::Memory;
use std::alloc::Global;

/// The mark of a cell that was met.
const MET: u32 = 1;

/// The mark of a cell of which all readers were gone into.
const LEFT: u32 = 2;

// The cells that were met, with their marks, those of them that were left, in this order, and those that are still to
// be gone into or left, the next one last.
#[derive(Drop)]
struct Search {
    marks: Marks,
    met: Vec<Cell>,
    left: Vec<Cell>,
    stack: Vec<Cell>,
}

// Adds a cell at the end.
fn push(list: &mut Vec<Cell>, cell: Cell) -> Result<(), Memory>
    ensures { OnOk result (list.new.items ≡ list.old.items ++ cell ∷ []) }
{
    list.push(cell)?;
    Ok(())
}

// Adds cells at the end.
fn push_all(list: &mut Vec<Cell>, cells: &[Cell]) -> Result<(), Memory>
    ensures { OnOk result (list.new.items ≡ list.old.items ++ cells.now) }
{
    list.extend_from_slice(cells)?;
    Ok(())
}

impl Search {
    // Nothing is met, and the cells are to be gone into.
    fn new(alloc: Global, cells: &[Cell]) -> Result<Search, Memory>
        ensures { IfOk result (λ s. (g : Network) → IsSearched g cells.now s) }
    {
        let mut stack = Vec::new(alloc);
        push_all(&mut stack, cells)?;
        Ok(Search {
            marks: Marks::new(alloc),
            met: Vec::new(alloc),
            left: Vec::new(alloc),
            stack,
        })
    }

    // Meets a cell: its readers are to be gone into before it is left.
    fn enter(&mut self, graph: &Graph, cell: Cell) -> Result<(), Memory>
        ensures marks { OnOk result ((d : Place) → InSheet d → mark_at self.new.marks d
            ≡ cond (same_place cell d) 1 (mark_at self.old.marks d)) }
        ensures met { OnOk result (self.new.met.items ≡ self.old.met.items ++ cell ∷ []) }
        ensures left { OnOk result (self.new.left.items ≡ self.old.left.items) }
        ensures stack { OnOk result (IsDeeper graph.now cell self.old.stack.items self.new.stack.items) }
    {
        self.marks.put_mark(cell, MET)?;
        push(&mut self.met, cell)?;
        push(&mut self.stack, cell)?;
        graph.add_readers(cell, &mut self.stack)?;
        Ok(())
    }

    // Leaves a cell.
    fn leave(&mut self, cell: Cell) -> Result<(), Memory>
        ensures marks { OnOk result ((d : Place) → InSheet d → mark_at self.new.marks d
            ≡ cond (same_place cell d) 2 (mark_at self.old.marks d)) }
        ensures met { OnOk result (self.new.met.items ≡ self.old.met.items) }
        ensures left { OnOk result (self.new.left.items ≡ self.old.left.items ++ cell ∷ []) }
        ensures stack { OnOk result (self.new.stack.items ≡ self.old.stack.items) }
    {
        self.marks.put_mark(cell, LEFT)?;
        push(&mut self.left, cell)?;
        Ok(())
    }

    // One step: the last cell of the stack is gone into or left.
    fn step(&mut self, graph: &Graph) -> Result<(), Memory>
        requires { 0 < length self.old.stack.items }
        ensures searched { OnOk result ((cells : List Place) → IsSearched graph.now cells self.old
            → IsSearched graph.now cells self.new) }
        ensures less { OnOk result ((cells : List Place) → IsSearched graph.now cells self.old
            → work_left graph.now cells self.new < work_left graph.now cells self.old) }
    {
        let Some(cell) = self.stack.pop() else {
            return Ok(());
        };
        cell.is_on_sheet();
        match self.marks.mark_at(cell) {
            0 => {
                self.enter(graph, cell)?;
                Ok(())
            }
            MET => {
                self.leave(cell)?;
                Ok(())
            }
            _ => Ok(()),
        }
    }
}

// The cells, and the formulas that reach one of them, each behind those that read it, as far as circles allow.
fn within(alloc: Global, graph: &Graph, cells: &[Cell]) -> Result<Vec<Cell>, Memory>
    ensures { IfOk result (λ l. (c : Place) → (has same_place l.items c ≡ true) ↔ Within graph.now cells.now c) }
{
    let mut search = Search::new(alloc, cells)?;
    'steps: while !search.stack.is_empty() {
        search.step(graph)?;
    }
    Ok(search.left)
}

// Those of the cells that hold formulas.
fn formulas_among(alloc: Global, graph: &Graph, cells: &[Cell]) -> Result<CellList, Memory>
    ensures { IfOk result (λ l. (c : Place) → (has same_place l c ≡ true)
        ↔ ((has same_place cells.now c ≡ true) × (is_formula graph.now c ≡ true))) }
{
    let mut list = CellList::new(alloc);
    for cell in cells {
        if graph.has_formula(*cell) {
            list.push(*cell)?;
        }
    }
    Ok(list)
}

// Those of the cells that hold formulas, the last one first.
fn formulas_backward(alloc: Global, graph: &Graph, cells: &[Cell]) -> Result<CellList, Memory>
    ensures { IfOk result (λ l. (c : Place) → (has same_place l c ≡ true)
        ↔ ((has same_place cells.now c ≡ true) × (is_formula graph.now c ≡ true))) }
{
    let mut list = CellList::new(alloc);
    let mut next = cells.len();
    'back: while next > 0 {
        next -= 1;
        let cell = cells[next];
        if graph.has_formula(cell) {
            list.push(cell)?;
        }
    }
    Ok(list)
}

// Whether it is known that no formula reads one of the cells.
fn are_unread(graph: &Graph, cells: &[Cell]) -> bool
    ensures { result ≡ true → (c : Place) → has same_place cells.now c ≡ true →
        (d : Place) → reads graph.now d c ≡ false }
{
    for cell in cells {
        if !graph.is_unread(*cell) {
            return false;
        }
    }
    true
}

/// The formulas among the cells, and those that reach one of them, the last one that the search left first. Cells that
/// no formula reads take no search.
pub fn closure(alloc: Global, graph: &Graph, cells: &[Cell]) -> Result<CellList, Memory>
    ensures { IfOk result (λ l. (c : Place) → (has same_place l c ≡ true) ↔ IsSpread graph.now cells.now c) }
{
    if are_unread(graph, cells) {
        return formulas_among(alloc, graph, cells);
    }
    let left = within(alloc, graph, cells)?;
    let list = formulas_backward(alloc, graph, left.as_slice())?;
    Ok(list)
}
