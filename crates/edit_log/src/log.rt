// The states that cells had before they were written, each cell once.
ghost use Rattle.std.specs.Prelude.{◌≡◌, ◌++◌, ◌∷◌, [], true, false, OnErr, OnOk};
ghost use Rattle.std.specs.Bool.{Decides};
ghost use Rattle.grid_address.specs.Place.{same_place, Place};
ghost use Rattle.cell_maps.specs.Sets.{has};
ghost use Rattle.edit_log.specs.Changes.{all_changed, cells_of, is_noted, AreOnce};
ghost use Rattle.edit_log.specs.inner.Runs.{AreListed};

use crate::Change;
use crate::runs::{are_beside, is_run, list_all, note_run};
use cell_maps::CellSet;
use grid_address::Cell;
use lics_text::Memory;
use sheet_store::Store;
use std::alloc::Global;
use std::marker::Model;
use std::mem::replace;

/// The states that cells had before they were written: each cell is noted once, before it is first written.
#[derive(Drop)]
pub struct EditLog {
    changes: Vec<Change>,
    // The cells of the first changes. Those of a run come in where another cell is noted.
    cells: CellSet,
}

impl Model for EditLog {
    ghost use Rattle.formula_tree.specs.contracts.formula.Formula as formula;
    ghost use Rattle.std.specs.Coded.{codes};
    ghost use Rattle.std.specs.Prelude.{List, Option};
    ghost use Rattle.grid_address.specs.Place.{Place};
    ghost use Rattle.sheet_store.specs.State.{CellState};
    ghost use Rattle.edit_log.specs.inner.Runs.{AreListed};

    ghost Value = { List (Place × Option CellState) };

    ghost coded = { Prim.hlevel (codes, formula.the_row.coded) };

    ghost view = { λ l. l.changes.items };

    ghost invariant = { λ l. AreListed l.cells.keys l.changes.items };
}

// Adds what a cell had that isn't noted. Nothing is added where there is no memory.
fn add(changes: &mut Vec<Change>, cells: &mut CellSet, change: Change) -> Result<(), Memory>
    requires listed { cells.old.keys ≡ cells_of changes.old.items }
    requires fresh { is_noted changes.old.items change.0 ≡ false }
    ensures ok { OnOk result (changes.new.items ≡ changes.old.items ++ change ∷ []) }
    ensures err { OnErr result (changes.new.items ≡ changes.old.items) }
    ensures listed { AreListed cells.new.keys changes.new.items }
{
    let count = cells.len();
    cells.insert(change.cell())?;
    match changes.push(change) {
        Ok(()) => {
            // `len` is called for its clause that no cell is in the set twice.
            let _ = cells.len();
            Ok(())
        }
        Err(_) => {
            cells.truncate(count);
            Err(Memory)
        }
    }
}

impl EditLog {
    /// Nothing is noted.
    pub fn new(alloc: Global) -> EditLog
        ensures { result ≡ [] }
    {
        EditLog {
            changes: Vec::new(alloc),
            cells: CellSet::new(alloc),
        }
    }

    /// Whether nothing is noted.
    pub fn is_empty(&self) -> bool
        ensures { Decides result (self.now ≡ []) }
    {
        self.changes.is_empty()
    }

    /// What is noted, the first cell first.
    pub fn changes(&self) -> &[Change]
        ensures changes { result.now ≡ self.now }
        ensures once { AreOnce self.now }
    {
        self.changes.as_slice()
    }

    /// Notes the state that a cell has in a store, unless the cell is noted. What stood before in the store stays what
    /// it is, also where there is no memory.
    pub fn note(&mut self, store: &Store, cell: Cell) -> Result<(), Memory>
        ensures before { all_changed store.now.cells self.new ≡ all_changed store.now.cells self.old }
        ensures more { (c : Place) → is_noted self.old c ≡ true → is_noted self.new c ≡ true }
        ensures noted { OnOk result (is_noted self.new cell ≡ true) }
    {
        list_all(&mut self.cells, self.changes.as_slice())?;
        if self.cells.contains(cell) {
            return Ok(());
        }
        let change = Change::at(store, cell)?;
        add(&mut self.changes, &mut self.cells, change)
    }

    // Whether it is known that no cell of the set is noted. It is looked for where no more are noted than it has.
    fn is_before_run(&self, set: &CellSet) -> bool
        ensures { result ≡ true → (c : Place) → has same_place set.now.keys c ≡ true → is_noted self.now c ≡ false }
    {
        self.changes.len() <= set.len() && are_beside(set, self.changes.as_slice())
    }

    /// Notes the states that the cells of a set have in a store, but for those that are noted. What stood before in the
    /// store stays what it is, also where there is no memory.
    pub fn note_set(&mut self, store: &Store, set: &CellSet) -> Result<(), Memory>
        ensures before { all_changed store.now.cells self.new ≡ all_changed store.now.cells self.old }
        ensures noted { OnOk result
            ((c : Place) → has same_place set.now.keys c ≡ true → is_noted self.new c ≡ true) }
    {
        let cells = set.as_slice();
        if cells.is_empty() {
            return Ok(());
        }
        if self.is_before_run(set) {
            return note_run(&mut self.changes, store, cells);
        }
        self.note_all(store, cells)
    }

    /// Notes the states that cells have in a store, but for those that are noted. What stood before in the store stays
    /// what it is, also where there is no memory.
    pub fn note_all(&mut self, store: &Store, cells: &[Cell]) -> Result<(), Memory>
        ensures before { all_changed store.now.cells self.new ≡ all_changed store.now.cells self.old }
        ensures noted { OnOk result ((c : Place) → has same_place cells.now c ≡ true → is_noted self.new c ≡ true) }
    {
        if self.changes.is_empty() && is_run(cells) {
            return note_run(&mut self.changes, store, cells);
        }
        for cell in cells {
            self.note(store, *cell)?;
        }
        Ok(())
    }

    /// Takes out all that is noted.
    pub fn take(&mut self) -> Vec<Change>
        ensures changes { result.items ≡ self.old }
        ensures none { self.new ≡ [] }
    {
        self.cells.truncate(0);
        let alloc = *self.changes.allocator();
        replace(&mut self.changes, Vec::new(alloc))
    }
}
