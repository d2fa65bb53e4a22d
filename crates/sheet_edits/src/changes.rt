// States that cells are to have.
ghost use Rattle.std.specs.Prelude.{◌≡◌, IfOk, OnOk, option_copied, true};
ghost use Rattle.std.specs.FinMap as map;
ghost use Rattle.grid_address.specs.Place.{place_cmp};
ghost use Rattle.sheet_edits.specs.inner.Putting.{GivePlain};

use cell_maps::CellMap;
use grid_address::Cell;
use lics_text::Memory;
use sheet_store::CellState;
use std::alloc::Global;
use std::marker::Model;

/// States that cells are to have, one for a cell.
#[derive(Drop)]
pub struct Changes {
    states: CellMap<CellState>,
    // Whether a formula was ever among them.
    have_formulas: bool,
}

impl Model for Changes {
    ghost use Rattle.formula_tree.specs.contracts.formula.Formula as formula;
    ghost use Rattle.std.specs.Coded.{codes};
    ghost use Rattle.std.specs.FinMap as map;
    ghost use Rattle.std.specs.Prelude.{◌≡◌, false};
    ghost use Rattle.sheet_edits.specs.inner.Putting.{GivePlain};
    ghost use Rattle.sheet_store.specs.Grid.{Cells};

    ghost Value = { Cells };

    ghost coded = { Prim.hlevel (codes, map.code, formula.the_row.coded) };

    ghost view = { λ a. a.states };

    ghost invariant = { λ a. a.have_formulas ≡ false → GivePlain a.states };
}

impl Changes {
    /// No states.
    pub fn new(alloc: Global) -> Changes
        ensures { result ≡ map.empty }
    {
        Changes {
            states: CellMap::new(alloc),
            have_formulas: false,
        }
    }

    /// No states, with room for so many.
    pub fn with_room(alloc: Global, count: usize) -> Result<Changes, Memory>
        ensures { IfOk result (λ m. m ≡ map.empty) }
    {
        let mut changes = Changes::new(alloc);
        changes.reserve(count)?;
        Ok(changes)
    }

    /// Makes room for so many states more, as far as there is memory.
    pub fn reserve(&mut self, more: usize) -> Result<(), Memory>
        ensures { self.new ≡ self.old }
    {
        self.states.reserve(more)?;
        Ok(())
    }

    /// Gives a cell a state, in place of an earlier one. Want of memory is the one fault.
    #[inline(always)]
    pub fn set(&mut self, cell: Cell, state: CellState) -> Result<(), Memory>
        ensures { OnOk result (self.new ≡ map.insert self.old cell state) }
    {
        self.have_formulas = self.have_formulas || state.is_formula();
        self.states.insert(cell, state)?;
        Ok(())
    }

    /// Whether it is known that none of the states is a formula.
    pub fn are_plain(&self) -> bool
        ensures { result ≡ true → GivePlain self.now }
    {
        !self.have_formulas
    }

    /// The state of a cell; none where it has none.
    pub fn get(&self, cell: Cell) -> Option<&CellState>
        ensures { option_copied result ≡ map.get self.now cell }
    {
        self.states.get(cell)
    }

    /// Takes the state of a cell out; none where it has none.
    pub fn take(&mut self, cell: Cell) -> Option<CellState>
        ensures state { result ≡ map.get self.old cell }
        ensures rest { self.new ≡ map.remove self.old cell }
    {
        self.states.take(cell)
    }
}
