// What a cell has, or had.
ghost use Rattle.std.specs.Prelude.{◌≡◌, ◌++◌, ◌∷◌, [], None, Some, IfOk, OnErr, OnOk};
ghost use Rattle.std.specs.FinMap as map;
ghost use Rattle.sheet_store.specs.Grid.{IsHeld};
ghost use Rattle.edit_log.specs.Changes.{changed_at, with_changes};
ghost use Rattle.edit_log.specs.inner.Had.{state_had};

use fixed_value::Fixed;
use formula_tree::{ContentRef, Formula, Value, ValueRef};
use grid_address::{Cell, Format};
use lics_text::Memory;
use sheet_store::{CellState, Store};
use std::alloc::Global;
use std::marker::Model;

// What a cell has. A formula whose value is a number, as most are that a recalculation evaluates, takes no memory of
// its own here, as it does in a state.
#[derive(Drop)]
pub(crate) enum Had {
    Nothing,
    Computed(Format, Formula, Fixed),
    Other(CellState),
}

/// A cell, and the state that it has; none where it has none.
#[derive(Drop)]
pub struct Change {
    cell: Cell,
    had: Had,
}

impl Model for Change {
    ghost use Rattle.formula_tree.specs.contracts.formula.Formula as formula;
    ghost use Rattle.std.specs.Coded.{codes};
    ghost use Rattle.std.specs.Prelude.{Option};
    ghost use Rattle.grid_address.specs.Place.{Place};
    ghost use Rattle.sheet_store.specs.State.{CellState};
    ghost use Rattle.edit_log.specs.inner.States.{MayHave};

    ghost Value = { Place × Option CellState };

    ghost coded = { Prim.hlevel (codes, formula.the_row.coded) };

    ghost use Rattle.edit_log.specs.inner.Had.{state_had};

    ghost view = { λ c. (c.cell, state_had c.had) };

    ghost invariant = { λ c. MayHave c.cell (state_had c.had) };
}

// What a cell of this state has.
#[inline(always)]
fn had_of(state: &CellState, alloc: Global) -> Result<Had, Memory>
    ensures { IfOk result (λ h. state_had h ≡ Some state.now) }
{
    match (state.content(), state.value()) {
        (ContentRef::Formula(formula), ValueRef::Num(number)) => {
            Ok(Had::Computed(state.format(), formula.copy()?, number))
        }
        _ => Ok(Had::Other(state.copy(alloc)?)),
    }
}

impl Change {
    /// A cell has no state.
    pub fn gone(cell: Cell) -> Change
        ensures { result ≡ (cell, None) }
    {
        Change {
            cell,
            had: Had::Nothing,
        }
    }

    /// A cell has a state, which a store may hold there.
    pub fn of(cell: Cell, state: CellState) -> Change
        requires { IsHeld cell state }
        ensures { result ≡ (cell, Some state) }
    {
        Change {
            cell,
            had: Had::Other(state),
        }
    }

    /// A cell with an equal state to that which it has in a store, or with none.
    #[inline(always)]
    pub fn at(store: &Store, cell: Cell) -> Result<Change, Memory>
        ensures { IfOk result (λ c. c ≡ (cell, map.get store.now.cells cell)) }
    {
        store.are_held();
        match store.get(cell) {
            Some(state) => {
                let had = had_of(state, store.alloc())?;
                Ok(Change { cell, had })
            }
            None => Ok(Change::gone(cell)),
        }
    }

    /// Adds a cell with an equal state to that which it has in a store, or with none. Nothing is added where there is
    /// no memory. A formula whose value is a number is put where it is to lie.
    #[inline(always)]
    pub(crate) fn push_at(
        changes: &mut Vec<Change>,
        store: &Store,
        cell: Cell,
    ) -> Result<(), Memory>
        ensures ok { OnOk result (changes.new.items ≡ changes.old.items ++ (cell, map.get store.now.cells cell) ∷ []) }
        ensures err { OnErr result (changes.new.items ≡ changes.old.items) }
    {
        store.are_held();
        let Some(state) = store.get(cell) else {
            changes.push(Change::gone(cell))?;
            return Ok(());
        };
        match (state.content(), state.value()) {
            (ContentRef::Formula(formula), ValueRef::Num(number)) => {
                let had = Had::Computed(state.format(), formula.copy()?, number);
                changes.push(Change { cell, had })?;
            }
            _ => {
                let had = had_of(state, store.alloc())?;
                changes.push(Change { cell, had })?;
            }
        }
        Ok(())
    }

    /// The cell.
    pub fn cell(&self) -> Cell
        ensures { result ≡ self.now.0 }
    {
        self.cell
    }

    /// An equal state to that of the cell; none where it has none.
    pub fn state(&self, alloc: Global) -> Result<Option<CellState>, Memory>
        ensures { IfOk result (λ s. s ≡ self.now.1) }
    {
        match &self.had {
            Had::Nothing => Ok(None),
            Had::Computed(format, formula, number) => {
                let state = CellState::formula(formula.copy()?, Value::Num(*number), *format)?;
                Ok(Some(state))
            }
            Had::Other(state) => {
                let same = state.copy(alloc)?;
                Ok(Some(same))
            }
        }
    }

    // Gives the cell of a store its state, or none.
    fn make(&self, store: &mut Store) -> Result<(), Memory>
        ensures ok { OnOk result (store.new ≡
            record store.old { cells = changed_at store.old.cells self.now.0 self.now.1 }) }
        ensures err { OnErr result (store.new ≡ store.old) }
    {
        match self.state(store.alloc())? {
            Some(state) => store.put(self.cell, state),
            None => {
                store.clear(self.cell);
                Ok(())
            }
        }
    }
}

/// Makes changes, the first one first. Where there is no memory, the cells that don't change are as before, so that the
/// changes lead to the same from there.
pub fn make_all(changes: &[Change], store: &mut Store) -> Result<(), Memory>
    ensures ok { OnOk result (store.new ≡ with_changes store.old changes.now) }
    ensures again { with_changes store.new changes.now ≡ with_changes store.old changes.now }
{
    for change in changes {
        change.make(store)?;
    }
    Ok(())
}
