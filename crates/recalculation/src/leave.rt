// Which formulas stay dirty after a recalculation.
ghost use Rattle.std.specs.Prelude.{◌≡◌, [], IfOk, OnOk, true, false};
ghost use Rattle.std.specs.List.{filter};
ghost use Rattle.grid_address.specs.Place.{same_place, Place};
ghost use Rattle.cell_maps.specs.Sets.{has};
ghost use Rattle.natural_order.specs.Walk.{Precedes};
ghost use Rattle.recalculation.specs.Passes.{IsWhatStays};
ghost use Rattle.recalculation.specs.inner.Leaving.{is_held};
ghost use Rattle.recalculation.specs.Reading.{pre, Matches, StaysDirty};

use crate::reads::any_dirty;
use cell_maps::CellSet;
use depend_graph::Graph;
use grid_address::Cell;
use lics_text::Memory;
use sheet_store::Store;

// Whether a cell is volatile, or reads a dirty formula.
fn is_held(store: &Store, graph: &Graph, dirty: &CellSet, cell: Cell) -> Result<bool, Memory>
    requires { Matches graph.now store.now }
    ensures { IfOk result (λ b. b ≡ is_held store.now (has same_place dirty.now.keys) cell) }
{
    match graph.get(cell) {
        Some(node) => {
            if node.volatile {
                return Ok(true);
            }
            let any = any_dirty(store, dirty, node.reads.as_slice())?;
            Ok(any)
        }
        None => Ok(false),
    }
}

// Takes each formula out of the set that doesn't stay dirty.
pub fn leave(
    store: &Store,
    graph: &Graph,
    order: &[Cell],
    dirty: &mut CellSet,
) -> Result<(), Memory>
    requires matches { Matches graph.now store.now }
    requires order { Precedes same_place (λ c. filter (has same_place dirty.old.keys) (pre store.now c)) [] order.now }
    requires covers { (c : Place) → has same_place dirty.old.keys c ≡ true → has same_place order.now c ≡ true }
    requires all { (c : Place) → StaysDirty store.now c → has same_place dirty.old.keys c ≡ true }
    ensures { OnOk result (IsWhatStays store.now (has same_place dirty.new.keys)) }
{
    for cell in order {
        let held = is_held(store, graph, dirty, *cell)?;
        if !held {
            dirty.remove(*cell);
        }
    }
    Ok(())
}
