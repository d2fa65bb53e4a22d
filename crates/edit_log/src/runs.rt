// Runs of cells, whose states are noted without a look for each among those that are noted.
ghost use Rattle.std.specs.Prelude.{◌≡◌, ◌<◌, ◌++◌, List, true, false, OnOk};
ghost use Rattle.std.specs.List.{IsDistinct};
ghost use Rattle.cell_maps.specs.Sets.{has};
ghost use Rattle.grid_address.specs.Place.{same_place, Place};
ghost use Rattle.edit_log.specs.Changes.{all_changed, cells_of, is_noted};
ghost use Rattle.edit_log.specs.inner.Runs.{AreListed};

use crate::Change;
use cell_maps::CellSet;
use grid_address::Cell;
use lics_text::Memory;
use sheet_store::Store;

/// Whether the cells come in row order, so that none comes twice.
pub fn is_run(cells: &[Cell]) -> bool
    ensures { result ≡ true → IsDistinct same_place cells.now }
{
    let mut least = 0;
    for cell in cells {
        let rank = cell.rank();
        if rank < least {
            return false;
        }
        least = rank + 1;
    }
    true
}

/// Whether none of the changes is of a cell of the set.
pub fn are_beside(set: &CellSet, changes: &[Change]) -> bool
    ensures { result ≡ true → (c : Place) → has same_place set.now.keys c ≡ true → is_noted changes.now c ≡ false }
{
    for change in changes {
        if set.contains(change.cell()) {
            return false;
        }
    }
    true
}

/// Notes the states that cells have in a store, behind those that are noted. What stood before in the store stays what
/// it is, also where there is no memory.
pub fn note_run(changes: &mut Vec<Change>, store: &Store, cells: &[Cell]) -> Result<(), Memory>
    requires beside { (c : Place) → has same_place cells.now c ≡ true → is_noted changes.old.items c ≡ false }
    requires once { IsDistinct same_place cells.now }
    ensures before { all_changed store.now.cells changes.new.items ≡ all_changed store.now.cells changes.old.items }
    ensures listed { (keys : List Place) → AreListed keys changes.old.items → AreListed keys changes.new.items }
    ensures noted { OnOk result (cells_of changes.new.items ≡ cells_of changes.old.items ++ cells.now) }
{
    changes.reserve(cells.len())?;
    for cell in cells {
        Change::push_at(changes, store, *cell)?;
    }
    Ok(())
}

/// Puts the cells of all changes into the set, which has those of the first ones.
pub fn list_all(cells: &mut CellSet, changes: &[Change]) -> Result<(), Memory>
    requires { AreListed cells.old.keys changes.now }
    ensures listed { AreListed cells.new.keys changes.now }
    ensures all { OnOk result (cells.new.keys ≡ cells_of changes.now) }
{
    for place in cells.len()..changes.len() {
        cells.insert(changes[place].cell())?;
    }
    Ok(())
}
