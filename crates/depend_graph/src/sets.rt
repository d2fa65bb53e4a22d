// Sets of cells that grow, and are cut back where a later growth fails.
ghost use Rattle.std.specs.Prelude.{◌≡◌, ◌||◌, take, OnOk};
ghost use Rattle.grid_address.specs.Place.{same_place, Place};
ghost use Rattle.cell_maps.specs.Sets.{has, insert_key};
ghost use Rattle.depend_graph.specs.Sets.{Extends};

use cell_maps::CellSet;
use grid_address::Cell;
use lics_text::Memory;

/// Adds a cell behind the others, unless it is in the set.
#[inline(always)]
pub fn insert(set: &mut CellSet, cell: Cell) -> Result<(), Memory>
    ensures keys { OnOk result (set.new.keys ≡ insert_key same_place set.old.keys cell) }
    ensures extends { Extends set.old.keys set.new.keys }
{
    set.insert(cell)?;
    Ok(())
}

/// Adds cells behind the others. Where there is no memory some may have been added.
pub fn insert_all(set: &mut CellSet, cells: &[Cell]) -> Result<(), Memory>
    ensures members { OnOk result
        ((c : Place) → has same_place set.new.keys c ≡ (has same_place set.old.keys c || has same_place cells.now c)) }
    ensures extends { Extends set.old.keys set.new.keys }
{
    if set.put_back(cells) {
        return Ok(());
    }
    for cell in cells {
        insert(set, *cell)?;
    }
    Ok(())
}

/// Takes out all cells but the first ones.
pub fn cut_back(set: &mut CellSet, count: usize)
    ensures { set.new.keys ≡ take count set.old.keys }
{
    set.truncate(count);
}
