// Laws of the definitions. Nothing is done here.
ghost use Rattle.grid_address.specs.Place.{Extent, Place};
ghost use Rattle.sheet_store.specs.Grid.{AreHeld, Cells};
ghost use Rattle.sheet_shifts.specs.Laws.{CellsCame, CellsGo, IsOrdered, NamesFirst};
ghost use Rattle.sheet_shifts.specs.Shifts.{IsShift};
ghost use Rattle.sheet_shifts.specs.declared.shift.Shift.{Shift};

/// After rows or columns were inserted or deleted, or a span was moved, each cell that isn't lost stands where it went,
/// and no other cell is there.
pub fn cells_stand_where_they_went()
    ensures go { (shift : Shift) (m : Cells) → IsShift shift → AreHeld m → CellsGo shift m }
    ensures came { (shift : Shift) (m : Cells) → IsShift shift → AreHeld m → CellsCame shift m }
{}

/// Where protection is on, a move is refused for the first protected cell in row order of its span and its target.
pub fn the_first_protected_cell_is_named()
    ensures { (from : Extent) (to : Place) (m : Cells) → IsOrdered from → NamesFirst from to m }
{}
