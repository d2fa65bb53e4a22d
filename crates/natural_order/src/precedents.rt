// What formulas read.
ghost use Rattle.std.specs.Prelude.{◌≡◌, List, IfOk, true};
ghost use Rattle.grid_address.specs.Place.{same_place, Place};
ghost use Rattle.cell_maps.specs.Sets.{has};

use grid_address::Cell;
use lics_text::Memory;

/// What formulas read, as the formulas among the cells that they name.
pub trait Precedents {
    ghost pre: { Self → Place → List Place };

    ghost all: { Self → List Place };

    /// The formulas that a formula reads, in order.
    fn pre(&self, cell: Cell) -> Result<Vec<Cell>, Memory>
        ensures { IfOk result (λ list. list.items ≡ pre self.now cell) };

    ghost closed: { (g : Self) (c d : Place) → has same_place (pre g c) d ≡ true → has same_place (all g) d ≡ true };
}
