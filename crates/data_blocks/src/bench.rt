// A sheet on which inputs are tried.
ghost use Rattle.std.specs.Prelude.{◌≡◌, OnOk, option_map, true};
ghost use Rattle.formula_tree.specs.Seen.{seen_value};
ghost use Rattle.data_blocks.specs.Benches.{takes, HasEntered, HoldsOld, IsSameBench, IsTrialOf};

use crate::BlockFault;
use formula_tree::{Value, ValueRef};
use grid_address::Cell;
use lics_text::Memory;

/// A sheet that takes inputs, to see what its formulas come to. It is seen as what it shows: the values and contents
/// of its cells, which of them it holds protected, the cells that take inputs, and what each cell held before the first
/// input. How an input and the giving back change what is beside that, its formulas' values above all, each bench tells
/// by a relation of its own.
pub trait Bench {
    ghost use Rattle.data_blocks.specs.Benches.{OnBench};
    ghost use Rattle.data_blocks.specs.Tables.{Trial};

    // what is seen of it
    ghost shows: { Self → OnBench };

    // an input made of one bench another
    ghost tries: { Trial → Self → Self → Type 0 };

    // the giving back of the old contents did
    ghost gives_back: { Self → Self → Type 0 };

    /// Enters a value into a cell that takes inputs, as a table writes it, and recalculates.
    /// `Sheet(Protected(cell))` comes exactly where the cell is protected, which leaves all contents, and otherwise no
    /// fault but `Memory`.
    fn try_input(&mut self, cell: Cell, value: &Value) -> Result<(), BlockFault>
        requires { takes (shows self.old) cell ≡ true }
        ensures tried { OnOk result (tries (record { cell = cell; value = value.now }) self.old self.new) }
        ensures entered { OnOk result
            (HasEntered (record { cell = cell; value = value.now }) (shows self.old) (shows self.new)) }
        ensures same { IsSameBench (shows self.old) (shows self.new) }
        ensures fault { IsTrialOf ((shows self.old).guarded cell) cell result (shows self.old) (shows self.new) };

    /// The value of a cell; none exactly where the sheet holds nothing of it.
    fn answer(&self, cell: Cell) -> Option<ValueRef<'_>>
        ensures { option_map seen_value result ≡ (shows self.now).answers cell };

    /// Puts the old contents back and recalculates.
    fn give_back(&mut self) -> Result<(), Memory>
        ensures given { OnOk result (gives_back self.old self.new) }
        ensures old { OnOk result (HoldsOld (shows self.new)) }
        ensures same { IsSameBench (shows self.old) (shows self.new) };
}
