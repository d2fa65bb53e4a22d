// A worksheet as a bench.
ghost use Rattle.std.specs.Prelude.{◌≡◌, true};
ghost use Rattle.commands_data.specs.inner.Benched.{keep_formats};

use crate::protection::is_protected;
use crate::trying::{enter_out, write_out};
use block_writes::content_of_value;
use data_blocks::{Bench, BlockFault};
use formula_eval::Tally;
use formula_parts::Scene;
use formula_tree::{Value, ValueRef};
use grid_address::Cell;
use lics_text::Memory;
use sheet_store::{SheetFault, Writes};
use work_sheet::Worksheet;

/// A worksheet on which inputs are tried, and the writes that put back what the cells of the inputs held before the
/// first.
#[derive(Drop)]
pub struct TableBench<'a> {
    pub sheet: &'a mut Worksheet,
    pub tally: &'a mut Tally,
    pub scene: Scene,
    pub kept: &'a Writes,
    ghost keeps_formats: { keep_formats kept.now ≡ true },
}

impl Bench for TableBench<'_> {
    ghost use Rattle.data_blocks.specs.Benches.{OnBench};
    ghost use Rattle.data_blocks.specs.Tables.{Trial};
    ghost use Rattle.commands_data.specs.inner.Held.{shown, HasGivenBack, HasTried};

    ghost shows = { shown };

    ghost tries = { HasTried };

    ghost gives_back = { HasGivenBack };

    fn try_input(&mut self, cell: Cell, value: &Value) -> Result<(), BlockFault> {
        if is_protected(self.sheet, cell) {
            return Err(BlockFault::Sheet(SheetFault::Protected(cell)));
        }
        let content = content_of_value(self.sheet.alloc(), value)?;
        enter_out(cell, content, self.sheet, &self.scene, self.tally)?;
        Ok(())
    }

    fn answer(&self, cell: Cell) -> Option<ValueRef<'_>> {
        self.sheet.value_of(cell)
    }

    fn give_back(&mut self) -> Result<(), Memory> {
        write_out(self.kept, self.sheet, &self.scene, self.tally)
    }
}
