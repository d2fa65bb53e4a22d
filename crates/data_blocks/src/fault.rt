// Why a block is refused.
use grid_address::Cell;
use lics_text::Memory;
use sheet_store::SheetFault;

/// Why a block is refused: the step of a fill is 0, a table has one row or one column, an input cell lies in its
/// table (the first given), or the sheet refuses.
#[derive(Clone, Copy)]
pub enum BlockFault {
    ZeroStep,
    NoTable,
    InputInTable(Cell),
    Sheet(SheetFault),
    Memory,
}

impl From<Memory> for BlockFault {
    ghost use Rattle.std.specs.Prelude.{◌≡◌};
    ghost use Rattle.data_blocks.specs.declared.fault.BlockFault.TheVariants as fault;

    ghost from_gives = { λ _ e. e ≡ fault.Memory };

    fn from(_memory: Memory) -> BlockFault {
        BlockFault::Memory
    }
}
