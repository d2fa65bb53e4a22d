// What a command writes, and its refusal.
ghost use Rattle.std.specs.Prelude.{◌≡◌, IfOk, List, OnOk, Result};
ghost use Rattle.command_desk.specs.Acting.{HasActedBy};
ghost use Rattle.commands_data.specs.Made.{block_error, made, query_error};
ghost use Rattle.commands_data.specs.inner.Made.{IsAnswer};
ghost use Rattle.sheet_store.specs.declared.writes.Write.{Write};

use command_desk::{CommandEnd, make_writes, sheet_error};
use data_blocks::BlockFault;
use data_query::QueryFault;
use desk_errors::CommandError;
use formula_eval::Tally;
use formula_parts::Scene;
use lics_text::Memory;
use sheet_store::Writes;
use work_sheet::Worksheet;

/// The error of a block's fault, but for want of memory.
pub(crate) fn block_error(fault: BlockFault) -> Result<CommandError, Memory>
    ensures error { IfOk result (λ e. e ≡ block_error fault) }
    ensures told { OnOk result (fault ≡ BlockFault.Memory → ⊥) }
{
    match fault {
        BlockFault::ZeroStep => Ok(CommandError::ZeroStep),
        BlockFault::NoTable => Ok(CommandError::InvalidTable),
        BlockFault::InputInTable(cell) => Ok(CommandError::InputInTable(cell)),
        BlockFault::Sheet(fault) => sheet_error(fault),
        BlockFault::Memory => Err(Memory),
    }
}

// The error of a query's fault, but for want of memory.
fn query_error(fault: QueryFault) -> Result<CommandError, Memory>
    ensures error { IfOk result (λ e. e ≡ query_error fault) }
    ensures told { OnOk result (fault ≡ QueryFault.Memory → ⊥) }
{
    match fault {
        QueryFault::NoFieldRow => Ok(CommandError::QueryRangeMissing),
        QueryFault::FieldAbsent(cell) => Ok(CommandError::FieldNotFound(cell)),
        QueryFault::OutputFull(rows) => Ok(CommandError::OutputFull(rows)),
        QueryFault::Memory => Err(Memory),
    }
}

/// Makes the writes of a block, or is refused by its fault.
pub fn make_block(
    answer: Result<Writes, BlockFault>,
    sheet: &mut Worksheet,
    scene: &Scene,
    tally: &mut Tally,
) -> Result<CommandEnd, Memory>
    ensures { IfOk result (λ end. (told : Result (List Write) BlockFault) → IsAnswer BlockFault.Memory told answer →
        HasActedBy (made block_error told scene.entry.now)
        end sheet.old sheet.new tally.old.count tally.new.count) }
{
    match answer {
        Ok(writes) => make_writes(&writes, sheet, scene, tally),
        Err(fault) => {
            let error = block_error(fault)?;
            Ok(CommandEnd::Refused(error))
        }
    }
}

/// Makes the writes of a query, or is refused by its fault.
pub fn make_query(
    answer: Result<Writes, QueryFault>,
    sheet: &mut Worksheet,
    scene: &Scene,
    tally: &mut Tally,
) -> Result<CommandEnd, Memory>
    ensures { IfOk result (λ end. (told : Result (List Write) QueryFault) → IsAnswer QueryFault.Memory told answer →
        HasActedBy (made query_error told scene.entry.now)
        end sheet.old sheet.new tally.old.count tally.new.count) }
{
    match answer {
        Ok(writes) => make_writes(&writes, sheet, scene, tally),
        Err(fault) => {
            let error = query_error(fault)?;
            Ok(CommandEnd::Refused(error))
        }
    }
}
