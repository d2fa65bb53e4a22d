// What a command comes to.
ghost use Rattle.std.specs.Prelude.{◌≡◌, IfOk, OnErr, OnOk, Some};
ghost use Rattle.command_desk.specs.Acting.{error_of, refusal_of, HasSettled};
ghost use Rattle.command_desk.specs.declared.ending.CommandEnd.TheVariants as ends;
ghost use Rattle.sheet_store.specs.declared.writes.SheetFault.TheVariants as sheet_faults;

use crate::settling::settle;
use desk_errors::CommandError;
use formula_eval::Tally;
use formula_parts::Scene;
use lics_text::Memory;
use sheet_store::SheetFault;
use work_sheet::Worksheet;

/// What a command came to.
#[derive(Clone, Copy)]
pub enum CommandEnd {
    /// It was carried out.
    Finished,
    /// It was carried out, and ends the run.
    Quits,
    /// It was refused, and the desk is as it was.
    Refused(CommandError),
}

/// The desk's error of a fault of the sheet, by which the command is refused. `Memory` comes exactly of want of memory.
/// (This project's own choice.)
pub fn sheet_error(fault: SheetFault) -> Result<CommandError, Memory>
    ensures error { IfOk result (λ e. e ≡ error_of fault) }
    ensures refused { IfOk result (λ e. refusal_of fault ≡ Some (ends.Refused e)) }
    ensures told { OnOk result (fault ≡ sheet_faults.Memory → ⊥) }
    ensures memory { OnErr result (fault ≡ sheet_faults.Memory) }
{
    match fault {
        SheetFault::Protected(cell) => Ok(CommandError::Protected(cell)),
        SheetFault::PushedOff(cell) => Ok(CommandError::PushedOff(cell)),
        SheetFault::OutOfSheet(span) => Ok(CommandError::OutOfSheet(span)),
        SheetFault::Memory => Err(Memory),
    }
}

// A refused edit of the sheet is the command's refusal.
fn refusal(fault: SheetFault) -> Result<CommandEnd, Memory>
    ensures { IfOk result (λ end. refusal_of fault ≡ Some end) }
{
    let error = sheet_error(fault)?;
    Ok(CommandEnd::Refused(error))
}

/// What an edit of contents comes to, by its answer: where it was made, a recalculation follows in Automatic mode.
pub fn settled(
    answer: Result<(), SheetFault>,
    sheet: &mut Worksheet,
    scene: &Scene,
    tally: &mut Tally,
) -> Result<CommandEnd, Memory>
    ensures { IfOk result
        (λ end. HasSettled answer scene.entry.now end sheet.old sheet.new tally.old.count tally.new.count) }
{
    match answer {
        Ok(()) => {
            settle(sheet, scene, tally)?;
            Ok(CommandEnd::Finished)
        }
        Err(fault) => refusal(fault),
    }
}
