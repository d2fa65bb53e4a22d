// Edits that move cells, as commands.
ghost use Rattle.std.specs.Prelude.{IfOk};
ghost use Rattle.command_desk.specs.Acting.{moved_by, HasActedBy};
ghost use Rattle.sheet_shifts.specs.Refusals.{AreInSheet};

use crate::ending::{CommandEnd, settled};
use formula_eval::Tally;
use formula_parts::Scene;
use lics_text::Memory;
use sheet_shifts::Shift;
use work_sheet::Worksheet;

/// Moves cells, after which all is recalculated in Automatic mode. It is refused by the fault of `Sheet::shift`, and
/// then leaves the sheet as it was.
pub fn move_cells(
    shift: &Shift,
    sheet: &mut Worksheet,
    scene: &Scene,
    tally: &mut Tally,
) -> Result<CommandEnd, Memory>
    requires { AreInSheet shift.now }
    ensures { IfOk result (λ end. HasActedBy (moved_by shift.now scene.entry.now)
        end sheet.old sheet.new tally.old.count tally.new.count) }
{
    let answer = sheet.shift(shift);
    settled(answer, sheet, scene, tally)
}
