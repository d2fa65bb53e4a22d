// Lists of writes, as commands.
ghost use Rattle.std.specs.Prelude.{IfOk};
ghost use Rattle.command_desk.specs.Acting.{HasActedBy};
ghost use Rattle.command_desk.specs.Writing.{all_made};

use crate::ending::{CommandEnd, settled};
use formula_eval::Tally;
use formula_parts::Scene;
use lics_text::Memory;
use sheet_store::Writes;
use work_sheet::Worksheet;

/// Makes a list of writes in their order, after which all is recalculated in Automatic mode. It is refused by
/// `Protected` with the first written cell in row order that is protected, where protection is on, and then leaves the
/// sheet as it was.
pub fn make_writes(
    writes: &Writes,
    sheet: &mut Worksheet,
    scene: &Scene,
    tally: &mut Tally,
) -> Result<CommandEnd, Memory>
    ensures { IfOk result (λ end. HasActedBy (all_made writes.now scene.entry.now)
        end sheet.old sheet.new tally.old.count tally.new.count) }
{
    let answer = sheet.write(writes);
    settled(answer, sheet, scene, tally)
}
