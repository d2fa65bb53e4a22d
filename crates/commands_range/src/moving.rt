// Moves of spans.
ghost use Rattle.std.specs.Prelude.{IfOk};
ghost use Rattle.command_desk.specs.Acting.{moved_by, HasActedBy};
ghost use Rattle.commands_range.specs.Commands.{moved};
ghost use Rattle.commands_range.specs.inner.Works.{HasActedOn};
ghost use Rattle.sheet_shifts.specs.declared.shift.Shift.TheVariants.{Block};

use crate::work::Work;
use command_desk::{CommandEnd, cell_at, move_cells, span_at};
use formula_eval::Tally;
use formula_parts::Scene;
use grid_address::{Cell, Span};
use lics_text::Memory;
use session_rooms::Answers;
use sheet_shifts::Shift;
use work_sheet::Worksheet;

// A span is moved so that its first corner comes to a cell.
fn move_to(from: Span, to: Cell, work: &mut Work<'_>) -> Result<CommandEnd, Memory>
    ensures { IfOk result (HasActedOn (moved_by (Block from to)) work.old work.new) }
{
    let shift = Shift::Block(from, to);
    move_cells(&shift, work.sheet, work.scene, work.tally)
}

/// Carries out Move: the cells of the span that the first answer is go to the span of its size whose first cell the
/// second answer is, with their contents, values and formats; references and names follow. In Automatic mode a
/// recalculation follows (Release 2 manual).
///
/// It is refused by the first of these, and then leaves the sheet as it was: `InvalidAddress` or `NameNotFound` for the
/// source, then for the target; `OutOfSheet` with the source, where it would leave the sheet; `Protected` with the
/// first cell in row order of the source and the target that is protected, where protection is on.
pub fn move_span(
    answers: &Answers,
    sheet: &mut Worksheet,
    scene: &Scene,
    tally: &mut Tally,
) -> Result<CommandEnd, Memory>
    ensures { IfOk result (λ end. HasActedBy (moved answers.now scene.entry.now)
        end sheet.old sheet.new tally.old.count tally.new.count) }
{
    let mut work = Work {
        sheet,
        scene,
        tally,
    };
    move_on(answers, &mut work)
}

// Carries out Move.
fn move_on(answers: &Answers, work: &mut Work<'_>) -> Result<CommandEnd, Memory>
    ensures { IfOk result (HasActedOn (moved answers.now) work.old work.new) }
{
    match span_at(work.sheet.names(), answers, 0) {
        Ok(from) => match cell_at(work.sheet.names(), answers, 1) {
            Ok(to) => move_to(from, to, work),
            Err(error) => Ok(CommandEnd::Refused(error)),
        },
        Err(error) => Ok(CommandEnd::Refused(error)),
    }
}
