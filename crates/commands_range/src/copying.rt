// Copies of spans.
ghost use Rattle.std.specs.Prelude.{IfOk};
ghost use Rattle.command_desk.specs.Acting.{HasActedBy};
ghost use Rattle.commands_range.specs.Commands.{copied, copied_onto};
ghost use Rattle.commands_range.specs.inner.Works.{HasActedOn};
ghost use Rattle.sheet_edits.specs.Spans.{target_of};

use crate::work::Work;
use command_desk::{CommandEnd, settled, span_at};
use formula_eval::Tally;
use formula_parts::Scene;
use grid_address::Span;
use lics_text::Memory;
use session_rooms::Answers;
use work_sheet::Worksheet;

// A span is copied onto another, where the copy lies in the sheet.
fn copied_onto(from: Span, to: Span, work: &mut Work<'_>) -> Result<CommandEnd, Memory>
    ensures { IfOk result (HasActedOn (copied_onto (target_of from to) from) work.old work.new) }
{
    let answer = work.sheet.copy_span(from, to);
    settled(answer, work.sheet, work.scene, work.tally)
}

/// Carries out Copy: the contents and the formats of the span that the first answer is go to the span that the second
/// is; the relative references of formulas follow them. A source of one column is repeated across the columns of the
/// target, and one of one row down its rows; otherwise one copy stands at the target's first cell. In Automatic mode a
/// recalculation follows (Release 2 manual); where there is no memory for it, the copy stands.
///
/// It is refused by the first of these, and then leaves the sheet as it was: `InvalidAddress` or `NameNotFound` for the
/// source, then for the target; `OutOfSheet` with the source, where the copy would leave the sheet; `Protected` with
/// the first cell in row order that would be written and is protected, where protection is on. Blank cells are written
/// too (this project's choice), and a cell of which the sheet holds nothing is protected.
pub fn copy(
    answers: &Answers,
    sheet: &mut Worksheet,
    scene: &Scene,
    tally: &mut Tally,
) -> Result<CommandEnd, Memory>
    ensures { IfOk result (λ end. HasActedBy (copied answers.now scene.entry.now)
        end sheet.old sheet.new tally.old.count tally.new.count) }
{
    let mut work = Work {
        sheet,
        scene,
        tally,
    };
    copy_on(answers, &mut work)
}

// Carries out Copy.
fn copy_on(answers: &Answers, work: &mut Work<'_>) -> Result<CommandEnd, Memory>
    ensures { IfOk result (HasActedOn (copied answers.now) work.old work.new) }
{
    match span_at(work.sheet.names(), answers, 0) {
        Ok(from) => match span_at(work.sheet.names(), answers, 1) {
            Ok(to) => copied_onto(from, to, work),
            Err(error) => Ok(CommandEnd::Refused(error)),
        },
        Err(error) => Ok(CommandEnd::Refused(error)),
    }
}
