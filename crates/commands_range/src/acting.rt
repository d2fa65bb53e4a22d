// Which command below Range is carried out.
ghost use Rattle.std.specs.Prelude.{IfOk};
ghost use Rattle.command_desk.specs.Acting.{HasActed};
ghost use Rattle.commands_range.specs.Commands.{act, erased, erased_span};
ghost use Rattle.commands_range.specs.inner.Works.{HasActedOn};
ghost use Rattle.work_sheet.specs.Seen.{of_worksheet};

use crate::formats::{decimals_of, formatted, marked};
use crate::labels::labelled;
use crate::naming::{create_name, delete_name, reset_names};
use crate::values::{Layout, valued};
use crate::work::Work;
use command_desk::{CommandEnd, FormatChoice, line_at, settled, span_at};
use formula_eval::Tally;
use formula_parts::Scene;
use grid_address::Span;
use lics_text::{LabelPrefix, Memory};
use menu_tree::RangeAction;
use session_rooms::Answers;
use work_sheet::Worksheet;

// The cells of a span become blank.
fn erased_span(span: Span, work: &mut Work<'_>) -> Result<CommandEnd, Memory>
    ensures { IfOk result (HasActedOn (erased_span span) work.old work.new) }
{
    let answer = work.sheet.erase(span);
    settled(answer, work.sheet, work.scene, work.tally)
}

// A span is erased.
fn erased(answers: &Answers, work: &mut Work<'_>) -> Result<CommandEnd, Memory>
    ensures { IfOk result (HasActedOn (erased answers.now) work.old work.new) }
{
    match span_at(work.sheet.names(), answers, 0) {
        Ok(span) => erased_span(span, work),
        Err(error) => Ok(CommandEnd::Refused(error)),
    }
}

/// Carries out a command below Range with its answers (Release 2 manual).
///
/// - Format gives the cells of the span a format, and Reset the sheet's. Protect and Unprotect set their protection
///   marks and take them away. Each keeps what the other sets, may be done while protection is on, and is no change of
///   contents: nothing is recalculated (this project's choice).
/// - Label gives the labels of the span another prefix, and writes no other cell: a protected cell without a label
///   doesn't refuse it, and a span without labels counts as changed all the same (this project's choice).
/// - Name, Create gives the span a name, and a name that is there the new span; Delete takes a name away, and Reset all
///   of them. No content changes: nothing is recalculated.
/// - Erase makes the cells of the span blank; they keep their formats. Blank cells are written too (this project's
///   choice), and a cell of which the sheet holds nothing is protected.
/// - Value writes the values and the formats of the span from the cell on that the second answer is, and Transpose with
///   rows and columns exchanged. A text is written as a label with `'`, ERR as `@ERR` and NA as `@NA`; blank cells are
///   written too (this project's choice). All is read before a cell is written.
///
/// In Automatic mode a recalculation follows Label, Erase, Value and Transpose; where there is no memory for it, the
/// edit stands.
///
/// A command is refused by the first of these, and then leaves the sheet as it was: `InvalidNumber`, where the decimals
/// aren't a whole number from 0 to 15; `InvalidName`, where the first answer is to be a name and can't be one;
/// `NameNotFound`, where the name to delete isn't there; `InvalidAddress` or `NameNotFound` for the span, and then for
/// the cell; `OutOfSheet` with the span, where its values would leave the sheet; `Protected` with the first cell in row
/// order that Label, Erase, Value or Transpose would write and that is protected, where protection is on.
pub fn act(
    action: RangeAction,
    answers: &Answers,
    sheet: &mut Worksheet,
    scene: &Scene,
    tally: &mut Tally,
) -> Result<CommandEnd, Memory>
    ensures { IfOk result (λ end. HasActed (act answers.now scene.entry.now (of_worksheet sheet.old) action)
        end sheet.old sheet.new tally.old.count tally.new.count) }
{
    let mut work = Work {
        sheet,
        scene,
        tally,
    };
    act_on(action, answers, &mut work)
}

// Carries out a command below Range.
fn act_on(action: RangeAction, answers: &Answers, work: &mut Work<'_>) -> Result<CommandEnd, Memory>
    ensures { IfOk result (HasActedOn (λ scene s. act answers.now scene s action) work.old work.new) }
{
    match action {
        RangeAction::Erase => erased(answers, work),
        RangeAction::Protect => marked(true, answers, work.sheet),
        RangeAction::Unprotect => marked(false, answers, work.sheet),
        RangeAction::Fixed => match decimals_of(action, answers) {
            Ok(decimals) => formatted(FormatChoice::Fixed(decimals), 1, answers, work.sheet),
            Err(error) => Ok(CommandEnd::Refused(error)),
        },
        RangeAction::Currency => match decimals_of(action, answers) {
            Ok(decimals) => formatted(FormatChoice::Currency(decimals), 1, answers, work.sheet),
            Err(error) => Ok(CommandEnd::Refused(error)),
        },
        RangeAction::Comma => match decimals_of(action, answers) {
            Ok(decimals) => formatted(FormatChoice::Comma(decimals), 1, answers, work.sheet),
            Err(error) => Ok(CommandEnd::Refused(error)),
        },
        RangeAction::Percent => match decimals_of(action, answers) {
            Ok(decimals) => formatted(FormatChoice::Percent(decimals), 1, answers, work.sheet),
            Err(error) => Ok(CommandEnd::Refused(error)),
        },
        RangeAction::General => formatted(FormatChoice::General, 0, answers, work.sheet),
        RangeAction::Text => formatted(FormatChoice::Text, 0, answers, work.sheet),
        RangeAction::Hidden => formatted(FormatChoice::Hidden, 0, answers, work.sheet),
        RangeAction::Reset => formatted(FormatChoice::Default, 0, answers, work.sheet),
        RangeAction::Date1 => formatted(FormatChoice::Date1, 0, answers, work.sheet),
        RangeAction::Date2 => formatted(FormatChoice::Date2, 0, answers, work.sheet),
        RangeAction::Date3 => formatted(FormatChoice::Date3, 0, answers, work.sheet),
        RangeAction::LabelLeft => labelled(LabelPrefix::Left, answers, work),
        RangeAction::LabelRight => labelled(LabelPrefix::Right, answers, work),
        RangeAction::LabelCenter => labelled(LabelPrefix::Center, answers, work),
        RangeAction::NameCreate => create_name(answers, work.sheet),
        RangeAction::NameDelete => delete_name(line_at(answers, 0), work.sheet),
        RangeAction::NameReset => Ok(reset_names(work.sheet)),
        RangeAction::Value => valued(Layout::Straight, answers, work),
        RangeAction::Transpose => valued(Layout::Turned, answers, work),
    }
}
