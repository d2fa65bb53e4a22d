// The commands on columns.
ghost use Rattle.std.specs.Option.{ForSome};
ghost use Rattle.commands_worksheet.specs.inner.Acts.{HasOnlyActed};
ghost use Rattle.commands_worksheet.specs.Commands.{hidden_in, hides, widened, widens};
ghost use Rattle.commands_worksheet.specs.inner.Widths.{IsWidth};
ghost use Rattle.work_sheet.specs.Did.{DidEdit};

use command_desk::{CommandEnd, span_at, whole_at};
use grid_address::Span;
use menu_tree::{Action, WorksheetAction};
use session_rooms::Answers;
use work_sheet::Worksheet;

// The columns of a span are hidden, or shown.
fn hide_columns(hidden: bool, span: Span, sheet: &mut Worksheet)
    ensures { DidEdit (hidden_in hidden span) sheet.old sheet.new }
{
    let last = u16::from(span.last.col);
    let mut col = u16::from(span.first.col);
    while col <= last {
        sheet.set_hidden(col as u8, hidden);
        col += 1;
    }
}

/// Hides the columns of the span that is asked for, or shows them. The sheet is as it was where the answer is no span.
pub fn hide(hidden: bool, answers: &Answers, sheet: &mut Worksheet) -> CommandEnd
    ensures { HasOnlyActed (hides hidden answers.now) result sheet.old sheet.new }
{
    match span_at(sheet.names(), answers, 0) {
        Ok(span) => {
            hide_columns(hidden, span, sheet);
            CommandEnd::Finished
        }
        Err(error) => CommandEnd::Refused(error),
    }
}

/// The pointer's column takes a width of its own, 1 to 240, or none.
pub fn widen(width: Option<u8>, sheet: &mut Worksheet) -> CommandEnd
    requires { ForSome width IsWidth }
    ensures { HasOnlyActed (widened width) result sheet.old sheet.new }
{
    let col = sheet.settings().pointer.col;
    sheet.set_width(col, width);
    CommandEnd::Finished
}

/// The pointer's column takes the width that is asked for. The sheet is as it was where the answer is no number from 1
/// to 240.
pub fn set_width(answers: &Answers, sheet: &mut Worksheet) -> CommandEnd
    ensures { HasOnlyActed (widens answers.now) result sheet.old sheet.new }
{
    match whole_at(Action::Worksheet(WorksheetAction::SetWidth), answers, 0) {
        Ok(width) => widen(Some(width), sheet),
        Err(error) => CommandEnd::Refused(error),
    }
}
