// Columns and rows that come in and go.
ghost use Rattle.std.specs.Prelude.{◌≡◌, IfOk};
ghost use Rattle.command_desk.specs.Acting.{moved_by, HasActedBy};
ghost use Rattle.commands_worksheet.specs.Commands.{change_of, line_edited};
ghost use Rattle.ref_adjust.specs.Lines.{IsChange};
ghost use Rattle.sheet_shifts.specs.declared.shift.Shift.TheVariants.{Lines};

use command_desk::{CommandEnd, move_cells, span_at};
use formula_eval::Tally;
use formula_parts::Scene;
use grid_address::Span;
use lics_text::Memory;
use ref_adjust::Change;
use session_rooms::Answers;
use sheet_shifts::Shift;
use work_sheet::Worksheet;

/// What becomes of the columns or the rows that a span has.
#[derive(Clone, Copy)]
pub enum LineEdit {
    InsertColumns,
    InsertRows,
    DeleteColumns,
    DeleteRows,
}

// The change of columns or rows.
fn change_of(edit: LineEdit, span: Span) -> Change
    ensures change { result ≡ change_of edit span }
    ensures fits { IsChange result }
{
    let columns = span.width();
    let rows = span.height();
    match edit {
        LineEdit::InsertColumns => Change::InsertColumns(u16::from(span.first.col), columns),
        LineEdit::InsertRows => Change::InsertRows(span.first.row, rows),
        LineEdit::DeleteColumns => Change::DeleteColumns(u16::from(span.first.col), columns),
        LineEdit::DeleteRows => Change::DeleteRows(span.first.row, rows),
    }
}

// The columns or the rows of a span come in or go.
fn edit_span(
    edit: LineEdit,
    span: Span,
    sheet: &mut Worksheet,
    scene: &Scene,
    tally: &mut Tally,
) -> Result<CommandEnd, Memory>
    ensures { IfOk result (λ end. HasActedBy (moved_by (Lines (change_of edit span)) scene.entry.now)
        end sheet.old sheet.new tally.old.count tally.new.count) }
{
    let shift = Shift::Lines(change_of(edit, span));
    move_cells(&shift, sheet, scene, tally)
}

/// Inserts or deletes as many columns or rows as the span has that is asked for, where it stands, with the errors of
/// `span_at` and then of `move_cells`.
pub fn edit_lines(
    edit: LineEdit,
    answers: &Answers,
    sheet: &mut Worksheet,
    scene: &Scene,
    tally: &mut Tally,
) -> Result<CommandEnd, Memory>
    ensures { IfOk result (λ end. HasActedBy (line_edited edit answers.now scene.entry.now)
        end sheet.old sheet.new tally.old.count tally.new.count) }
{
    match span_at(sheet.names(), answers, 0) {
        Ok(span) => edit_span(edit, span, sheet, scene, tally),
        Err(error) => Ok(CommandEnd::Refused(error)),
    }
}
