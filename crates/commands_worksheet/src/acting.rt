// What each command below Worksheet does.
ghost use Rattle.std.specs.Prelude.{IfOk};
ghost use Rattle.command_desk.specs.Acting.{finished, HasActedBy};
ghost use Rattle.commands_worksheet.specs.inner.Acts.{HasOnlyActed};
ghost use Rattle.commands_worksheet.specs.Commands.{act, erased, sets};
ghost use Rattle.work_sheet.specs.Editing.{reordered};

use crate::columns::{hide, set_width, widen};
use crate::lines::{LineEdit, edit_lines};
use crate::settings::settings_after;
use command_desk::{CommandEnd, settle};
use formula_eval::Tally;
use formula_parts::Scene;
use lics_text::Memory;
use menu_tree::WorksheetAction;
use session_rooms::Answers;
use sheet_store::Order;
use work_sheet::Worksheet;

// The settings are changed.
fn set(action: WorksheetAction, answers: &Answers, sheet: &mut Worksheet) -> CommandEnd
    ensures { HasOnlyActed (sets action answers.now) result sheet.old sheet.new }
{
    match settings_after(action, answers, *sheet.settings()) {
        Ok(settings) => {
            sheet.set_settings(settings);
            CommandEnd::Finished
        }
        Err(error) => CommandEnd::Refused(error),
    }
}

// The order of recalculation becomes this one.
fn reorder(order: Order, sheet: &mut Worksheet) -> Result<CommandEnd, Memory>
    ensures { IfOk result (λ end. HasOnlyActed (λ s. finished (reordered order s)) end sheet.old sheet.new) }
{
    sheet.set_order(order)?;
    Ok(CommandEnd::Finished)
}

// A fresh sheet takes the place of this one.
fn erase(sheet: &mut Worksheet, scene: &Scene, tally: &mut Tally) -> Result<CommandEnd, Memory>
    ensures { IfOk result (λ end.
        HasActedBy (erased scene.entry.now) end sheet.old sheet.new tally.old.count tally.new.count) }
{
    sheet.take_fresh();
    settle(sheet, scene, tally)?;
    Ok(CommandEnd::Finished)
}

/// Carries out a command below Worksheet, by its answers (Release 2 manual):
/// - Global, Format, Label-Prefix and Column-Width set the sheet's format, prefix and width. Recalculation sets the
///   order, the mode and the passes of a recalculation; another order than before makes all formulas dirty. Protection
///   turns protection on or off.
/// - Column, Set-Width and Reset-Width give the pointer's column a width of its own or take it away; Hide and Display
///   hide the columns of a range or show them.
/// - Insert and Delete, Column and Row insert or delete as many columns or rows as the range has, where it stands.
///   References, names and what columns have of their own follow.
/// - Erase gives a fresh sheet: no cell, no name, the settings of a fresh sheet, and the pointer in A1. As behind each
///   edit of contents all is recalculated, since a fresh sheet is in Automatic mode.
///
/// In Automatic mode a recalculation follows Insert and Delete. No other of these commands recalculates, also where the
/// mode, the order or the passes change, and protection refuses none of the others, Erase included (this project's
/// choice). There are 0 to 15 decimals, a width is 1 to 240, and 1 to 50 passes are made (the most passes are this
/// project's choice).
///
/// `InvalidNumber` comes exactly where a number is asked for and its answer is none within these bounds,
/// `InvalidAddress` and `NameNotFound` where a range is asked for and its answer is none, as `span_at` says. Insert and
/// Delete are then refused by `Protected`, which names the first cell of the first line, wherever protection is on, and
/// Insert by `PushedOff` with the first filled cell that would leave the sheet. A refused command leaves the sheet as
/// it was.
pub fn act(
    action: WorksheetAction,
    answers: &Answers,
    sheet: &mut Worksheet,
    scene: &Scene,
    tally: &mut Tally,
) -> Result<CommandEnd, Memory>
    ensures { IfOk result (λ end.
        HasActedBy (act action answers.now scene.entry.now) end sheet.old sheet.new tally.old.count tally.new.count) }
{
    match action {
        WorksheetAction::Natural => reorder(Order::Natural, sheet),
        WorksheetAction::Columnwise => reorder(Order::Columnwise, sheet),
        WorksheetAction::Rowwise => reorder(Order::Rowwise, sheet),
        WorksheetAction::InsertColumn => {
            edit_lines(LineEdit::InsertColumns, answers, sheet, scene, tally)
        }
        WorksheetAction::InsertRow => {
            edit_lines(LineEdit::InsertRows, answers, sheet, scene, tally)
        }
        WorksheetAction::DeleteColumn => {
            edit_lines(LineEdit::DeleteColumns, answers, sheet, scene, tally)
        }
        WorksheetAction::DeleteRow => {
            edit_lines(LineEdit::DeleteRows, answers, sheet, scene, tally)
        }
        WorksheetAction::SetWidth => Ok(set_width(answers, sheet)),
        WorksheetAction::ResetWidth => Ok(widen(None, sheet)),
        WorksheetAction::Hide => Ok(hide(true, answers, sheet)),
        WorksheetAction::Display => Ok(hide(false, answers, sheet)),
        WorksheetAction::Erase => erase(sheet, scene, tally),
        _ => Ok(set(action, answers, sheet)),
    }
}
