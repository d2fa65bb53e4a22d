// The area that carries a command out.
ghost use Rattle.std.specs.Prelude.{ℕ, IfOk, OnErr};
ghost use Rattle.command_desk.specs.Acting.{HasActedBy};
ghost use Rattle.command_desk.specs.Desks.{of_desk};
ghost use Rattle.commands_file.specs.Calls.{shelf_view};
ghost use Rattle.commands_file.specs.Commands.{HasActedOver, HasBrokenIn};
ghost use Rattle.session_core.specs.Act.{act, act_common, gone_to};

use command_desk::{CommandEnd, Desk, cell_at};
use formula_eval::Tally;
use formula_parts::Scene;
use lics_text::Memory;
use menu_tree::{Action, CommonAction};
use outside_world::Shelf;
use session_rooms::{AnsweredCommand, Answers};
use sheet_store::Settings;
use work_sheet::Worksheet;

// The pointer goes to the cell that the answer is.
fn go_to(answers: &Answers, sheet: &mut Worksheet) -> CommandEnd
    ensures { (n : ℕ) → HasActedBy (gone_to answers.now) result sheet.old sheet.new n n }
{
    match cell_at(sheet.names(), answers, 0) {
        Ok(pointer) => {
            let settings = *sheet.settings();
            sheet.set_settings(Settings {
                pointer,
                ..settings
            });
            CommandEnd::Finished
        }
        Err(error) => CommandEnd::Refused(error),
    }
}

// A command beside the areas of the main menu.
fn act_common(
    action: CommonAction,
    answers: &Answers,
    sheet: &mut Worksheet,
    scene: &Scene,
    tally: &mut Tally,
) -> Result<CommandEnd, Memory>
    ensures { IfOk result (λ end. HasActedBy (act_common action answers.now scene.entry.now)
        end sheet.old sheet.new tally.old.count tally.new.count) }
{
    match action {
        CommonAction::No | CommonAction::Cancel | CommonAction::Leave => Ok(CommandEnd::Finished),
        CommonAction::Copy => commands_range::copy(answers, sheet, scene, tally),
        CommonAction::Move => commands_range::move_span(answers, sheet, scene, tally),
        CommonAction::QuitYes => Ok(CommandEnd::Quits),
        CommonAction::Goto => Ok(go_to(answers, sheet)),
    }
}

/// Carries a command out, once it has all its answers, with the recalculation that follows it and the one call of the
/// shelf that a command of files makes, and Go of a report. A refused command leaves the desk as it was: its cause is
/// the first that is found, in the order in which the areas tell them; `DiskError` comes exactly where the shelf
/// failed. After want of memory the sheet is open, but keeps what it keeps, and no file has changed but by the
/// command's own call.
pub fn act<S: Shelf>(
    command: &AnsweredCommand,
    desk: &mut Desk,
    shelf: &mut S,
    scene: &Scene,
    tally: &mut Tally,
) -> Result<CommandEnd, Memory>
    ensures acted { let acts = act command.now.action command.now.answers scene.entry.now (of_desk desk.old) in
        IfOk result (λ end. HasActedOver acts end desk.old desk.new tally.old.count tally.new.count
        (shelf_view (S.holds shelf.old) (S.faults shelf.old)) (shelf_view (S.holds shelf.new) (S.faults shelf.new))) }
    ensures memory { let acts = act command.now.action command.now.answers scene.entry.now (of_desk desk.old) in
        OnErr result (HasBrokenIn acts
        (shelf_view (S.holds shelf.old) (S.faults shelf.old)) (shelf_view (S.holds shelf.new) (S.faults shelf.new))) }
{
    let answers = &command.answers;
    match command.action {
        Action::Common(action) => act_common(action, answers, &mut desk.sheet, scene, tally),
        Action::Worksheet(action) => {
            commands_worksheet::act(action, answers, &mut desk.sheet, scene, tally)
        }
        Action::Range(action) => {
            commands_range::act(action, answers, &mut desk.sheet, scene, tally)
        }
        Action::File(action) => commands_file::act(action, answers, desk, shelf, scene, tally),
        Action::Data(action) => commands_data::act(action, answers, desk, scene, tally),
        Action::Print(action) => commands_print::act(action, answers, desk, shelf, scene),
    }
}
