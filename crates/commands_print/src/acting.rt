// Which command below Print is carried out.
ghost use Rattle.std.specs.Prelude.{◌≡◌, ℕ, IfOk, OnErr};
ghost use Rattle.command_desk.specs.Desks.{of_desk};
ghost use Rattle.commands_file.specs.Calls.{shelf_view};
ghost use Rattle.commands_file.specs.Commands.{HasActedOver, HasBrokenIn};
ghost use Rattle.commands_print.specs.Commands.{act, HoldsReport};

use crate::keeping::{NumberSetting, TextSetting, keep_file, keep_number, keep_range, keep_text};
use crate::printing::print;
use command_desk::{CommandEnd, Desk};
use formula_parts::Scene;
use menu_tree::PrintAction;
use outside_world::{Memory, Shelf};
use session_rooms::Answers;

/// Carries out a command below Print with its answers (Release 2 manual for the menus, this project's choice for the
/// numbers).
///
/// - File, Range, Header, Footer, Pg-Length and the four margins keep what they are answered. Nothing else changes what
///   they keep, and no file of a worksheet holds it.
/// - Go prints the range, as `report` tells, and writes the report to the file with one call of the shelf, `put`. The
///   file holds the report where Go was carried out, and the shelf tells its files.
/// - Quit of Options and of Margins does nothing.
///
/// `InvalidFileName`, `InvalidAddress`, `NameNotFound` and `InvalidNumber` come where an answer can't be what is asked
/// for, as `test_answer` tells. Go is refused by the first of these: `PrintRangeMissing`, exactly where no range
/// is kept; `PageTooSmall` and `ReportTooLong`, with the causes of `report`; `InvalidFileName`, where no file is kept,
/// to which the menus never come; and `DiskError`, exactly where the call failed, and the shelf's count of faults rose
/// in it. A refused command leaves the desk as it was. After want of memory no file but the one that Go writes has
/// changed, and where another command than Go was carried out none.
pub fn act<S: Shelf>(
    action: PrintAction,
    answers: &Answers,
    desk: &mut Desk,
    shelf: &mut S,
    scene: &Scene,
) -> Result<CommandEnd, Memory>
    ensures acted { IfOk result (λ end. (n : ℕ) → HasActedOver
        (act action answers.now scene.entry.now (of_desk desk.old)) end desk.old desk.new n n
        (shelf_view (S.holds shelf.old) (S.faults shelf.old)) (shelf_view (S.holds shelf.new) (S.faults shelf.new))) }
    ensures report { IfOk result (λ end. end ≡ CommandEnd.Finished → action ≡ PrintAction.Go →
        HoldsReport scene.entry.now (of_desk desk.old) (S.holds shelf.new)) }
    ensures memory { OnErr result (HasBrokenIn (act action answers.now scene.entry.now (of_desk desk.old))
        (shelf_view (S.holds shelf.old) (S.faults shelf.old)) (shelf_view (S.holds shelf.new) (S.faults shelf.new))) }
{
    match action {
        PrintAction::File => Ok(keep_file(answers, desk)),
        PrintAction::Range => Ok(keep_range(answers, desk)),
        PrintAction::Go => print(desk, shelf, scene),
        PrintAction::Header => keep_text(TextSetting::Header, answers, desk),
        PrintAction::Footer => keep_text(TextSetting::Footer, answers, desk),
        PrintAction::PageLength => Ok(keep_number(NumberSetting::Length, answers, desk)),
        PrintAction::LeaveOptions => Ok(CommandEnd::Finished),
        PrintAction::MarginLeft => Ok(keep_number(NumberSetting::Left, answers, desk)),
        PrintAction::MarginRight => Ok(keep_number(NumberSetting::Right, answers, desk)),
        PrintAction::MarginTop => Ok(keep_number(NumberSetting::Top, answers, desk)),
        PrintAction::MarginBottom => Ok(keep_number(NumberSetting::Bottom, answers, desk)),
        PrintAction::LeaveMargins => Ok(CommandEnd::Finished),
    }
}
