// What is kept for reports.
ghost use Rattle.std.specs.Prelude.{◌≡◌, ℕ, IfOk};
ghost use Rattle.command_desk.specs.Acting.{HasActedOn};
ghost use Rattle.command_desk.specs.Answered.{line_at, span_at};
ghost use Rattle.command_desk.specs.Desks.{of_desk};
ghost use Rattle.command_desk.specs.OnDesk.{given};
ghost use Rattle.commands_file.specs.Commands.{named};
ghost use Rattle.commands_print.specs.Kept.{file_kept, item_of, kept, number_kept, number_set, text_set};
ghost use Rattle.commands_print.specs.Kept.{with_range, with_text};
ghost use Rattle.outside_world.specs.declared.file_name.Ext.TheVariants as ext;

use command_desk::{CommandEnd, Desk, PrintSettings, line_at, span_at, whole_at};
use desk_errors::CommandError;
use lics_text::{Memory, Text};
use menu_tree::{Action, PrintAction};
use outside_world::{Ext, FileName};
use session_rooms::Answers;
use std::alloc::Global;

/// Which number of a page's layout is kept: a margin, or how many lines a page has.
#[derive(Clone, Copy)]
pub enum NumberSetting {
    Left,
    Right,
    Top,
    Bottom,
    Length,
}

/// Which text of a page's layout is kept.
#[derive(Clone, Copy)]
pub enum TextSetting {
    Header,
    Footer,
}

// Keeps a number of the layout.
fn put_number(kind: NumberSetting, number: u8, set: &mut PrintSettings)
    ensures { set.new ≡ number_set kind number set.old }
{
    match kind {
        NumberSetting::Left => set.left = number,
        NumberSetting::Right => set.right = number,
        NumberSetting::Top => set.top = number,
        NumberSetting::Bottom => set.bottom = number,
        NumberSetting::Length => set.length = number,
    }
}

// Keeps a text of the layout.
fn put_text(kind: TextSetting, text: Text, set: &mut PrintSettings)
    ensures { set.new ≡ text_set kind text set.old }
{
    match kind {
        TextSetting::Header => set.header = text,
        TextSetting::Footer => set.footer = text,
    }
}

// The answer as a text; the empty one where it wasn't given.
fn text_at(alloc: Global, answers: &Answers) -> Result<Text, Memory>
    ensures { IfOk result (λ text. text ≡ line_at answers.now 0) }
{
    match answers.get(0) {
        Some(answer) => answer.copy(),
        None => Text::copy_of(alloc, b""),
    }
}

/// Keeps the file that the answer names. It is refused by `InvalidFileName` alone.
pub fn keep_file(answers: &Answers, desk: &mut Desk) -> CommandEnd
    ensures { (n : ℕ) → HasActedOn (file_kept (named ext.Prn answers.now) (of_desk desk.old)) result
        desk.old desk.new n n }
{
    match FileName::with(line_at(answers, 0), Ext::Prn) {
        Some(name) => {
            desk.print.file = Some(name);
            CommandEnd::Finished
        }
        None => CommandEnd::Refused(CommandError::InvalidFileName(0)),
    }
}

/// Keeps the span that the answer is. It is refused by the errors of `span_at` alone.
pub fn keep_range(answers: &Answers, desk: &mut Desk) -> CommandEnd
    ensures { let before = of_desk desk.old in
        let span = span_at desk.old.sheet.names answers.now 0 in (n : ℕ) →
        HasActedOn (given span (λ s. kept (with_range s) before) before) result desk.old desk.new n n }
{
    match span_at(desk.sheet.names(), answers, 0) {
        Ok(span) => {
            desk.print.range = Some(span);
            CommandEnd::Finished
        }
        Err(error) => CommandEnd::Refused(error),
    }
}

// The item that keeps a number.
fn item_of(kind: NumberSetting) -> PrintAction
    ensures { result ≡ item_of kind }
{
    match kind {
        NumberSetting::Left => PrintAction::MarginLeft,
        NumberSetting::Right => PrintAction::MarginRight,
        NumberSetting::Top => PrintAction::MarginTop,
        NumberSetting::Bottom => PrintAction::MarginBottom,
        NumberSetting::Length => PrintAction::PageLength,
    }
}

/// Keeps the number that the answer is. It is refused by the error of `whole_at` alone.
pub fn keep_number(kind: NumberSetting, answers: &Answers, desk: &mut Desk) -> CommandEnd
    ensures { (n : ℕ) → HasActedOn (number_kept kind answers.now (of_desk desk.old)) result desk.old desk.new n n }
{
    let action = Action::Print(item_of(kind));
    match whole_at(action, answers, 0) {
        Ok(number) => {
            put_number(kind, number, &mut desk.print.set);
            CommandEnd::Finished
        }
        Err(error) => CommandEnd::Refused(error),
    }
}

/// Keeps the text that the answer is.
pub fn keep_text(
    kind: TextSetting,
    answers: &Answers,
    desk: &mut Desk,
) -> Result<CommandEnd, Memory>
    ensures { IfOk result (λ end. (n : ℕ) → HasActedOn
        (kept (with_text kind (line_at answers.now 0)) (of_desk desk.old)) end desk.old desk.new n n) }
{
    let text = text_at(desk.sheet.alloc(), answers)?;
    put_text(kind, text, &mut desk.print.set);
    Ok(CommandEnd::Finished)
}
