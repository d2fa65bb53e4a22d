// What a prompt shows.
ghost use Rattle.std.specs.Prelude.{◌≡◌, ◌≤◌, length, take};
ghost use Rattle.room_keys.specs.menu.Ring.{items_line};
ghost use Rattle.room_keys.specs.prompt.Panel.{choice_line, name_of, panel, panel_by};
ghost use Rattle.room_keys.specs.prompt.Room.{choice_names};

use crate::pointing::reference_text;
use crate::prompt::following::next_ask;
use entry_line::EntryLine;
use lics_text::MAX_LEN;
use menu_tree::{Ask, prompt_name};
use session_rooms::{AnsweredCommand, Answering, Mode, Panel, Pointed, PromptRoom};

// The name of the present prompt.
fn name_of(command: &AnsweredCommand) -> &'static [u8]
    ensures name { result.now ≡ name_of command.now }
    ensures short { length result.now ≤ MAX_LEN }
{
    let name = prompt_name(command.action, command.answers.len());
    &name[..name.len().min(MAX_LEN)]
}

// The prompt with the pointed reference.
fn pointing_panel(command: &AnsweredCommand, pointed: &Pointed) -> Panel
    ensures { result ≡ panel_by (Answering.Pointing pointed.now) command.now }
{
    let reference = reference_text(pointed);
    let bytes = reference.bytes();
    Panel::of_line(Mode::Point, name_of(command), bytes, bytes.len() as u8)
}

// The prompt with the line that is typed or kept.
fn line_panel(command: &AnsweredCommand, line: &EntryLine) -> Panel
    ensures { result ≡ panel_by (Answering.Typing line.now) command.now }
{
    Panel::of_line(
        Mode::Edit,
        name_of(command),
        line.text(),
        line.cursor() as u8,
    )
}

// The two items of a choice.
fn choice_line(ask: Option<Ask>, highlight: usize) -> &'static [u8]
    ensures line { result.now ≡ choice_line ask highlight }
    ensures short { length result.now ≤ MAX_LEN }
{
    match (ask, highlight) {
        (Some(Ask::Replace), 0) => b"[Cancel] Replace ",
        (Some(Ask::Replace), 1) => b" Cancel [Replace]",
        (Some(Ask::Replace), _) => b" Cancel  Replace ",
        (Some(Ask::Confirm), 0) => b"[No] Yes ",
        (Some(Ask::Confirm), 1) => b" No [Yes]",
        (Some(Ask::Confirm), _) => b" No  Yes ",
        _ => b"",
    }
}

// The two items of a choice, one of them highlighted.
fn choosing_panel(command: &AnsweredCommand, highlight: usize) -> Panel
    ensures { result ≡ panel_by (Answering.Choosing highlight) command.now }
{
    let mut panel = Panel::of(Mode::Menu);
    panel
        .menu
        .put_all(choice_line(next_ask(command), highlight));
    panel
}

/// What is shown in a prompt: its name and the answer, in POINT the pointed reference, in EDIT the line that is typed
/// or kept; in MENU the two items of a choice.
pub fn panel(room: &PromptRoom) -> Panel
    ensures { result ≡ panel room.now }
{
    match &room.answering {
        Answering::Pointing(pointed) => pointing_panel(&room.command, pointed),
        Answering::Typing(line) => line_panel(&room.command, line),
        Answering::Kept(line) => line_panel(&room.command, line),
        Answering::Choosing(highlight) => choosing_panel(&room.command, *highlight),
    }
}
