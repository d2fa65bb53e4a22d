// How a prompt begins.
ghost use Rattle.std.specs.Prelude.{◌≡◌, Some};
ghost use Rattle.room_keys.specs.pointing.Pointing.{anchored_at, pointed_at};
ghost use Rattle.room_keys.specs.prompt.Opening.{file_answering, kept_or_typed, line_in, next_ask, opened_by, opening};

use entry_line::EntryLine;
use grid_address::Cell;
use menu_tree::{Action, Ask, FileAction, prompts};
use outside_world::FileName;
use session_rooms::{AnsweredCommand, Answering, Pointed, Signs, fits_line};

/// What follows where a command has some answers.
#[derive(Drop)]
pub enum WhatFollows {
    /// Its next prompt is answered so.
    Asks(Answering),
    /// The shelf is asked whether the file is there.
    Looks,
    /// It has all answers.
    Acts,
}

/// What the next prompt asks for.
pub(crate) fn next_ask(command: &AnsweredCommand) -> Option<Ask>
    ensures { result ≡ next_ask command.now }
{
    prompts(command.action).get(command.answers.len()).copied()
}

// A cell that is pointed at, without an anchor.
fn pointed_at(cell: Cell) -> Pointed
    ensures { result ≡ pointed_at cell }
{
    Pointed {
        corner: cell,
        anchor: None,
        signs: Signs::None,
    }
}

// A cell that is pointed at, and anchored.
fn anchored_at(cell: Cell) -> Pointed
    ensures { result ≡ anchored_at cell }
{
    Pointed {
        corner: cell,
        anchor: Some(cell),
        signs: Signs::None,
    }
}

/// The line of a name, where there is one.
pub(crate) fn line_in(name: &[u8]) -> Option<EntryLine>
    ensures { result ≡ line_in (Some name.now) }
{
    if fits_line(name) {
        Some(EntryLine::new(name))
    } else {
        None
    }
}

// A line that is shown until the first byte is typed, or an empty one.
fn kept_or_typed(line: Option<EntryLine>) -> Answering
    ensures { result ≡ kept_or_typed line }
{
    match line {
        Some(line) => Answering::Kept(line),
        None => Answering::Typing(EntryLine::new(b"")),
    }
}

// How a file's name begins to be given: a save begins with the name of the last one.
fn file_answering(action: Action, saved: &Option<FileName>) -> Answering
    ensures { result ≡ file_answering action saved.now }
{
    match (action, saved) {
        (Action::File(FileAction::Save), Some(name)) => kept_or_typed(line_in(name.bytes())),
        _ => Answering::Typing(EntryLine::new(b"")),
    }
}

// How the answer to a prompt begins to be given; without a prompt the command acts.
fn opened_by(ask: Option<Ask>, pointer: Cell, named: Answering) -> WhatFollows
    ensures { result ≡ opened_by ask pointer named }
{
    match ask {
        None => WhatFollows::Acts,
        Some(Ask::Range) => WhatFollows::Asks(Answering::Pointing(anchored_at(pointer))),
        Some(Ask::Cell) => WhatFollows::Asks(Answering::Pointing(pointed_at(pointer))),
        Some(Ask::File) => WhatFollows::Asks(named),
        Some(Ask::Replace) => WhatFollows::Looks,
        Some(Ask::Confirm) => WhatFollows::Asks(Answering::Choosing(0)),
        Some(_) => WhatFollows::Asks(Answering::Typing(EntryLine::new(b""))),
    }
}

/// What follows where a command has some answers: its next prompt, of which a range begins anchored at the pointer, a
/// cell there without an anchor, and the name of a save with that of the last one; the question whether the file is
/// there; or the command itself (Release 2 manual).
pub fn opening(command: &AnsweredCommand, pointer: Cell, saved: &Option<FileName>) -> WhatFollows
    ensures { result ≡ opening command.now pointer saved.now }
{
    let named = file_answering(command.action, saved);
    opened_by(next_ask(command), pointer, named)
}
