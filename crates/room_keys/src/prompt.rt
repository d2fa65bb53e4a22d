// What a key comes to in a prompt.
ghost use Rattle.std.specs.Prelude.{◌≡◌, IfOk, IsOk, Some, None, IfSome, IfNone, position};
ghost use Rattle.entry_line.specs.Line.{after, event};
ghost use Rattle.lics_text.specs.Bytes.{IsText};
ghost use Rattle.menu_tree.specs.Tree.{begins};
ghost use Rattle.desk_answers.specs.Readings.{fault_in, refusal_of};
ghost use Rattle.room_keys.specs.prompt.Opening.{next_ask};
ghost use Rattle.room_keys.specs.prompt.Room.{with_answer, asking, choice_names, decided, decided_or, lacks_item};
ghost use Rattle.room_keys.specs.prompt.Room.{line_answering, name_behind, name_line, press, press_choosing};
ghost use Rattle.room_keys.specs.prompt.Room.{press_kept, press_line, press_pointing, refusal_by, shown};
ghost use Rattle.room_keys.specs.prompt.Room.{steered_prompt, takes_names, typed_by, typed_byte};
ghost use Rattle.range_names.specs.Names.{next_name};
ghost use Rattle.work_sheet.specs.Seen.{of_worksheet};

mod following;
mod panels;

use crate::pointing::{answer_text, steer};
use crate::prompt::following::{line_in, next_ask};
use desk_answers::test_answer;
use desk_errors::CommandError;
use entry_line::{EntryLine, LineEvent};
pub use following::{WhatFollows, opening};
use grid_address::Cell;
use item_ring::highlighted;
use key_words::Key;
use lics_text::{Memory, Text, TextByte};
use menu_tree::Ask;
pub use panels::panel;
use range_names::Names;
use session_rooms::{AnsweredCommand, Answering, Pointed, PromptRoom, Room, Turn, line_of_byte};
use work_sheet::Worksheet;

// The command goes on asking.
fn asking(command: AnsweredCommand, answering: Answering) -> Turn
    ensures { result ≡ asking command answering }
{
    Turn::Become(Room::Asking(PromptRoom { command, answering }))
}

// Why an answer is refused.
fn test(ask: Option<Ask>, names: &Names, line: &[u8], place: usize) -> Result<(), CommandError>
    ensures { fault_in result ≡ refusal_by ask names.now line.now place }
{
    match ask {
        Some(ask) => test_answer(ask, names, line, place),
        None => Ok(()),
    }
}

// The command has one answer more, or is refused it.
fn with_answer(line: &[u8], sheet: &Worksheet, mut command: AnsweredCommand) -> Result<Turn, Memory>
    requires { IsText line.now }
    ensures { IfOk result (λ t. t ≡ with_answer (of_worksheet sheet.now) command line.now) }
{
    let place = command.answers.len();
    match test(next_ask(&command), sheet.names(), line, place) {
        Err(error) => Ok(Turn::Fail(error)),
        Ok(()) => {
            command.answers.push(Text::copy_of(sheet.alloc(), line)?)?;
            Ok(Turn::Ask(command))
        }
    }
}

// Whether a name can be given.
fn takes_names(ask: Option<Ask>) -> bool
    ensures { result ≡ takes_names ask }
{
    match ask {
        Some(Ask::Range | Ask::Cell | Ask::NewName | Ask::OldName) => true,
        _ => false,
    }
}

// The first name after a text, and after the last name the first.
fn name_behind<'a>(names: &'a Names, text: &[u8]) -> Option<&'a [u8]>
    ensures some { IfSome result (λ name. name_behind names.now text.now ≡ Some name.now) }
    ensures none { IfNone result (name_behind names.now text.now ≡ None) }
{
    match names.after(text) {
        Some(name) => Some(name),
        None => names.after(b""),
    }
}

// The name behind a text, where one can be given.
fn name_line(ask: Option<Ask>, names: &Names, text: &[u8]) -> Option<EntryLine>
    ensures { result ≡ name_line ask names.now text.now }
{
    if !takes_names(ask) {
        return None;
    }
    match name_behind(names, text) {
        Some(name) => line_in(name),
        None => None,
    }
}

// A name becomes the typed answer, where there is one.
fn shown(name: Option<EntryLine>, command: AnsweredCommand, answering: Answering) -> Turn
    ensures { result ≡ shown name command answering }
{
    match name {
        Some(line) => asking(command, Answering::Typing(line)),
        None => asking(command, answering),
    }
}

// Where the pointer stands.
fn pointer_of(sheet: &Worksheet) -> Cell
    ensures { result ≡ sheet.now.settings.pointer }
{
    sheet.settings().pointer
}

// The span is pointed at further.
fn steered(key: &Key, sheet: &Worksheet, command: AnsweredCommand, pointed: Pointed) -> Turn
    ensures { result ≡ steered_prompt key.now (of_worksheet sheet.now) command pointed }
{
    let pointed = steer(key, sheet.cells(), pointer_of(sheet), pointed);
    asking(command, Answering::Pointing(pointed))
}

// A byte while a span is pointed at.
fn typed_byte(byte: TextByte, sheet: &Worksheet, command: AnsweredCommand, pointed: Pointed) -> Turn
    ensures { result ≡ typed_byte byte (of_worksheet sheet.now) command pointed }
{
    if byte.get() == b'.' {
        steered(&Key::Byte(byte), sheet, command, pointed)
    } else {
        asking(command, Answering::Typing(line_of_byte(byte)))
    }
}

// The answer is pointed at.
fn press_pointing(
    key: Key,
    sheet: &Worksheet,
    command: AnsweredCommand,
    pointed: Pointed,
) -> Result<Turn, Memory>
    ensures { IfOk result (λ t. t ≡ press_pointing key (of_worksheet sheet.now) command pointed) }
{
    match key {
        Key::Enter => with_answer(answer_text(&pointed).bytes(), sheet, command),
        Key::Byte(byte) => Ok(typed_byte(byte, sheet, command, pointed)),
        Key::Name => {
            let name = name_line(next_ask(&command), sheet.names(), b"");
            Ok(shown(name, command, Answering::Pointing(pointed)))
        }
        _ => Ok(steered(&key, sheet, command, pointed)),
    }
}

// A line that is typed, or one that is shown and kept.
fn line_answering(kept: bool, line: EntryLine) -> Answering
    ensures { result ≡ line_answering kept line }
{
    if kept {
        Answering::Kept(line)
    } else {
        Answering::Typing(line)
    }
}

// What a key comes to, where the line has taken it.
fn typed_by(
    event: LineEvent,
    sheet: &Worksheet,
    command: AnsweredCommand,
    kept: bool,
    line: EntryLine,
) -> Result<Turn, Memory>
    ensures { IfOk result (λ t. t ≡ typed_by event (of_worksheet sheet.now) command kept line) }
{
    match event {
        LineEvent::Going | LineEvent::LineFull => Ok(asking(command, line_answering(kept, line))),
        LineEvent::GivenUp => Ok(Turn::Become(Room::Ready)),
        LineEvent::Finished => with_answer(line.text(), sheet, command),
    }
}

// The answer is typed.
fn press_line(
    key: Key,
    sheet: &Worksheet,
    command: AnsweredCommand,
    kept: bool,
    mut line: EntryLine,
) -> Result<Turn, Memory>
    ensures { IfOk result (λ t. t ≡ press_line key (of_worksheet sheet.now) command kept line) }
{
    match key {
        Key::Up | Key::Down | Key::PgUp | Key::PgDn => {
            Ok(asking(command, line_answering(kept, line)))
        }
        Key::Name => {
            let name = name_line(next_ask(&command), sheet.names(), line.text());
            Ok(shown(name, command, line_answering(kept, line)))
        }
        _ => {
            let event = line.key(key);
            typed_by(event, sheet, command, kept, line)
        }
    }
}

// A file name is shown and kept.
fn press_kept(
    key: Key,
    sheet: &Worksheet,
    command: AnsweredCommand,
    line: EntryLine,
) -> Result<Turn, Memory>
    ensures { IfOk result (λ t. t ≡ press_kept key (of_worksheet sheet.now) command line) }
{
    match key {
        Key::Byte(byte) => Ok(asking(command, Answering::Typing(line_of_byte(byte)))),
        _ => press_line(key, sheet, command, true, line),
    }
}

// The item of a choice that begins with a letter.
fn chosen(ask: Option<Ask>, letter: u8) -> Option<usize>
    ensures { result ≡ position (λ n. begins n letter) (choice_names ask) }
{
    let (first, second) = match ask {
        Some(Ask::Replace) => (b'C', b'R'),
        Some(Ask::Confirm) => (b'N', b'Y'),
        _ => return None,
    };
    if first.eq_ignore_ascii_case(&letter) {
        Some(0)
    } else if second.eq_ignore_ascii_case(&letter) {
        Some(1)
    } else {
        None
    }
}

// The first item does nothing, and the other goes on with the command.
fn decided(item: usize, command: AnsweredCommand) -> Turn
    ensures { result ≡ decided item command }
{
    if item == 0 {
        Turn::Become(Room::Ready)
    } else {
        Turn::Act(command)
    }
}

// One of two items is chosen.
fn press_choosing(key: Key, command: AnsweredCommand, highlight: usize) -> Turn
    ensures { result ≡ press_choosing key command highlight }
{
    match key {
        Key::Enter => decided(highlight, command),
        Key::Byte(byte) => match chosen(next_ask(&command), byte.get()) {
            Some(item) => decided(item, command),
            None => asking(command, Answering::Choosing(highlight)),
        },
        Key::Esc => Turn::Become(Room::Ready),
        _ => asking(
            command,
            Answering::Choosing(highlighted(&key, 2, highlight)),
        ),
    }
}

/// Whether one of two items is chosen and none of them begins with a letter, in either case: typed there, it is passed
/// over.
pub fn lacks_item(room: &PromptRoom, letter: u8) -> bool
    ensures { result ≡ lacks_item letter room.now }
{
    match room.answering {
        Answering::Choosing(_) => chosen(next_ask(&room.command), letter).is_none(),
        Answering::Pointing(_) | Answering::Typing(_) | Answering::Kept(_) => false,
    }
}

/// What a key comes to in a prompt, over a sheet. Where a span is pointed at, Enter takes it, a byte that isn't a dot
/// begins a typed answer, and other keys steer it. A typed answer is edited as in EDIT, and Enter gives it; UP, DOWN,
/// PGUP and PGDN are passed over. NAME puts the next name into a range, a cell or a name. The first byte replaces a
/// file name that is shown. Of two items the first does nothing, and the other goes on with the command (Release 2
/// manual). An answer is tested where it is given, as `test_answer` says, and a refused one ends the command. An answer
/// that is given takes memory.
pub fn press(key: Key, sheet: &Worksheet, room: PromptRoom) -> Result<Turn, Memory>
    ensures { IfOk result (λ t. t ≡ press key (of_worksheet sheet.now) room) }
{
    let PromptRoom { command, answering } = room;
    match answering {
        Answering::Pointing(pointed) => press_pointing(key, sheet, command, pointed),
        Answering::Typing(line) => press_line(key, sheet, command, false, line),
        Answering::Kept(line) => press_kept(key, sheet, command, line),
        Answering::Choosing(highlight) => Ok(press_choosing(key, command, highlight)),
    }
}
