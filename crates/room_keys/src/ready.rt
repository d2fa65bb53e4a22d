// What a key comes to while nothing is typed.
ghost use Rattle.std.specs.Prelude.{◌≡◌, IfSome};
ghost use Rattle.data_blocks.specs.declared.ranges.DeskRanges.{DeskRanges};
ghost use Rattle.room_keys.specs.LightTurns.{whole_turn};
ghost use Rattle.room_keys.specs.ready.Ready.{begun, begun_mode, carrying_out, editing, marking, moving, panel};
ghost use Rattle.room_keys.specs.ready.Ready.{pointed_text, press, query_again, way_of};
ghost use Rattle.work_sheet.specs.Seen.{of_worksheet, Sheet};

mod failed;

use crate::LightTurn;
use crate::menu::opened;
use cell_pointer::{Way, move_after_end, move_of};
use data_blocks::{DeskRanges, LastQuery};
use desk_errors::CommandError;
use entry_line::EntryLine;
pub use failed::{failed_panel, press_failed};
use grid_address::Cell;
use key_words::Key;
use lics_text::{Line, TextByte};
use menu_tree::{Action, CommonAction, DataAction, Menu};
use session_rooms::{
    AnsweredCommand, Answers, MenuRoom, Mode, Panel, Room, Turn, TypingMode, TypingRoom,
    begins_value, fits_line, line_of_byte,
};
use std::alloc::Global;
use work_sheet::Worksheet;

// The mode that a byte begins.
fn begun_mode(byte: u8) -> TypingMode
    ensures { result ≡ begun_mode byte }
{
    if begins_value(byte) {
        TypingMode::Value
    } else {
        TypingMode::Label
    }
}

// What a byte begins.
fn begun(byte: TextByte) -> Room
    ensures { result ≡ begun byte }
{
    let code = byte.get();
    if code == b'/' {
        opened(Menu::Main)
    } else {
        Room::Typing(TypingRoom {
            mode: begun_mode(code),
            line: line_of_byte(byte),
        })
    }
}

// A text is edited, where it is a line's.
fn edit_text(text: &[u8]) -> Turn
    ensures { result ≡ editing text.now }
{
    if fits_line(text) {
        Turn::Become(Room::Typing(TypingRoom {
            mode: TypingMode::Edit,
            line: EntryLine::new(text),
        }))
    } else {
        Turn::Fail(CommandError::LineTooLong)
    }
}

// Where the pointer stands.
fn pointer_of(sheet: &Worksheet) -> Cell
    ensures { result ≡ sheet.now.settings.pointer }
{
    sheet.settings().pointer
}

// The pointer's cell is edited.
fn edit(sheet: &Worksheet) -> Turn
    ensures { result ≡ editing (pointed_text (of_worksheet sheet.now)) }
{
    let pointer = pointer_of(sheet);
    let mut text = Line::new();
    if sheet.text_of(pointer, &mut text) {
        edit_text(text.bytes())
    } else {
        Turn::Fail(CommandError::LineTooLong)
    }
}

// A key that moves the pointer, or is passed over.
fn moving(way: Option<Way>) -> Turn
    ensures { result ≡ moving way }
{
    match way {
        Some(way) => Turn::Move(way),
        None => Turn::Become(Room::Ready),
    }
}

// The key END.
fn marking(end: bool) -> Turn
    ensures { result ≡ marking end }
{
    if end {
        Turn::Become(Room::Ready)
    } else {
        Turn::Mark
    }
}

// Where a key moves the pointer, behind END or not.
fn way_of(end: bool, key: &Key) -> Option<Way>
    ensures { result ≡ way_of end key.now }
{
    if end {
        move_after_end(key)
    } else {
        move_of(key)
    }
}

// A command on data that asks for nothing is carried out.
fn carry_out(action: DataAction, alloc: Global) -> Turn
    ensures { result ≡ carrying_out action }
{
    Turn::Act(AnsweredCommand {
        action: Action::Data(action),
        answers: Answers::new(alloc),
    })
}

// The last query is made again.
fn query_again(last: LastQuery, alloc: Global) -> Turn
    ensures { result ≡ query_again last }
{
    match last {
        LastQuery::Nothing => Turn::Fail(CommandError::QueryRangeMissing),
        LastQuery::Extract => carry_out(DataAction::Extract, alloc),
        LastQuery::Unique => carry_out(DataAction::Unique, alloc),
        LastQuery::Delete => carry_out(DataAction::DeleteRecords, alloc),
    }
}

/// What a key comes to in READY, where END was pressed before it or not: a slash opens the main menu, any other byte
/// begins a line, the moving keys move the pointer, END waits for one of them, EDIT edits the pointer's cell, GOTO
/// asks for a cell, QUERY makes the last query again with the ranges that are kept now, TABLE makes the last table
/// again, CALC recalculates, ALT starts its letter's macro, and UNDO takes the last command back (this project's
/// choice). Any other key is passed over (Release 2 manual).
/// `LineTooLong` comes exactly where the cell's text is no line's, and `QueryRangeMissing` where there was no query
/// yet; where there was no table, the command that the key gives is refused. It takes no memory.
pub fn press(key: Key, end: bool, sheet: &Worksheet, ranges: &DeskRanges) -> Turn
    ensures { result ≡ press key end (of_worksheet sheet.now) ranges.now }
{
    match key {
        Key::Byte(byte) => Turn::Become(begun(byte)),
        Key::End => marking(end),
        Key::Edit => edit(sheet),
        Key::Goto => Turn::Ask(AnsweredCommand {
            action: Action::Common(CommonAction::Goto),
            answers: Answers::new(sheet.alloc()),
        }),
        Key::Query => query_again(ranges.last_query, sheet.alloc()),
        Key::Table => carry_out(DataAction::RepeatTable, sheet.alloc()),
        Key::Calc => Turn::Recalculate,
        Key::Alt(letter) => Turn::Start(letter),
        Key::Undo => Turn::Undo,
        _ => moving(way_of(end, &key)),
    }
}

// The main menu, where a byte opens it.
fn light_begun(byte: TextByte) -> Option<LightTurn>
    ensures { IfSome result (λ x. whole_turn x ≡ Turn.Become (begun byte)) }
{
    if byte.get() == b'/' {
        Some(LightTurn::Menu(MenuRoom {
            menu: Menu::Main,
            highlight: 0,
        }))
    } else {
        None
    }
}

// A key that moves the pointer, or is passed over.
fn light_moving(way: Option<Way>) -> LightTurn
    ensures { whole_turn result ≡ moving way }
{
    match way {
        Some(way) => LightTurn::Move(way),
        None => LightTurn::Ready,
    }
}

/// What a key comes to in READY, where it opens the main menu, moves the pointer or is passed over, by whether END was
/// pressed before it; none of the keys that begin more.
pub fn light_turn(key: &Key, end: bool) -> Option<LightTurn>
    ensures { (s : Sheet) (r : DeskRanges) → IfSome result (λ x. whole_turn x ≡ press key.now end s r) }
{
    match key {
        Key::Byte(byte) => light_begun(*byte),
        Key::End | Key::Edit | Key::Goto | Key::Query | Key::Table => None,
        Key::Calc | Key::Alt(_) | Key::Undo => None,
        _ => Some(light_moving(way_of(end, key))),
    }
}

/// What is shown in READY.
pub fn panel() -> Panel
    ensures { result ≡ panel }
{
    Panel::of(Mode::Ready)
}
