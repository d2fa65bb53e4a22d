// What a key comes to while a line is typed.
ghost use Rattle.std.specs.Prelude.{◌≡◌, Some};
ghost use Rattle.entry_line.specs.Line.{event};
ghost use Rattle.cell_pointer.specs.Keys.{arrow_of, finish_of};
ghost use Rattle.room_keys.specs.typing.Room.{edited as edited_so, finished_by, finished_or, keyed, panel, press};
ghost use Rattle.room_keys.specs.typing.Room.{press_line, press_value, told_mode, unless_empty};

use cell_pointer::{Arrow, Way, arrow_of, finish_of, stepped};
use entry_line::LineEvent;
use grid_address::Cell;
use key_words::Key;
use session_rooms::{
    Mode, Panel, PointRoom, Pointed, Room, Signs, Turn, TypingMode, TypingRoom, last_byte,
    wants_operand,
};
use sheet_store::Store;

// The room, or READY where its line is empty.
fn unless_empty(room: TypingRoom) -> Room
    ensures { result ≡ unless_empty room.line.text room }
{
    if room.line.text().is_empty() {
        Room::Ready
    } else {
        Room::Typing(room)
    }
}

// The line is finished where the key does that.
fn finished_or(way: Option<Way>, room: TypingRoom) -> Turn
    ensures { result ≡ finished_or way room }
{
    match way {
        Some(way) => Turn::Finish(way, room.line),
        None => Turn::Become(Room::Typing(room)),
    }
}

// LABEL and VALUE.
fn press_line(key: Key, mut room: TypingRoom) -> Turn
    ensures { result ≡ press_line key room }
{
    match key {
        Key::Byte(_) => {
            let _ = room.line.key(key);
            Turn::Become(Room::Typing(room))
        }
        Key::Bs => {
            let _ = room.line.key(key);
            Turn::Become(unless_empty(room))
        }
        Key::Esc => Turn::Become(Room::Ready),
        Key::Edit => {
            room.mode = TypingMode::Edit;
            Turn::Become(Room::Typing(room))
        }
        _ => finished_or(finish_of(&key), room),
    }
}

// VALUE with an arrow.
fn press_arrow(arrow: Arrow, key: Key, columns: &Store, pointer: Cell, room: TypingRoom) -> Turn
    requires { arrow_of key ≡ Some arrow }
    ensures { result ≡ press_value (arrow_of key) key columns.now pointer room }
{
    if wants_operand(last_byte(&room.line)) {
        Turn::Become(Room::Pointing(PointRoom {
            line: room.line,
            pointed: Pointed {
                corner: stepped(arrow, columns, pointer),
                anchor: None,
                signs: Signs::None,
            },
        }))
    } else {
        press_line(key, room)
    }
}

// VALUE.
fn press_value(key: Key, columns: &Store, pointer: Cell, room: TypingRoom) -> Turn
    ensures { result ≡ press_value (arrow_of key) key columns.now pointer room }
{
    match arrow_of(&key) {
        Some(arrow) => press_arrow(arrow, key, columns, pointer, room),
        None => press_line(key, room),
    }
}

// A line that EDIT finishes; an empty one leaves the cell as it was.
fn finish(way: Option<Way>, room: TypingRoom) -> Turn
    ensures { result ≡ finished_by way room.line }
{
    match way {
        None => Turn::Become(Room::Ready),
        Some(way) => {
            if room.line.text().is_empty() {
                Turn::Move(way)
            } else {
                Turn::Finish(way, room.line)
            }
        }
    }
}

// EDIT, where the key was given to the line.
fn edited(event: LineEvent, way: Option<Way>, room: TypingRoom) -> Turn
    ensures { result ≡ edited_so event way room }
{
    match event {
        LineEvent::Going => Turn::Become(Room::Typing(room)),
        LineEvent::LineFull => Turn::Become(Room::Typing(room)),
        LineEvent::GivenUp => Turn::Become(Room::Ready),
        LineEvent::Finished => finish(way, room),
    }
}

// EDIT.
fn press_edit(key: Key, mut room: TypingRoom) -> Turn
    ensures { result ≡ edited_so (event key room.line) (finish_of key) (keyed key room) }
{
    let way = finish_of(&key);
    let event = room.line.key(key);
    edited(event, way, room)
}

/// What a key comes to while a line is typed, over a sheet's columns and its pointer (Release 2 manual; at 240 bytes
/// another byte is passed over). It takes no memory.
pub fn press(key: Key, columns: &Store, pointer: Cell, room: TypingRoom) -> Turn
    ensures { result ≡ press key columns.now pointer room }
{
    let mode = room.mode;
    match mode {
        TypingMode::Label => press_line(key, room),
        TypingMode::Edit => press_edit(key, room),
        TypingMode::Value => press_value(key, columns, pointer, room),
    }
}

/// The mode that is told while a line is typed (Release 2 manual).
pub fn told_mode(mode: TypingMode) -> Mode
    ensures { result ≡ told_mode mode }
{
    match mode {
        TypingMode::Label => Mode::Label,
        TypingMode::Value => Mode::Value,
        TypingMode::Edit => Mode::Edit,
    }
}

/// What is shown while a line is typed.
pub fn panel(room: &TypingRoom) -> Panel
    ensures { result ≡ panel room.now }
{
    let line = &room.line;
    Panel::of_line(told_mode(room.mode), b"", line.text(), line.cursor() as u8)
}
