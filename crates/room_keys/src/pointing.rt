// What a key comes to while a value's reference is pointed at.
ghost use Rattle.std.specs.Prelude.{◌≡◌};
ghost use Rattle.room_keys.specs.pointing.Room.{panel, press, put_in, steered_room, typed_byte};

mod reference;
mod steering;

use cell_pointer::Way;
use entry_line::EntryLine;
use grid_address::Cell;
use key_words::Key;
use lics_text::TextByte;
pub use reference::{ReferenceText, answer_text, reference_text};
use session_rooms::{
    Mode, Panel, PointRoom, Room, Turn, TypingMode, TypingRoom, ends_reference, extended,
};
use sheet_store::Store;
pub use steering::steer;

// The line with its reference.
fn put_in(room: &PointRoom) -> EntryLine
    ensures { result ≡ put_in room.now }
{
    extended(&room.line, reference_text(&room.pointed).bytes())
}

// The reference is pointed at further.
fn steer_room(key: &Key, columns: &Store, pointer: Cell, room: PointRoom) -> Turn
    ensures { result ≡ steered_room key.now columns.now pointer room }
{
    let pointed = steer(key, columns, pointer, room.pointed);
    Turn::Become(Room::Pointing(PointRoom {
        line: room.line,
        pointed,
    }))
}

// A byte that is typed.
fn type_byte(byte: TextByte, columns: &Store, pointer: Cell, room: PointRoom) -> Turn
    ensures { result ≡ typed_byte byte columns.now pointer room }
{
    let code = byte.get();
    if ends_reference(code) {
        Turn::Become(Room::Typing(TypingRoom {
            mode: TypingMode::Value,
            line: extended(&put_in(&room), &[code]),
        }))
    } else {
        steer_room(&Key::Byte(byte), columns, pointer, room)
    }
}

/// What a key comes to in POINT of a value that is typed, over a sheet's columns and its pointer: Enter puts the
/// reference in and finishes the entry; an operator, `)` or `,` puts it in and goes on; other keys steer the pointed
/// span or are passed over (Release 2 manual; bytes of the reference past 240 on the line are passed over, which is
/// this project's choice). It takes no memory.
pub fn press(key: Key, columns: &Store, pointer: Cell, room: PointRoom) -> Turn
    ensures { result ≡ press key columns.now pointer room }
{
    match key {
        Key::Enter => Turn::Finish(Way::Stay, put_in(&room)),
        Key::Byte(byte) => type_byte(byte, columns, pointer, room),
        _ => steer_room(&key, columns, pointer, room),
    }
}

/// What is shown in POINT of a value that is typed: the line with its reference, and the cursor behind it.
pub fn panel(room: &PointRoom) -> Panel
    ensures { result ≡ panel room.now }
{
    let line = put_in(room);
    Panel::of_line(Mode::Point, b"", line.text(), line.cursor() as u8)
}
