// What a key comes to, and what is shown, by what the session is doing.
ghost use Rattle.std.specs.Prelude.{◌≡◌, IfOk, IfSome, IsOk};
ghost use Rattle.command_desk.specs.Desks.{of_desk, Desk as DeskView};
ghost use Rattle.room_keys.specs.LightTurns.{whole_turn};
ghost use Rattle.room_keys.specs.menu.Room as menu;
ghost use Rattle.screen_layout.specs.Views.{viewed};
ghost use Rattle.session_core.specs.inner.Glances.{plain_mode};
ghost use Rattle.session_core.specs.inner.Typing.{is_line_typed, with_byte};
ghost use Rattle.session_core.specs.Moving.{KeepsNoAnswer, TakesNoMemory};
ghost use Rattle.session_core.specs.Pressing.{pressed, room_panel, turn_of};

use command_desk::Desk;
use key_words::Key;
use lics_text::{Memory, TextByte};
use room_keys::typing::told_mode;
use room_keys::{LightTurn, menu, pointing, prompt, ready, typing};
use screen_layout::PanelView;
use session_rooms::{MenuRoom, Mode, Panel, Room, Turn};

// What a key comes to in a room.
fn pressed(room: Room, key: Key, end: bool, desk: &Desk) -> Result<Turn, Memory>
    ensures turn { IfOk result (λ t. t ≡ pressed room key end (of_desk desk.now)) }
    ensures sure { KeepsNoAnswer room → IsOk result }
{
    let sheet = &desk.sheet;
    let pointer = sheet.settings().pointer;
    match room {
        Room::Ready => Ok(ready::press(key, end, sheet, &desk.ranges)),
        Room::Typing(room) => Ok(typing::press(key, sheet.cells(), pointer, room)),
        Room::Pointing(room) => Ok(pointing::press(key, sheet.cells(), pointer, room)),
        Room::Menu(room) => Ok(menu::press(sheet.alloc(), key, room)),
        Room::Asking(room) => prompt::press(key, sheet, room),
        Room::Failed(message) => Ok(ready::press_failed(key, message)),
    }
}

/// What a key comes to: BREAK goes to READY from everywhere, and any other key is the room's (Release 2 manual). Only
/// an answer in a prompt takes memory.
pub(crate) fn turn_of(key: Key, room: Room, end: bool, desk: &Desk) -> Result<Turn, Memory>
    ensures turn { IfOk result (λ t. t ≡ turn_of key room end (of_desk desk.now)) }
    ensures sure { TakesNoMemory key room → IsOk result }
{
    match key {
        Key::Break => Ok(Turn::Become(Room::Ready)),
        _ => pressed(room, key, end, desk),
    }
}

// What a key comes to in READY and in a menu, where that begins no line and no command.
fn light_pressed(room: &Room, key: Key, end: bool) -> Option<LightTurn>
    ensures { (d : DeskView) → IfSome result (λ x. whole_turn x ≡ pressed room.now key end d) }
{
    match room {
        Room::Ready => ready::light_turn(&key, end),
        Room::Menu(room) => menu::light_turn(&key, *room),
        Room::Typing(_) | Room::Pointing(_) | Room::Asking(_) | Room::Failed(_) => None,
    }
}

/// What a key comes to in READY and in a menu, where that begins no line and no command.
pub(crate) fn light_turn_of(key: Key, room: &Room, end: bool) -> Option<LightTurn>
    ensures { (d : DeskView) → IfSome result (λ x. whole_turn x ≡ turn_of key room.now end d) }
{
    match key {
        Key::Break => None,
        _ => light_pressed(room, key, end),
    }
}

/// Whether a line is typed into a cell.
pub(crate) fn is_line_typed(room: &Room) -> bool
    ensures { result ≡ is_line_typed room.now }
{
    match room {
        Room::Typing(_) => true,
        Room::Ready | Room::Pointing(_) | Room::Menu(_) | Room::Asking(_) | Room::Failed(_) => {
            false
        }
    }
}

/// A byte goes into the line that is typed into a cell; any other room stays.
pub(crate) fn type_byte(byte: TextByte, room: &mut Room)
    ensures { room.new ≡ with_byte byte room.old }
{
    match room {
        Room::Typing(room) => {
            let _ = room.line.key(Key::Byte(byte));
        }
        Room::Ready | Room::Pointing(_) | Room::Menu(_) | Room::Asking(_) | Room::Failed(_) => {}
    }
}

/// What is shown of a room.
pub(crate) fn room_panel(room: &Room) -> Panel
    ensures { result ≡ room_panel room.now }
{
    match room {
        Room::Ready => ready::panel(),
        Room::Typing(room) => typing::panel(room),
        Room::Pointing(room) => pointing::panel(room),
        Room::Menu(room) => menu::panel(room),
        Room::Asking(room) => prompt::panel(room),
        Room::Failed(message) => ready::failed_panel(message),
    }
}

/// The mode that is told in READY, while a line is typed into a cell and in a menu; none elsewhere.
pub(crate) fn plain_mode(room: &Room) -> Option<Mode>
    ensures { result ≡ plain_mode room.now }
{
    match room {
        Room::Ready => Some(Mode::Ready),
        Room::Typing(room) => Some(told_mode(room.mode)),
        Room::Menu(_) => Some(Mode::Menu),
        Room::Pointing(_) | Room::Asking(_) | Room::Failed(_) => None,
    }
}

/// The menu that is shown; none in another room.
pub(crate) fn plain_menu(room: &Room) -> Option<&MenuRoom>
    ensures { IfSome result (λ r. menu.panel r.now ≡ room_panel room.now) }
{
    match room {
        Room::Menu(room) => Some(room),
        Room::Ready | Room::Typing(_) | Room::Pointing(_) | Room::Asking(_) | Room::Failed(_) => {
            None
        }
    }
}

/// What is shown in READY and while a line is typed into a cell, where that line stands; none elsewhere.
pub(crate) fn plain_view(room: &Room) -> Option<PanelView<'_>>
    ensures { IfSome result (λ v. viewed v ≡ room_panel room.now) }
{
    match room {
        Room::Ready => Some(PanelView::of_line(Mode::Ready, b"", 0)),
        Room::Typing(room) => {
            let text = room.line.text();
            let cursor = room.line.cursor() as u8;
            Some(PanelView::of_line(told_mode(room.mode), text, cursor))
        }
        Room::Pointing(_) | Room::Menu(_) | Room::Asking(_) | Room::Failed(_) => None,
    }
}
