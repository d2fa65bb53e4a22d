// What a key comes to while an error is told.
ghost use Rattle.std.specs.Prelude.{◌≡◌};
ghost use Rattle.room_keys.specs.ready.Failed.{failed_panel, press_failed};

use key_words::Key;
use lics_text::Line;
use session_rooms::{Mode, Panel, Room, Turn};

/// What a key comes to in ERROR: Enter and ESC go to READY, and any other is passed over (Release 2 manual).
pub fn press_failed(key: Key, message: Line) -> Turn
    ensures { result ≡ press_failed key message }
{
    match key {
        Key::Enter | Key::Esc => Turn::Become(Room::Ready),
        _ => Turn::Become(Room::Failed(message)),
    }
}

/// What is shown in ERROR.
pub fn failed_panel(message: &Line) -> Panel
    ensures { result ≡ failed_panel message.now }
{
    let mut panel = Panel::of(Mode::Error);
    panel.message.put_all(message.bytes());
    panel
}
