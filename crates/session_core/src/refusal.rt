// What a step refuses beside an error that it tells.
ghost use Rattle.std.specs.Prelude.{◌≡◌};
ghost use Rattle.session_core.specs.Refusing.{key_refused, letter_refused, unless};

use key_words::Key;
use lics_text::Line;
use room_keys::{menu, prompt};
use session_rooms::Room;

/// What a step refused beside an error that it tells: nothing, a finished line, which has a fault, or a letter that
/// takes no item of a menu or of a choice.
#[derive(Clone, Copy)]
pub enum Refusal {
    Nothing,
    Line,
    Letter(u8),
}

/// What was refused, as it is told, in two parts of at most 40 and 240 bytes.
#[derive(Drop)]
pub struct RefusedText<'a> {
    pub front: Line,
    pub text: &'a [u8],
}

// A letter is refused where it takes no item.
fn unless(lacks: bool, letter: u8) -> Refusal
    ensures { result ≡ unless lacks letter }
{
    if lacks {
        Refusal::Letter(letter)
    } else {
        Refusal::Nothing
    }
}

// What is refused of a letter.
fn letter_refused(letter: u8, room: &Room) -> Refusal
    ensures { result ≡ letter_refused letter room.now }
{
    match room {
        Room::Menu(room) => unless(menu::lacks_item(room, letter), letter),
        Room::Asking(room) => unless(prompt::lacks_item(room, letter), letter),
        Room::Ready | Room::Typing(_) | Room::Pointing(_) | Room::Failed(_) => Refusal::Nothing,
    }
}

/// What is refused of a key that is typed in a room: a letter that takes no item of a menu or of a choice.
pub(crate) fn key_refused(key: &Key, room: &Room) -> Refusal
    ensures { result ≡ key_refused key.now room.now }
{
    match key {
        Key::Byte(byte) => letter_refused(byte.get(), room),
        _ => Refusal::Nothing,
    }
}
