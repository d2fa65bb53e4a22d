// What the last step refused, and what a run leaves undone.
ghost use Rattle.std.specs.Prelude.{◌≡◌, ◌≤◌, ◌++◌, is_some, [], length};
ghost use Rattle.std.specs.Option.{unwrap_or};
ghost use Rattle.session_core.specs.Refusing.{joined, letter_told, line_told, told_alone, told_beside, told_by};
ghost use Rattle.session_core.specs.Standing.{is_at_rest, is_ready, left_in, refused};

use super::Machine;
use crate::pressing::room_panel;
use crate::refusal::{Refusal, RefusedText};
use entry_line::EntryLine;
use grid_address::decimal_text;
use lics_text::{Line, MAX_LEN};
use screen_layout::mode_name;
use session_rooms::{Mode, Room};

// Whether something is told, by what the session does.
fn is_told(refusal: Refusal, room: &Room) -> bool
    ensures { result ≡ is_some (told_by refusal room.now) }
{
    match room {
        Room::Failed(_) => true,
        Room::Typing(_) => match refusal {
            Refusal::Line | Refusal::Letter(_) => true,
            Refusal::Nothing => false,
        },
        Room::Ready | Room::Pointing(_) | Room::Menu(_) | Room::Asking(_) => match refusal {
            Refusal::Letter(_) => true,
            Refusal::Nothing | Refusal::Line => false,
        },
    }
}

// The front of a finished line that was refused: the place of its fault.
fn line_front(line: &EntryLine) -> Line
    ensures front { result ++ line.now.text ≡ line_told line.now }
    ensures short { length result ≤ 40 }
{
    let place = decimal_text(line.cursor() as u64);
    let mut front = Line::new();
    front.put_all(b"refused at ");
    front.put_all(place.bytes());
    front.put_all(b": ");
    front
}

// A letter that takes no item.
fn letter_line(letter: u8) -> Line
    ensures line { result ≡ letter_told letter }
    ensures short { length result ≤ 40 }
{
    let mut line = Line::new();
    line.put_all(b"no item ");
    line.put_all(&[letter]);
    line
}

// A refusal in one part.
fn in_one(front: Line) -> RefusedText<'static>
    requires { length front ≤ 40 }
    ensures joined { joined result ≡ front }
    ensures short { length result.front ≤ 40 }
    ensures fits { length result.text.now ≤ MAX_LEN }
{
    RefusedText { front, text: b"" }
}

// A refusal while a line is typed; nothing where nothing was refused.
fn told_beside(refusal: Refusal, line: &EntryLine) -> RefusedText<'_>
    ensures joined { joined result ≡ unwrap_or (told_beside refusal line.now) [] }
    ensures short { length result.front ≤ 40 }
    ensures fits { length result.text.now ≤ MAX_LEN }
{
    match refusal {
        Refusal::Nothing => in_one(Line::new()),
        Refusal::Line => RefusedText {
            front: line_front(line),
            text: line.text(),
        },
        Refusal::Letter(letter) => in_one(letter_line(letter)),
    }
}

// A refusal where no line is typed; nothing where nothing was refused.
fn told_alone(refusal: Refusal) -> RefusedText<'static>
    ensures joined { joined result ≡ unwrap_or (told_alone refusal) [] }
    ensures short { length result.front ≤ 40 }
    ensures fits { length result.text.now ≤ MAX_LEN }
{
    match refusal {
        Refusal::Letter(letter) => in_one(letter_line(letter)),
        Refusal::Nothing | Refusal::Line => in_one(Line::new()),
    }
}

// What is told, by what the session does; nothing where nothing was refused.
fn told_by(refusal: Refusal, room: &Room) -> RefusedText<'_>
    ensures joined { joined result ≡ unwrap_or (told_by refusal room.now) [] }
    ensures short { length result.front ≤ 40 }
    ensures fits { length result.text.now ≤ MAX_LEN }
{
    match room {
        Room::Failed(message) => RefusedText {
            front: Line::new(),
            text: message.bytes(),
        },
        Room::Typing(room) => told_beside(refusal, &room.line),
        Room::Ready | Room::Pointing(_) | Room::Menu(_) | Room::Asking(_) => told_alone(refusal),
    }
}

// Whether the session is in READY.
fn is_ready(room: &Room) -> bool
    ensures { result ≡ is_ready room.now }
{
    match room {
        Room::Ready => true,
        Room::Typing(_) | Room::Pointing(_) | Room::Menu(_) | Room::Asking(_) | Room::Failed(_) =>
            false,
    }
}

impl Machine {
    /// Whether the last step refused something.
    pub fn has_refused(&self) -> bool
        ensures { result ≡ is_some (refused self.now.state) }
    {
        is_told(self.refusal, &self.room)
    }

    /// What the last step refused, as it is told; nothing where it refused nothing.
    pub fn refusal(&self) -> RefusedText<'_>
        ensures joined { joined result ≡ unwrap_or (refused self.now.state) [] }
        ensures short { length result.front ≤ 40 }
        ensures fits { length result.text.now ≤ MAX_LEN }
    {
        told_by(self.refusal, &self.room)
    }

    /// Whether nothing is left undone: the session is in READY, and no macro is at work.
    pub fn is_at_rest(&self) -> bool
        ensures { result ≡ is_at_rest self.now.state }
    {
        is_ready(&self.room) && !self.engine.is_running()
    }

    /// The mode that the session is left in, or CMD where that is READY.
    pub fn left_in(&self) -> &'static [u8]
        ensures text { result.now ≡ left_in self.now.state }
        ensures short { length result.now ≤ 5 }
    {
        match room_panel(&self.room).mode {
            Mode::Ready => b"CMD",
            mode => mode_name(mode),
        }
    }
}
