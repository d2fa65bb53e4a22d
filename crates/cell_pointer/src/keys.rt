// Which keys move the pointer.
ghost use Rattle.std.specs.Prelude.{◌≡◌};
ghost use Rattle.cell_pointer.specs.Keys.{arrow_of, finish_of, move_after_end, move_of};

use crate::{Arrow, Way};
use key_words::Key;

/// The arrow that a key is.
pub fn arrow_of(key: &Key) -> Option<Arrow>
    ensures { result ≡ arrow_of key.now }
{
    match key {
        Key::Up => Some(Arrow::Up),
        Key::Down => Some(Arrow::Down),
        Key::Left => Some(Arrow::Left),
        Key::Right => Some(Arrow::Right),
        _ => None,
    }
}

/// Where a moving key moves the pointer: an arrow, PGUP, PGDN, BIGLEFT, BIGRIGHT and HOME.
pub fn move_of(key: &Key) -> Option<Way>
    ensures { result ≡ move_of key.now }
{
    match key {
        Key::Up => Some(Way::Step(Arrow::Up)),
        Key::Down => Some(Way::Step(Arrow::Down)),
        Key::Left => Some(Way::Step(Arrow::Left)),
        Key::Right => Some(Way::Step(Arrow::Right)),
        Key::PgUp => Some(Way::PageUp),
        Key::PgDn => Some(Way::PageDown),
        Key::BigLeft => Some(Way::WindowLeft),
        Key::BigRight => Some(Way::WindowRight),
        Key::Home => Some(Way::Home),
        _ => None,
    }
}

/// Where a key moves the pointer that finishes a line, which Enter and the moving keys do.
pub fn finish_of(key: &Key) -> Option<Way>
    ensures { result ≡ finish_of key.now }
{
    match key {
        Key::Enter => Some(Way::Stay),
        _ => move_of(key),
    }
}

/// Where a moving key moves the pointer behind END: an arrow goes to the end of a run and HOME to the last used row and
/// column; END has no effect before any other.
pub fn move_after_end(key: &Key) -> Option<Way>
    ensures { result ≡ move_after_end key.now }
{
    match key {
        Key::Up => Some(Way::Run(Arrow::Up)),
        Key::Down => Some(Way::Run(Arrow::Down)),
        Key::Left => Some(Way::Run(Arrow::Left)),
        Key::Right => Some(Way::Run(Arrow::Right)),
        Key::Home => Some(Way::LastUsed),
        _ => move_of(key),
    }
}
