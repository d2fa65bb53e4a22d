// The keys.

use crate::Letter;
use lics_text::TextByte;

/// A key of Release 2, or one of this project's additions, which are Break and Undo. A typed byte is 32 to 255, and Alt
/// comes with its letter.
#[derive(Clone, Copy)]
pub enum Key {
    Byte(TextByte),
    Enter,
    Up,
    Down,
    Left,
    Right,
    Home,
    End,
    PgUp,
    PgDn,
    BigLeft,
    BigRight,
    Esc,
    Bs,
    Del,
    Edit,
    Name,
    Abs,
    Goto,
    Window,
    Query,
    Table,
    Calc,
    Graph,
    Break,
    Undo,
    Alt(Letter),
}
