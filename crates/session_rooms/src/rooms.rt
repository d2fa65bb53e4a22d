// What the session is doing.

use crate::{AnsweredCommand, Pointed};
use entry_line::EntryLine;
use lics_text::Line;
use menu_tree::Menu;

/// How a line is typed: it began as a label or as a value, to whose end bytes are added, or it is edited at its cursor.
#[derive(Clone, Copy)]
pub enum TypingMode {
    Label,
    Value,
    Edit,
}

/// A line that is typed into a cell. The cursor of a label and of a value stands at the end.
#[derive(Drop)]
pub struct TypingRoom {
    pub mode: TypingMode,
    pub line: EntryLine,
}

/// A value that is typed up to a reference, and the reference that is pointed at.
#[derive(Drop)]
pub struct PointRoom {
    pub line: EntryLine,
    pub pointed: Pointed,
}

/// A menu, and the place of its highlighted item.
#[derive(Clone, Copy)]
pub struct MenuRoom {
    pub menu: Menu,
    pub highlight: usize,
}

/// How a prompt is answered.
#[derive(Drop)]
pub enum Answering {
    /// A range or a cell is pointed at.
    Pointing(Pointed),
    /// A line is typed.
    Typing(EntryLine),
    /// The file name of the last save is shown; the first byte begins a new one.
    Kept(EntryLine),
    /// One of two items is chosen, of which this one is highlighted: to do nothing, or to go on.
    Choosing(usize),
}

/// A command that asks: the answers that it has, and how the next one is given.
#[derive(Drop)]
pub struct PromptRoom {
    pub command: AnsweredCommand,
    pub answering: Answering,
}

/// What the session is doing, with what belongs to it.
#[derive(Drop)]
pub enum Room {
    /// The pointer can be moved.
    Ready,
    Typing(TypingRoom),
    Pointing(PointRoom),
    Menu(MenuRoom),
    Asking(PromptRoom),
    /// An error is told, by this message.
    Failed(Line),
}
