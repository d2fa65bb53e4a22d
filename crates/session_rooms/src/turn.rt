// What a key comes to.

use crate::{AnsweredCommand, Room};
use cell_pointer::Way;
use desk_errors::CommandError;
use entry_line::EntryLine;
use key_words::Letter;

/// What a key comes to. A room decides on it and changes nothing; the session carries it out.
#[derive(Drop)]
pub enum Turn {
    /// The session does this now; also where a key is passed over.
    Become(Room),
    /// The pointer moves, and nothing is typed.
    Move(Way),
    /// END waits for a moving key.
    Mark,
    /// The line is entered into the pointer's cell, and then the pointer moves.
    Finish(Way, EntryLine),
    /// A command has these answers: its next prompt follows, or it is carried out.
    Ask(AnsweredCommand),
    /// A command is carried out: its choice was made, or its key was pressed.
    Act(AnsweredCommand),
    /// All is recalculated.
    Recalculate,
    /// A macro starts, where none runs.
    Start(Letter),
    /// The last command is taken back.
    Undo,
    /// The key, the answer or the command is refused.
    Fail(CommandError),
}
