//! What the session is doing, with what belongs to it, what a key comes to there, and what the control panel and
//! the last line show beside the sheet.
#![tactic(auto)]

mod answers;
mod bytes;
mod lines;
mod panel;
mod pointed;
mod rooms;
mod turn;

pub use answers::{AnsweredCommand, Answers};
pub use bytes::{begins_value, ends_reference, wants_operand};
pub use lines::{extended, fits_line, last_byte, line_of_byte};
pub use panel::{Mode, Panel};
pub use pointed::{Pointed, Signs};
pub use rooms::{Answering, MenuRoom, PointRoom, PromptRoom, Room, TypingMode, TypingRoom};
pub use turn::Turn;
