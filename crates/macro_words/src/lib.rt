//! What the words of a macro do: a row for each, as the sheet and the macro now stand.
#![tactic(auto)]

mod asking;
mod define;
mod file_rows;
mod files;
mod frames;
mod going;
mod items;
mod keys;
mod looping;
mod rows;
mod running;
mod shown;
mod source;
mod table;
mod values;
mod waiting;
mod writing;

pub use files::{FileDeed, FileWord};
pub use frames::{Frame, Frames, Loop};
pub use going::{ALL_ON, start_of};
pub use items::{beside, item_text};
pub use keys::key_row;
pub use looping::return_row;
pub use rows::{is_true, moves};
pub use running::{Change, Deed, Handler, Move, Row, Running, Sweep};
pub use source::Source;
pub use table::row;
pub use waiting::{KeptQuestion, MacroMenu, Question, Switches, Waiting, Wanted};
