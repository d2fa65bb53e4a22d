//! Screens, displays and their frames: what a display tells, and how a screen is sent by its changes.
#![tactic(auto)]

mod ansi;
mod display;
mod last;
mod line_set;
mod page;
mod recorder;
mod screen;
mod sender;

pub use ansi::AnsiDisplay;
pub use display::{Display, DisplayKind};
pub use last::LastDisplay;
pub use line_set::LineSet;
pub use page::PageDisplay;
pub use recorder::Recorder;
pub use screen::Screen;
pub use sender::send_lines;
