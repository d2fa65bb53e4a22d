//! A line while it is edited, key by key.
#![tactic(auto)]

mod event;
mod line;

pub use event::LineEvent;
pub use line::EntryLine;
