//! The states that cells had before they were written.
#![tactic(auto)]

mod change;
mod log;
mod runs;

pub use change::{Change, make_all};
pub use log::EditLog;
