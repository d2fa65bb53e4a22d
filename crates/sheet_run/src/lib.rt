//! A run of the worksheet program: words of the command line, keys, clock and files go in, and screens and notes come
//! out, until the keys end or ask to quit, or a named cause ends it.
#![tactic(auto)]

mod displays;
mod drive;
mod key_feed;
mod laws;
mod notes;
mod opening;
mod options;
mod outside;
mod runs;
mod words;

pub use laws::{a_run_has_one_outcome, as_many_undos_give_the_sheet_back};
pub use runs::{a_run_ends_well, run};
pub use words::Words;
