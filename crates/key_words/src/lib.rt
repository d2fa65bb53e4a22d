//! The keys of 1-2-3, and their notation.
#![tactic(auto)]

mod begun;
mod command;
mod key;
mod letter;
mod macro_word;
mod name;
mod reader;

pub use command::Command;
pub use key::Key;
pub use letter::Letter;
pub use macro_word::{Arguments, Cut, MacroWord, glanced_key, unit_at};
pub use reader::{Fed, KeyReader, notation_reads_one_way};
