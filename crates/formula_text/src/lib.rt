//! The grammar of formulas: read from text, and printed.
#![tactic(auto)]

mod fault;
mod functions;
mod lex;
mod lexeme;
mod operands;
mod output;
mod parse;
mod printing;
mod reading;
mod rows;
mod signs;
mod sink;
mod whole;
mod words;

pub use fault::ParseFault;
pub use printing::print;
pub use reading::{a_text_is_read_as_it_spells, read};
pub use whole::print_whole;
