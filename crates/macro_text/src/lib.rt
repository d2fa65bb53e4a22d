//! What a macro's text says: its words as they stand in a sheet, their arguments, and the next unit.
#![tactic(auto)]

mod arguments;
mod expression;
mod kept;
mod listed;
mod pieces;
mod position;
mod ranges;
mod text_list;
mod unit;

pub use arguments::ReadArguments;
pub use expression::{count_of, expression_value, formula_in, number_of, read_value};
pub use kept::{KeptWord, KeptWords};
pub use listed::{arguments_of, call_arguments, front, rest_of};
pub use pieces::{macro_text, part, text_in};
pub use position::{Position, Spot};
pub use ranges::{named_span, place_of, range_of};
pub use text_list::TextList;
pub use unit::{MacroFault, Unit, next_unit};
