//! References, formulas and spans after a span was moved, or rows or columns were inserted or deleted.
#![tactic(auto)]

mod change;
mod kinds;
mod laws;
mod moves;

pub use change::{Change, cell_shifted, shifted, span_shifted};
pub use laws::{references_follow_a_change, references_follow_a_move};
pub use moves::{cell_moved, moved, span_moved, target};
