//! The order in which formulas are evaluated: each after what it reads, as far as circles allow.
#![tactic(auto)]

mod laws;
mod precedents;
mod walker;

pub use laws::{order_covers, order_is_cut, order_precedes};
pub use precedents::Precedents;
pub use walker::{FormulaOrder, order_of};
