//! What formulas mean, with the records that their functions of records speak of, counted for each evaluation; and what
//! a sheet evaluates with.
#![tactic(auto)]

mod meaning;
mod means;

pub use meaning::{Tally, evaluate, glance};
pub use means::Means;
