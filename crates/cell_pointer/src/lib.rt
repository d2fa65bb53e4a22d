//! Where the moving keys lead.
#![tactic(auto)]

mod keys;
mod moves;
mod runs;
mod steps;
mod way;

pub use keys::{arrow_of, finish_of, move_after_end, move_of};
pub use moves::moved;
pub use steps::stepped;
pub use way::{Arrow, Way};
