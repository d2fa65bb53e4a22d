//! Which cells own spans that hold a cell.
#![tactic(auto)]

mod block;
mod hull;
mod index;
mod owners;
mod register;
mod search;

pub use hull::Hull;
pub use index::RangeIndex;
pub use owners::hold;
