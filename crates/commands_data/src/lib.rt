//! The commands below Data.
#![tactic(auto)]

mod acting;
mod bench;
mod distributing;
mod faults;
mod filling;
mod keeping;
mod making;
mod protection;
mod querying;
mod sorting;
mod tables;
mod trying;

pub use acting::act;
