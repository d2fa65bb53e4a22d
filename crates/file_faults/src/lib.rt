//! The faults of worksheet files as they are told: `F8 15 58` and their like.
#![tactic(auto)]

mod texts;

pub use texts::{fault_line, plain_line};
