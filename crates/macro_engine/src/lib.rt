//! The engine that runs macros over a worksheet.
#![tactic(auto)]

mod catching;
mod changes;
mod engine;
mod row_span;
mod steps;
mod sweeping;

pub use engine::{Engine, macro_named};
pub use row_span::RowSpan;
pub use steps::StepEnd;
