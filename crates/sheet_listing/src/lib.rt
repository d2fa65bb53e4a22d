//! Worksheets as lines of text, which a program, a person or `diff` can read.
#![tactic(auto)]

mod cells;
mod columns;
mod lines;
mod names;
mod run;
mod settings;
mod sheet;
mod writing;

pub use run::list;
pub use sheet::list_sheet;
pub use writing::WriteFault;
