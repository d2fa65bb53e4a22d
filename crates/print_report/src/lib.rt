//! Reports: a range of a worksheet as pages of lines, with a header and a footer.
#![tactic(auto)]

mod bands;
mod cells;
mod job;
mod lines;
mod pages;
mod printing;
mod rows;
mod running;
mod settings;
mod sheet;

pub use printing::report;
pub use settings::{PrintFault, PrintSettings};
pub use sheet::PrintedSheet;
