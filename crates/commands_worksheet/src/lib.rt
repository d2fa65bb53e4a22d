//! The commands below the menu Worksheet, on the worksheet alone.
#![tactic(auto)]

mod acting;
mod columns;
mod lines;
mod settings;

pub use acting::act;
