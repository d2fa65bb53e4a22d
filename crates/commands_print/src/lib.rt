//! The commands below Print, over the desk and the shelf of files.
#![tactic(auto)]

mod acting;
mod keeping;
mod printing;

pub use acting::act;
