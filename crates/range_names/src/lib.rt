//! The names of spans: a finite map from folded texts of 1 to 15 bytes.
#![tactic(auto)]

mod fault;
mod key;
mod names;
mod spots;
mod words;

pub use fault::NameFault;
pub use key::{fault_of, name_in};
pub use names::Names;
