//! The words of a macro on the text file that it reads and writes, carried out: what they do to the file and the shelf,
//! and what they then do to the sheet and the macro.
#![tactic(auto)]

mod deeds;
mod serving;

pub use serving::{serve, target_of};
