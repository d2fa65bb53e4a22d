//! The commands below File, over the desk and the shelf of files.
#![tactic(auto)]

mod acting;
mod calling;
mod combining;
mod extracting;
mod laws;
mod loading;
mod looking;

pub use acting::act;
pub use calling::{end_of_put, put_bytes};
pub use laws::a_call_has_one_answer;
pub use looking::{Looked, look};
