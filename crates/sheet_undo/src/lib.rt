//! Undo: the states of a worksheet before its last commands, told by what they have otherwise than the sheet.
#![tactic(auto)]

mod alike;
mod cells;
mod changes;
mod columns;
mod difference;
mod kept;
mod laws;
mod names;
mod past;

pub use kept::KeptState;
pub use laws::as_many_undos_give_the_first_state;
pub use past::Past;
