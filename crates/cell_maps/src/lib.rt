//! Cells told apart by dense numbers, and maps from cells to items and sets of cells by them.
#![tactic(auto)]

mod held;
mod map;
mod set;
mod table;

pub use held::Held;
pub use map::CellMap;
pub use set::{CellSet, are_same};
pub use table::{BAND_ROWS, PlaceTable};
