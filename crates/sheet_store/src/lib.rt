//! The sheet as one map: the states of its cells, the columns' own widths and marks, and the settings.
#![tactic(auto)]

mod entries;
mod held_order;
mod order;
mod own_width;
mod scan;
mod settings;
mod state;
mod store;
mod writes;

pub use entries::Entries;
pub use order::Order;
pub use own_width::MOST_WIDTH;
pub use settings::Settings;
pub use state::CellState;
pub use store::Store;
pub use writes::{SavedSheet, SheetFault, Write, Writes};
