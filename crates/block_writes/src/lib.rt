//! What blocks of cells write: copies of cells, values, and nothing.
#![tactic(auto)]

mod cells;
mod copies;
mod values;

pub use cells::{by_columns, push_down};
pub use copies::{copied, rows_copied, written};
pub use grid_address::column_at;
pub use values::{content_of, content_of_value, value_copied};
