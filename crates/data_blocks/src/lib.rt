//! Fill, sort, distribution and tables of blocks of cells, as lists of writes.
#![tactic(auto)]

mod bench;
mod distributing;
mod fault;
mod filling;
mod key;
mod one_input;
mod order;
mod ranges;
mod rows;
mod sort;
mod table;
mod table_cells;
mod two_inputs;

pub use bench::Bench;
pub use distributing::distribution;
pub use fault::BlockFault;
pub use filling::fill;
pub use key::SortKey;
pub use one_input::{shape_one, table_one};
pub use order::order_of_values;
pub use ranges::{DeskRanges, LastQuery, LastTable};
pub use sort::sort_rows;
pub use table_cells::{cell_across, cell_down, columns_behind, rows_below};
pub use two_inputs::{shape_two, table_two};
