//! Edits of a store with the graph of its formulas and the set of its dirty ones: what takes memory comes first.
#![tactic(auto)]

mod changes;
mod edit;
mod line;
mod many;
mod parts;
mod spans;
mod states;
mod writes;

pub use changes::Changes;
pub use edit::write_cell;
pub use line::write_evaluated;
pub use many::{change_cells, write_cells};
pub use parts::Parts;
pub use spans::{
    FormatChange, cells_of, copied, erased, first_of, reformatted, refusing, target_of,
};
pub use states::{is_marked, state_of};
pub use writes::{gathered, state_written};
