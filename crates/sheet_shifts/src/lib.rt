//! What a worksheet's cells, columns and names are after rows or columns were inserted or deleted, or a span was moved,
//! and why such an edit is refused.
#![tactic(auto)]

mod cells;
mod columns;
mod laws;
mod names;
mod protection;
mod pushing;
mod refusals;
mod shift;

pub use cells::store_after;
pub use laws::{cells_stand_where_they_went, the_first_protected_cell_is_named};
pub use names::names_after;
pub use refusals::refusal;
pub use shift::Shift;
