//! Recalculation: the dirty formulas alone are evaluated, and the values are those of evaluating all.
#![tactic(auto)]

mod cells;
mod columns;
mod context;
mod evaluate;
mod laws;
mod leave;
mod reads;
mod recalculation;
mod span;
mod view;
mod whole;

pub use cells::{content_of, format_of, number_of, value_of, width_of};
pub use context::ContextRef;
pub use evaluate::evaluate_at;
pub use laws::{any_order_serves, edit_keeps_sound, recalculation_is_cut};
pub use recalculation::{Circ, recalc};
pub use span::recalc_span;
pub use view::View;
pub use whole::{all_dirty, formula_node, graph_of};
