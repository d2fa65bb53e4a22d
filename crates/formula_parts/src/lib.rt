//! What the parts of a formula are worth, over any answer for its functions of records: operators, functions, lists and
//! lookups; what a formula looks at; and what is kept of that for evaluations behind it.
#![tactic(auto)]

mod argument;
mod attributes;
mod calls;
mod databases;
mod items;
mod kept;
mod lists;
mod look;
mod lookups;
mod meaning;
mod numbers;
mod rising;
mod standpoint;
mod totals;

pub use argument::{Argument, Operand};
pub use databases::Databases;
pub use items::{Item, put_cell};
pub use kept::Kept;
pub use lists::total_in;
pub use look::{Look, Scene};
pub use lookups::{place_in, range_of};
pub use meaning::{composed, filled_in, glance_within, value_of};
pub use numbers::{number_within, plain_number};
pub use standpoint::Standpoint;
pub use totals::{Total, value_for};
