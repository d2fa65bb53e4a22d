//! Formulas as trees, with what a formula's tree keeps, and what cells hold.
#![tactic(auto)]

mod ast;
mod copies;
mod depth;
mod formula;
mod function;
mod ranges;
mod reads;
mod redirect;
mod same;
mod shape;
mod table;
mod value;
mod walk;

pub use ast::{Expr, ExprList, Op};
pub use formula::{Formula, TreeFault};
pub use function::Function;
pub use redirect::Redirect;
pub use shape::{level, top};
pub use table::{Counts, call_size, counts_of, is_volatile_function, takes};
pub use value::{Content, ContentRef, Value, ValueRef};
