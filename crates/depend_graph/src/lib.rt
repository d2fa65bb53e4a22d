//! Which formulas reach a cell through what they read.
#![tactic(auto)]

mod banks;
mod closure;
mod graph;
mod in_order;
mod lists;
mod marks;
mod node;
mod readers;
mod sets;
mod slots;
mod spread;

pub use graph::Graph;
pub use node::{Node, Reads};
pub use sets::{cut_back, insert, insert_all};
