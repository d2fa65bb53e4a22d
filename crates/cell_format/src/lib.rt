//! What a cell shows: numbers by their format byte, labels by their prefix, and the indicator of a format.
#![tactic(auto)]

mod dates;
mod indicators;
mod labels;
mod numbers;
mod plain;
mod push;
mod shape;

pub use indicators::indicator;
pub use labels::{mask, show_label};
pub use numbers::show_number;
pub use plain::put_plain;
pub use shape::{DateForm, Shape, shape_of};
