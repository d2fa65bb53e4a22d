// Arguments of functions.

use formula_tree::Value;
use grid_address::{Cell, Span};

/// What an argument is as a range: a cell, a span, or neither.
#[derive(Clone, Copy)]
pub enum Operand {
    Other,
    Cell(Cell),
    Span(Span),
}

/// An argument: its value, and what it is as a range.
#[derive(Drop)]
pub struct Argument {
    pub value: Value,
    pub operand: Operand,
}
