// The tables that are made.
use grid_address::{Cell, Span};
use std::alloc::Global;

/// A table over a span whose inputs go to one cell, and the memory in which its writes are put.
#[derive(Clone, Copy)]
pub struct OneInput {
    pub alloc: Global,
    pub span: Span,
    pub input: Cell,
}

/// A table over a span whose inputs go to two cells, those of the first column and those of the top row, and the memory
/// in which its writes are put.
#[derive(Clone, Copy)]
pub struct TwoInputs {
    pub alloc: Global,
    pub span: Span,
    pub down: Cell,
    pub across: Cell,
}
