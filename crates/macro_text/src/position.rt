// Where a macro is read.

use grid_address::Cell;

/// A place in a macro's text: a cell, and the offset of a byte in the text that it holds, counted from 0. An offset
/// past the text is its end.
#[derive(Clone, Copy)]
pub struct Spot {
    pub cell: Cell,
    pub offset: usize,
}

/// Where a macro goes on: the place of the next word, and how often that word was typed already.
#[derive(Clone, Copy)]
pub struct Position {
    pub spot: Spot,
    pub typed: u32,
}
