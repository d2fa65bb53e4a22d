// Blocks of the sheet.
ghost use Rattle.std.specs.Prelude.{◌≡◌, ◌<◌, true};
ghost use Rattle.grid_address.specs.Place.{place_cmp};
ghost use Rattle.range_index.specs.inner.Blocks.{are_one, block_at, power, size_of};

use grid_address::{Cell, Span};
use std::marker::Model;

/// How many rows and columns a block has, as powers of two, 13 at most.
#[derive(Clone, Copy, PartialEq, Eq, PartialOrd, Ord)]
pub struct Size {
    pub rows: u8,
    pub cols: u8,
}

impl Model for Size {
    ghost use Rattle.std.specs.Prelude.{◌<◌};
    ghost use Rattle.range_index.specs.inner.Powers.{Powers};

    ghost Value = { Powers };

    ghost view = { λ s. record { rows = s.rows; cols = s.cols } };

    ghost invariant = { λ s. (s.rows < 14) × (s.cols < 14) };

    ghost inverse = { λ p. record { rows = p.rows; cols = p.cols } };
}

/// A block of cells: its size, and which one it is of that size, by rows and by columns.
#[derive(Clone, Copy, PartialEq, Eq, PartialOrd, Ord)]
pub struct Block {
    pub size: Size,
    pub row: u16,
    pub col: u16,
}

// The least power of two that divides both numbers to the same number, 13 at most.
fn power(first: u16, last: u16) -> u8
    ensures is { result ≡ power first last }
    ensures small { result < 14 }
{
    for power in 0..13 {
        if first >> power == last >> power {
            return power;
        }
    }
    13
}

/// The least size of which one block holds the span.
pub fn size_of(span: Span) -> Size
    ensures is { result ≡ size_of span }
    ensures one { are_one span ≡ true }
{
    span.first.is_on_sheet();
    span.last.is_on_sheet();
    Size {
        rows: power(span.first.row, span.last.row),
        cols: power(u16::from(span.first.col), u16::from(span.last.col)),
    }
}

/// The block of a size that holds the cell.
pub fn block_at(size: Size, cell: Cell) -> Block
    ensures { result ≡ block_at size cell }
{
    Block {
        size,
        row: cell.row >> size.rows,
        col: u16::from(cell.col) >> size.cols,
    }
}
