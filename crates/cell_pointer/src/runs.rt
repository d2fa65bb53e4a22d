// The ends of runs of filled cells.
ghost use Rattle.std.specs.Prelude.{◌≡◌, ◌∷◌, [], IfNone, IfSome};
ghost use Rattle.cell_pointer.specs.Moves.{ahead, is_filled, next_filled, run_end, run_from};

use crate::Arrow;
use grid_address::{Cell, LAST_COLUMN, LAST_ROW};
use sheet_store::Store;

// Whether a cell has a content.
fn is_filled(cells: &Store, cell: Cell) -> bool
    ensures { result ≡ is_filled cells.now cell }
{
    match cells.get(cell) {
        Some(state) => !state.is_blank(),
        None => false,
    }
}

// The next cell, in a hidden column too; none at the edge.
fn next_cell(arrow: Arrow, cell: Cell) -> Option<Cell>
    ensures some { IfSome result (λ next. ahead arrow cell ≡ next ∷ ahead arrow next) }
    ensures none { IfNone result (ahead arrow cell ≡ []) }
{
    let Cell { row, col } = cell;
    match arrow {
        Arrow::Up => {
            if row > 0 {
                Some(Cell { row: row - 1, col })
            } else {
                None
            }
        }
        Arrow::Down => {
            if row < LAST_ROW {
                Some(Cell { row: row + 1, col })
            } else {
                None
            }
        }
        Arrow::Left => {
            if col > 0 {
                Some(Cell { row, col: col - 1 })
            } else {
                None
            }
        }
        Arrow::Right => {
            if col < LAST_COLUMN {
                Some(Cell { row, col: col + 1 })
            } else {
                None
            }
        }
    }
}

// The last cell of the run that a filled cell lies in.
fn run_end(arrow: Arrow, cells: &Store, from: Cell) -> Cell
    ensures { result ≡ run_end cells.now from (ahead arrow from) }
{
    let mut here = from;
    while let Some(next) = next_cell(arrow, here) {
        if !is_filled(cells, next) {
            return here;
        }
        here = next;
    }
    here
}

// The next filled cell, or the edge.
fn next_filled(arrow: Arrow, cells: &Store, from: Cell) -> Cell
    ensures { result ≡ next_filled cells.now from (ahead arrow from) }
{
    let mut here = from;
    while let Some(next) = next_cell(arrow, here) {
        if is_filled(cells, next) {
            return next;
        }
        here = next;
    }
    here
}

/// The end of a filled run where this cell and the next are filled, else the next filled cell, else the edge.
pub fn run_from(arrow: Arrow, cells: &Store, from: Cell) -> Cell
    ensures { result ≡ run_from cells.now from (ahead arrow from) }
{
    match next_cell(arrow, from) {
        Some(next) => {
            if is_filled(cells, from) && is_filled(cells, next) {
                run_end(arrow, cells, next)
            } else {
                next_filled(arrow, cells, from)
            }
        }
        None => from,
    }
}
