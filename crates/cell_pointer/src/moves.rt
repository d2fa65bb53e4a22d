// Where each way leads.
ghost use Rattle.std.specs.Prelude.{◌≡◌};
ghost use Rattle.cell_pointer.specs.Moves.{moved, or_home, stepped_times};

use crate::runs::run_from;
use crate::steps::stepped;
use crate::{Arrow, Way};
use grid_address::{Cell, LAST_ROW};
use sheet_store::Store;

/// The rows of a page.
const PAGE: u16 = 20;

const HOME: Cell = Cell { row: 0, col: 0 };

// So many steps.
fn stepped_times(count: u8, arrow: Arrow, cells: &Store, from: Cell) -> Cell
    ensures { result ≡ stepped_times count arrow cells.now from }
{
    let mut here = from;
    for _step in 0..count {
        here = stepped(arrow, cells, here);
    }
    here
}

// A cell, or A1.
fn or_home(cell: Option<Cell>) -> Cell
    ensures { result ≡ or_home cell }
{
    match cell {
        Some(cell) => cell,
        None => HOME,
    }
}

/// Where a way leads from the pointer's cell over a sheet's cells, while so many columns are shown, 0 to 255; that
/// number counts for BIGLEFT and BIGRIGHT alone, which go at least one column. LEFT and RIGHT pass hidden columns; END
/// and an arrow don't look at them. Each stops at the edge (Release 2 manual; pages of twenty rows and the count of
/// columns are this project's choice). It takes no memory.
pub fn moved(way: Way, shown: u8, cells: &Store, pointer: Cell) -> Cell
    ensures { result ≡ moved way shown cells.now pointer }
{
    let Cell { row, col } = pointer;
    match way {
        Way::Stay => pointer,
        Way::Step(arrow) => stepped(arrow, cells, pointer),
        Way::Run(arrow) => run_from(arrow, cells, pointer),
        Way::PageUp => Cell {
            row: row.saturating_sub(PAGE),
            col,
        },
        Way::PageDown => Cell {
            row: (row + PAGE).min(LAST_ROW),
            col,
        },
        Way::WindowLeft => stepped_times(shown.max(1), Arrow::Left, cells, pointer),
        Way::WindowRight => stepped_times(shown.max(1), Arrow::Right, cells, pointer),
        Way::Home => HOME,
        Way::LastUsed => or_home(cells.last_used()),
    }
}
