// Cells by column and then by row.
ghost use Rattle.std.specs.Prelude.{◌≡◌, ◌<◌, ◌++◌, length, nat_eq, IfOk, OnOk, true};
ghost use Rattle.std.specs.List.{filter};
ghost use Rattle.grid_address.specs.Place.{same_place, InSheet, Place};
ghost use Rattle.cell_maps.specs.Sets.{has};
ghost use Rattle.recalculation.specs.Reading.{by_columns};

use grid_address::{COLUMNS, Cell};
use lics_text::Memory;
use std::alloc::Global;

// The cells lie in the sheet. It does nothing, and is called for its clause.
fn are_on_sheet(cells: &[Cell])
    ensures { (c : Place) → has same_place cells.now c ≡ true → InSheet c }
{
    for cell in cells {
        cell.is_on_sheet();
    }
}

// Adds those of the cells that stand in a column.
fn add_column(list: &mut Vec<Cell>, cells: &[Cell], col: u16) -> Result<(), Memory>
    ensures { OnOk result (list.new.items ≡ list.old.items ++ filter (λ (c : Place). nat_eq c.col col) cells.now) }
{
    for cell in cells {
        if u16::from(cell.col) == col {
            list.push(*cell)?;
        }
    }
    Ok(())
}

// The cells by column, those of a column in their order.
pub fn by_columns(alloc: Global, cells: &[Cell]) -> Result<Vec<Cell>, Memory>
    ensures list { IfOk result (λ l. l.items ≡ by_columns cells.now) }
    ensures length { IfOk result (λ l. length l.items ≡ length cells.now) }
{
    are_on_sheet(cells);
    let mut list = Vec::new(alloc);
    for col in 0..COLUMNS {
        add_column(&mut list, cells, col)?;
    }
    Ok(list)
}
