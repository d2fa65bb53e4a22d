// Rows that are erased.
ghost use Rattle.std.specs.Prelude.{◌≡◌, ◌≤◌, ◌<◌, ◌+◌, ◌++◌, OnOk, map};
ghost use Rattle.grid_address.specs.Lines.{last_row};
ghost use Rattle.block_writes.specs.Writing.{across, columns_of, erased, numbers_from};
ghost use Rattle.data_query.specs.Selection.{rows_erased};

use block_writes::{column_at, written};
use formula_tree::Content;
use grid_address::{Cell, Span};
use lics_text::Memory;
use sheet_store::Writes;

// Adds what erases the cells of a row in a span's columns.
fn push_row_erased(writes: &mut Writes, span: Span, row: u16) -> Result<(), Memory>
    requires { row ≤ last_row }
    ensures { OnOk result (writes.new ≡ writes.old ++ map erased (across row (columns_of span))) }
{
    for col in 0..span.width() {
        let col = column_at(span, col);
        writes.push(written(Cell { row, col }, Content::Blank))?;
    }
    Ok(())
}

/// Adds what erases so many rows in a span's columns, from a row on.
pub fn push_rows_erased(
    writes: &mut Writes,
    span: Span,
    first: u16,
    count: u16,
) -> Result<(), Memory>
    requires { first + count ≤ last_row + 1 }
    ensures { OnOk result (writes.new ≡ writes.old ++ rows_erased (columns_of span) (numbers_from first count)) }
{
    for place in 0..count {
        push_row_erased(writes, span, first + place)?;
    }
    Ok(())
}
