// Which of the cells that a table writes is protected.
ghost use Rattle.std.specs.Prelude.{◌≡◌, ◌≤◌, map};
ghost use Rattle.std.specs.List.{find};
ghost use Rattle.block_writes.specs.Writing.{at};
ghost use Rattle.command_desk.specs.Acting.{first_protected};
ghost use Rattle.commands_data.specs.TableCommands.{answer_cells, changed_cells};
ghost use Rattle.data_blocks.specs.Tables.{columns_behind};
ghost use Rattle.sheet_edits.specs.Edits.{is_protected};
ghost use Rattle.work_sheet.specs.Seen.{of_worksheet};

use data_blocks::{cell_across, cell_down, columns_behind, rows_below};
use grid_address::{Cell, Span};
use sheet_edits::is_marked;
use work_sheet::Worksheet;

/// Whether protection is on, and a cell is marked.
pub fn is_protected(sheet: &Worksheet, cell: Cell) -> bool
    ensures { result ≡ is_protected sheet.now.settings sheet.now.grid cell }
{
    sheet.settings().protection && is_marked(sheet.cells(), cell)
}

// The first protected cell among some.
fn protected_among(sheet: &Worksheet, cells: &[Cell]) -> Option<Cell>
    ensures { result ≡ first_protected cells.now (of_worksheet sheet.now) }
{
    for cell in cells {
        if is_protected(sheet, *cell) {
            return Some(*cell);
        }
    }
    None
}

// The first protected cell of a row that takes answers.
fn protected_in_row(sheet: &Worksheet, span: Span, row: u16) -> Option<Cell>
    requires { row ≤ span.last.row }
    ensures { result ≡ first_protected (map (at row) (columns_behind span)) (of_worksheet sheet.now) }
{
    let count = columns_behind(span);
    for place in 0..count {
        let col = cell_across(span, place).col;
        let cell = Cell { row, col };
        if is_protected(sheet, cell) {
            return Some(cell);
        }
    }
    None
}

// The first protected cell of those that take answers, in row order.
fn protected_answer(sheet: &Worksheet, span: Span) -> Option<Cell>
    ensures { result ≡ first_protected (answer_cells span) (of_worksheet sheet.now) }
{
    let count = rows_below(span);
    for place in 0..count {
        let row = cell_down(span, place).row;
        if let Some(cell) = protected_in_row(sheet, span, row) {
            return Some(cell);
        }
    }
    None
}

/// The first protected cell of those that a table writes: its input cells as they are given, and then the cells that
/// take answers, in row order.
pub fn protected_of_table(sheet: &Worksheet, span: Span, inputs: &[Cell]) -> Option<Cell>
    ensures { result ≡ first_protected (changed_cells span inputs.now) (of_worksheet sheet.now) }
{
    match protected_among(sheet, inputs) {
        Some(cell) => Some(cell),
        None => protected_answer(sheet, span),
    }
}
