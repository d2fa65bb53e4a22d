// Rows and columns inserted or deleted.
ghost use Rattle.std.specs.Prelude.{◌≡◌, ◌≤◌, ◌<◌, IfOk, IfSome};
ghost use Rattle.ref_adjust.specs.Adjusted.{adjusted, formula_shifted};
ghost use Rattle.ref_adjust.specs.Lines.{line_deleted, line_inserted, place_shifted, span_shifted, with_col, with_row, AreLines, IsChange};

use crate::kinds::{reference_like, span_of_corners};
use formula_tree::{Formula, Redirect};
use grid_address::{COLUMNS, Cell, ROWS, Ref, Span};
use lics_text::Memory;

/// Lines inserted or deleted: the first line and the count.
#[derive(Clone, Copy)]
pub enum Change {
    InsertRows(u16, u16),
    InsertColumns(u16, u16),
    DeleteRows(u16, u16),
    DeleteColumns(u16, u16),
}

// Where one of so many lines is after an insert; none past the last.
fn line_inserted(lines: u16, first: u16, count: u16, line: u16) -> Option<u16>
    requires most { lines ≤ ROWS }
    requires inside { line < lines }
    requires lines { AreLines lines first count }
    ensures line { result ≡ line_inserted lines first count line }
    ensures inside { IfSome result (λ l. l < lines) }
{
    if line < first {
        Some(line)
    } else if line + count < lines {
        Some(line + count)
    } else {
        None
    }
}

// Where a line is after a delete; none where it is deleted.
fn line_deleted(lines: u16, first: u16, count: u16, line: u16) -> Option<u16>
    requires most { lines ≤ ROWS }
    requires inside { line < lines }
    requires lines { AreLines lines first count }
    ensures line { result ≡ line_deleted first count line }
    ensures inside { IfSome result (λ l. l < lines) }
{
    if line < first {
        Some(line)
    } else if line < first + count {
        None
    } else {
        Some(line - count)
    }
}

// A cell in another row; none where there is no row.
fn with_row(cell: Cell, row: Option<u16>) -> Option<Cell>
    requires { IfSome row (λ r. r < ROWS) }
    ensures { result ≡ with_row cell row }
{
    match row {
        Some(row) => Some(Cell { row, col: cell.col }),
        None => None,
    }
}

// A cell in another column; none where there is no column.
fn with_col(cell: Cell, col: Option<u16>) -> Option<Cell>
    requires { IfSome col (λ c. c < COLUMNS) }
    ensures { result ≡ with_col cell col }
{
    match col {
        Some(col) => Some(Cell {
            row: cell.row,
            col: col as u8,
        }),
        None => None,
    }
}

/// Where a cell is after rows or columns were inserted or deleted: at least one, and none past the last. None comes
/// exactly where it was deleted or has left the sheet.
pub fn cell_shifted(change: Change, cell: Cell) -> Option<Cell>
    requires { IsChange change }
    ensures { result ≡ place_shifted change cell }
{
    let row = cell.row;
    let col = u16::from(cell.col);
    match change {
        Change::InsertRows(first, count) => with_row(cell, line_inserted(ROWS, first, count, row)),
        Change::InsertColumns(first, count) => with_col(
            cell,
            line_inserted(COLUMNS, first, count, col),
        ),
        Change::DeleteRows(first, count) => with_row(cell, line_deleted(ROWS, first, count, row)),
        Change::DeleteColumns(first, count) => with_col(
            cell,
            line_deleted(COLUMNS, first, count, col),
        ),
    }
}

// A change, seen by a formula whose cell has gone from the old to the new place.
#[derive(Drop)]
struct Shift {
    old_at: Cell,
    new_at: Cell,
    change: Change,
    ghost lines: { IsChange change },
}

impl Redirect for Shift {
    ghost use Rattle.ref_adjust.specs.Adjusted.{adjusted};
    ghost use Rattle.ref_adjust.specs.Lines.{place_shifted};

    ghost new_reference = { λ s. adjusted (place_shifted s.change) s.old_at s.new_at };

    fn redirect(&self, reference: Ref) -> Option<Ref> {
        let place = cell_shifted(self.change, reference.resolve(self.old_at));
        reference_like(reference, self.new_at, place)
    }
}

/// A formula whose cell has gone from `old_at` to `new_at`, after rows or columns were inserted or deleted: at least
/// one, and none past the last. References follow their cells. A reference to a cell that was deleted or has left the
/// sheet becomes `@ERR`, and so does a span with such a corner. A formula that doesn't change shares its tree
/// with the given one.
pub fn shifted(
    formula: &Formula,
    old_at: Cell,
    new_at: Cell,
    change: Change,
) -> Result<Formula, Memory>
    requires { IsChange change }
    ensures { IfOk result (λ f. f ≡ formula_shifted change old_at new_at formula.now) }
{
    let by = Shift {
        old_at,
        new_at,
        change,
    };
    formula.redirected(&by)
}

/// A span after rows or columns were inserted or deleted: at least one, and none past the last. None comes exactly
/// where a corner was deleted or has left the sheet.
pub fn span_shifted(span: Span, change: Change) -> Option<Span>
    requires { IsChange change }
    ensures { result ≡ span_shifted change span }
{
    span_of_corners(
        cell_shifted(change, span.first),
        cell_shifted(change, span.last),
    )
}
