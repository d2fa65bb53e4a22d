// The lines of the shown columns: that of their letters, and the rows.
ghost use Rattle.std.specs.Prelude.{◌≡◌, ◌<◌, ◌≤◌, ◌++◌, ◌+◌, ◌-◌, [], length, take, drop, unwrap_or};
ghost use Rattle.std.specs.Option.{ForSome};
ghost use Rattle.screen_layout.specs.Columns.{column_text, columns_line, head_text, margin};
ghost use Rattle.screen_layout.specs.Lines.{shown_line};
ghost use Rattle.shown_cells.specs.Cells.{padded};
ghost use Rattle.work_sheet.specs.Seen.{of_worksheet};

use crate::cells::{add_cell, add_text};
use crate::painted_line::PaintedLine;
use crate::shown_columns::{Column, Coming};
use grid_address::{Cell, ROWS, column_text, row_text};
use lics_text::Line;
use sheet_store::MOST_WIDTH;
use shown_cells::put_blanks;
use work_sheet::Worksheet;

// Adds the letters of a column, with half of the free bytes on their left.
#[tactic(auto, using(std::proofs::lemmas::List::take_min))]
#[inline(never)]
fn add_head(line: &mut PaintedLine, col: u8, width: u8)
    requires { width ≤ MOST_WIDTH }
    ensures line { line.new ≡ take 80 (line.old ++ padded width (head_text col width)) }
    ensures rest { drop width (head_text col width) ≡ [] }
{
    let name = column_text(col);
    let letters = name.bytes();
    let free = usize::from(width).saturating_sub(letters.len());
    let mut text = Line::new();
    put_blanks(free / 2, &mut text);
    text.put_all(letters);
    let bytes = text.bytes();
    add_text(line, &bytes[..usize::from(width).min(bytes.len())], width);
}

// Adds a column's part of the line of letters, or of a row. The answer is what runs on into the next column.
fn add_column<'a>(
    line: &mut PaintedLine,
    sheet: &'a Worksheet,
    row: Option<u16>,
    column: Column,
    over: &'a [u8],
) -> &'a [u8]
    requires row { ForSome row (λ r. r < ROWS) }
    requires width { column.width ≤ MOST_WIDTH }
    ensures line { line.new ≡ take 80 (line.old ++
        padded column.width (unwrap_or (column_text (of_worksheet sheet.now) row column) over.now)) }
    ensures rest { result.now ≡
        drop column.width (unwrap_or (column_text (of_worksheet sheet.now) row column) over.now) }
{
    let Column { col, width } = column;
    match row {
        None => {
            add_head(line, col, width);
            b""
        }
        Some(row) => add_cell(line, sheet, Cell { row, col }, width, over),
    }
}

// The four bytes before the columns: blanks, or the number of a row.
fn margin_of(row: Option<u16>) -> PaintedLine
    requires { ForSome row (λ r. r < ROWS) }
    ensures { result ≡ margin row }
{
    let mut line = PaintedLine::new();
    match row {
        None => line.fill(4),
        Some(row) => {
            let number = row_text(row);
            let digits = number.bytes();
            line.fill(4usize.saturating_sub(digits.len()));
            line.add(80, digits);
        }
    }
    line
}

/// The line of letters, or a row below 8192, from a column on, with the shown columns beside each other.
pub fn columns_line(sheet: &Worksheet, row: Option<u16>, first: u8) -> [u8; 80]
    requires { ForSome row (λ r. r < ROWS) }
    ensures { result ≡ shown_line (columns_line (of_worksheet sheet.now) row first) }
{
    let mut line = margin_of(row);
    let mut over: &[u8] = b"";
    let mut coming = Coming::from_column(first);
    while let Some(column) = coming.next_in(sheet) {
        over = add_column(&mut line, sheet, row, column, over);
    }
    line.finish()
}
