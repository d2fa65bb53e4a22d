// What a cell shows.
ghost use Rattle.std.specs.Prelude.{◌≡◌, ◌≤◌, ◌++◌, ◌+◌, [], length, drop, unwrap_or};
ghost use Rattle.print_report.specs.Cells.{cell_text};
ghost use Rattle.print_report.specs.Jobs.{sheet_of};
ghost use Rattle.shown_cells.specs.Cells.{padded};
ghost use Rattle.shown_cells.specs.Parts.{fitting_text, shown_text};

use crate::PrintedSheet;
use grid_address::Cell;
use lics_text::{ByteList, Line, MAX_LEN};
use sheet_store::MOST_WIDTH;
use shown_cells::{Fitting, Shown, put_fitting, shown_in};

/// A row of the report while it is put together.
pub type Row = ByteList<255>;

static BLANKS: [u8; MAX_LEN] = [b' '; MAX_LEN];

// Adds a text in a column's width, cut or filled. The answer is what is left of the text.
#[tactic(auto, using(crate::proofs::Cutting::text_added))]
fn add_text<'a>(row: &mut Row, text: &'a [u8], width: u8) -> &'a [u8]
    requires width { width ≤ MOST_WIDTH }
    requires room { length row.old + width ≤ 255 }
    ensures line { row.new ≡ row.old ++ padded width text.now }
    ensures rest { result.now ≡ drop width text.now }
{
    let width = usize::from(width);
    let shown = width.min(text.len());
    row.put_all(&text[..shown]);
    row.put_all(&BLANKS[..width - shown]);
    &text[shown..]
}

// Adds what fits a column's width, so that none is left.
#[tactic(auto, using(std::proofs::lemmas::List::drop_all))]
fn add_fitting(row: &mut Row, shown: &Fitting, width: u8)
    requires width { width ≤ MOST_WIDTH }
    requires room { length row.old + width ≤ 255 }
    ensures line { row.new ≡ row.old ++ padded width (fitting_text shown.now width) }
    ensures rest { drop width (fitting_text shown.now width) ≡ [] }
{
    let mut text = Line::new();
    put_fitting(shown, width, &mut text);
    add_text(row, text.bytes(), width);
}

// Adds what a cell shows of its own. The answer is what is left of a text that runs on.
fn add_shown<'a>(row: &mut Row, shown: &Shown<'a>, width: u8) -> &'a [u8]
    requires width { width ≤ MOST_WIDTH }
    requires room { length row.old + width ≤ 255 }
    ensures line { row.new ≡ row.old ++ padded width (shown_text shown.now width) }
    ensures rest { result.now ≡ drop width (shown_text shown.now width) }
{
    match shown {
        Shown::RunsOn(text) => add_text(row, text, width),
        Shown::Fits(fitting) => {
            add_fitting(row, fitting, width);
            b""
        }
    }
}

/// Adds what a cell shows in its column's width, or in a blank cell the text that runs on into it. The answer is what
/// runs on into the next column.
pub fn add_cell<'a>(
    row: &mut Row,
    sheet: &PrintedSheet<'a>,
    cell: Cell,
    width: u8,
    over: &'a [u8],
) -> &'a [u8]
    requires width { width ≤ MOST_WIDTH }
    requires room { length row.old + width ≤ 255 }
    ensures line { row.new ≡ row.old ++ padded width (unwrap_or (cell_text (sheet_of sheet.now) cell width) over.now) }
    ensures rest { result.now ≡ drop width (unwrap_or (cell_text (sheet_of sheet.now) cell width) over.now) }
{
    let settings = sheet.settings;
    let state = sheet.store.get(cell);
    match shown_in(state, sheet.names, settings.format, cell, width) {
        Some(shown) => add_shown(row, &shown, width),
        None => add_text(row, over, width),
    }
}
