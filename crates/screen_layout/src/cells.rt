// What a cell shows.
ghost use Rattle.std.specs.Prelude.{◌≡◌, ◌≤◌, ◌++◌, ◌+◌, [], length, take, drop, unwrap_or};
ghost use Rattle.cell_format.specs.Numbers.{shown_number};
ghost use Rattle.screen_layout.specs.Columns.{cell_text};
ghost use Rattle.shown_cells.specs.Cells.{padded};
ghost use Rattle.shown_cells.specs.Parts.{fitting_text, shown_text};
ghost use Rattle.work_sheet.specs.Seen.{of_worksheet};

use crate::painted_line::PaintedLine;
use cell_format::show_number;
use fixed_value::Fixed;
use grid_address::{Cell, Format};
use lics_text::Line;
use sheet_store::MOST_WIDTH;
use shown_cells::{Fitting, Shown, put_fitting, shown_in};
use work_sheet::Worksheet;

/// Adds a text in a column's width, cut or filled; what doesn't fit the line is left out. The answer is what is left of
/// the text.
pub fn add_text<'a>(line: &mut PaintedLine, text: &'a [u8], width: u8) -> &'a [u8]
    ensures line { line.new ≡ take 80 (line.old ++ padded width text.now) }
    ensures rest { result.now ≡ drop width text.now }
{
    let width = usize::from(width);
    let end = (line.len() + width).min(80);
    line.add(end, text);
    line.fill(end);
    &text[text.len().min(width)..]
}

// Adds a text that fills the column's width, so that none is left.
fn add_whole(line: &mut PaintedLine, text: &Line, width: u8)
    requires { length text.now ≤ width }
    ensures line { line.new ≡ take 80 (line.old ++ padded width text.now) }
    ensures rest { drop width text.now ≡ [] }
{
    add_text(line, text.bytes(), width);
}

// Adds a number, which mostly fits the line and goes into its cell at once.
#[tactic(auto, using(crate::proofs::Cuts::whole_added, std::proofs::lemmas::List::drop_all))]
fn add_number(line: &mut PaintedLine, number: Fixed, format: Format, width: u8)
    requires { width ≤ MOST_WIDTH }
    ensures line { line.new ≡ take 80 (line.old ++ padded width (shown_number number format.0 width)) }
    ensures rest { drop width (shown_number number format.0 width) ≡ [] }
{
    if line.len() + usize::from(width) > 80 {
        add_any_number(line, number, format, width);
        return;
    }
    if line.add_plain(number, format, width) {
        return;
    }
    add_any_number(line, number, format, width);
}

// Adds a number of any format, cut or filled.
#[inline(never)]
fn add_any_number(line: &mut PaintedLine, number: Fixed, format: Format, width: u8)
    requires { width ≤ MOST_WIDTH }
    ensures line { line.new ≡ take 80 (line.old ++ padded width (shown_number number format.0 width)) }
    ensures rest { drop width (shown_number number format.0 width) ≡ [] }
{
    let mut text = Line::new();
    show_number(number, format, width, &mut text);
    add_whole(line, &text, width);
}

// Adds what fits a column's width, so that none is left; a number mostly goes into its cell at once.
fn add_fitting(line: &mut PaintedLine, shown: &Fitting, width: u8)
    requires { width ≤ MOST_WIDTH }
    ensures line { line.new ≡ take 80 (line.old ++ padded width (fitting_text shown.now width)) }
    ensures rest { drop width (fitting_text shown.now width) ≡ [] }
{
    if let Fitting::Number(number, format) = shown {
        add_number(line, *number, *format, width);
        return;
    }
    let mut text = Line::new();
    put_fitting(shown, width, &mut text);
    add_whole(line, &text, width);
}

// Adds what a cell shows of its own. The answer is what is left of a text that runs on.
fn add_shown<'a>(line: &mut PaintedLine, shown: &Shown<'a>, width: u8) -> &'a [u8]
    requires { width ≤ MOST_WIDTH }
    ensures line { line.new ≡ take 80 (line.old ++ padded width (shown_text shown.now width)) }
    ensures rest { result.now ≡ drop width (shown_text shown.now width) }
{
    match shown {
        Shown::RunsOn(text) => add_text(line, text, width),
        Shown::Fits(fitting) => {
            add_fitting(line, fitting, width);
            b""
        }
    }
}

/// Adds what a cell shows in its column's width, or in a blank cell the text that runs on into it. The answer is what
/// runs on into the next column.
pub fn add_cell<'a>(
    line: &mut PaintedLine,
    sheet: &'a Worksheet,
    cell: Cell,
    width: u8,
    over: &'a [u8],
) -> &'a [u8]
    requires { width ≤ MOST_WIDTH }
    ensures line { line.new ≡ take 80 (line.old ++
        padded width (unwrap_or (cell_text (of_worksheet sheet.now) cell width) over.now)) }
    ensures rest { result.now ≡ drop width (unwrap_or (cell_text (of_worksheet sheet.now) cell width) over.now) }
{
    let state = sheet.cells().get(cell);
    let format = sheet.settings().format;
    match shown_in(state, sheet.names(), format, cell, width) {
        Some(shown) => add_shown(line, &shown, width),
        None => add_text(line, over, width),
    }
}
