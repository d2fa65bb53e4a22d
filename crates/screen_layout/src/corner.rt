// Which cell stands at the top left of the screen.
ghost use Rattle.std.specs.Prelude.{◌≡◌, ◌≤◌, ◌+◌, ◌-◌, ◌*◌};
ghost use Rattle.screen_layout.specs.Corner.{corner_for, first_column, first_row, nearest, wide};
ghost use Rattle.work_sheet.specs.Seen.{of_worksheet};

use crate::shown_columns::ROOM;
use crate::widths::width_in;
use grid_address::Cell;
use sheet_store::MOST_WIDTH;
use work_sheet::Worksheet;

// The first of 20 shown rows, as near to the one before as lets the pointer's be among them.
fn first_row(first: u16, pointer: u16) -> u16
    ensures { result ≡ first_row first pointer }
{
    if pointer < first {
        pointer
    } else {
        first.max(pointer.saturating_sub(19))
    }
}

// A column's width, and none where it is hidden.
#[tactic(auto, using(crate::proofs::Nearing::wide_hidden, crate::proofs::Nearing::wide_seen))]
fn shown_width(sheet: &Worksheet, col: u8) -> u16
    ensures width { result ≡ wide (of_worksheet sheet.now) 1 col }
    ensures most { result ≤ MOST_WIDTH }
{
    if sheet.is_hidden(col) {
        0
    } else {
        u16::from(width_in(sheet, col))
    }
}

// How wide the columns of this one to the last are together.
fn wide(sheet: &Worksheet, first: u8, last: u8) -> u16
    requires { first ≤ last }
    ensures width { result ≡ wide (of_worksheet sheet.now) (last - first + 1) first }
    ensures most { result ≤ MOST_WIDTH * (last - first + 1) }
{
    let mut sum: u16 = 0;
    for col in u16::from(first)..u16::from(last) + 1 {
        sum += shown_width(sheet, col as u8);
    }
    sum
}

// The first column from which on the pointer's is shown whole, or else the pointer's.
fn nearest(sheet: &Worksheet, first: u8, pointer: u8) -> u8
    requires { first ≤ pointer }
    ensures column { result ≡ nearest (of_worksheet sheet.now) (pointer - first) first }
    ensures last { result ≤ pointer }
{
    let mut rest = wide(sheet, first, pointer);
    for col in first..pointer {
        if rest <= u16::from(ROOM) {
            return col;
        }
        rest -= shown_width(sheet, col);
    }
    pointer
}

// The first shown column, as near to the one before as lets the pointer's be shown whole.
fn first_column(sheet: &Worksheet, first: u8, pointer: u8) -> u8
    ensures { result ≡ first_column (of_worksheet sheet.now) first pointer }
{
    if sheet.is_hidden(pointer) {
        first
    } else if pointer < first {
        pointer
    } else {
        nearest(sheet, first, pointer)
    }
}

/// The cell at the top left of the screen after a step: it moves as little as lets the pointer's cell be shown. (This
/// project's choice.)
pub fn corner_for(sheet: &Worksheet, corner: Cell) -> Cell
    ensures { result ≡ corner_for (of_worksheet sheet.now) corner }
{
    let pointer = sheet.settings().pointer;
    Cell {
        row: first_row(corner.row, pointer.row),
        col: first_column(sheet, corner.col, pointer.col),
    }
}
