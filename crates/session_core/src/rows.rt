// The lines of the screen that show rows of the sheet, in sets.
ghost use Rattle.std.specs.Prelude.{◌≡◌, ◌≤◌, ◌<◌, ◌+◌, ◌-◌, ℕ, false, true, nat_eq, slice_get, Some};
ghost use Rattle.cell_maps.specs.Sets.{has};
ghost use Rattle.grid_address.specs.Place.{same_place, Place};

use grid_address::Cell;
use screen_show::LineSet;

/// How many rows the screen shows.
pub const ROWS: u16 = 20;

// The first line that shows a row.
const FIRST_ROW: u8 = 4;

/// The line below those that show rows.
pub const FOOT: u8 = 24;

/// Adds the line of a row of the sheet, where it is one of those that are shown from a row on.
pub fn insert_row(row: u16, first: u16, lines: &mut LineSet)
    ensures stay { (n : ℕ) → slice_get lines.new n ≡ Some false → slice_get lines.old n ≡ Some false }
    ensures told { (n : ℕ) → 4 ≤ n → n < 24 → slice_get lines.new n ≡ Some false →
        nat_eq row (first + (n - 4)) ≡ false }
{
    if first <= row && row - first < ROWS {
        lines.insert(FIRST_ROW + (row - first) as u8);
    }
}

/// Adds the lines of all rows that are shown.
pub fn insert_rows(lines: &mut LineSet)
    ensures stay { (n : ℕ) → slice_get lines.new n ≡ Some false → slice_get lines.old n ≡ Some false }
    ensures told { (n : ℕ) → 4 ≤ n → n < 24 → slice_get lines.new n ≡ Some false → ⊥ }
{
    for line in FIRST_ROW..FOOT {
        lines.insert(line);
    }
}

/// Adds the lines of the rows of cells, where they are shown from a row on.
pub fn insert_cells(cells: &[Cell], first: u16, lines: &mut LineSet)
    ensures stay { (n : ℕ) → slice_get lines.new n ≡ Some false → slice_get lines.old n ≡ Some false }
    ensures told { (n : ℕ) → 4 ≤ n → n < 24 → slice_get lines.new n ≡ Some false →
        (c : Place) → has same_place cells.now c ≡ true → nat_eq c.row (first + (n - 4)) ≡ false }
{
    for cell in cells {
        insert_row(cell.row, first, lines);
    }
}
