// The first protected cell of an edit.
ghost use Rattle.std.specs.Prelude.{◌≡◌, ◌+◌, ◌≤◌};
ghost use Rattle.sheet_shifts.specs.Refusals.{earlier, first_in_row, first_in_rows, first_marked, is_marked_at};

use grid_address::{COLUMNS, Cell, ROWS, Span};
use sheet_store::Store;

// Whether a cell's mark is set; it is where the cell isn't there.
fn is_marked(store: &Store, cell: Cell) -> bool
    ensures { result ≡ is_marked_at store.now.cells cell }
{
    match store.get(cell) {
        Some(state) => state.format().is_protected(),
        None => true,
    }
}

// The first protected cell of so many in a row.
fn first_in_row(store: &Store, first: Cell, width: u16) -> Option<Cell>
    requires { first.col + width ≤ COLUMNS }
    ensures { result ≡ first_in_row (is_marked_at store.now.cells) width first }
{
    for at in 0..width {
        let cell = Cell {
            row: first.row,
            col: (u16::from(first.col) + at) as u8,
        };
        if is_marked(store, cell) {
            return Some(cell);
        }
    }
    None
}

// The first protected cell of so many rows.
fn first_in_rows(store: &Store, first: Cell, height: u16, width: u16) -> Option<Cell>
    requires rows { first.row + height ≤ ROWS }
    requires cols { first.col + width ≤ COLUMNS }
    ensures { result ≡ first_in_rows (is_marked_at store.now.cells) height width first }
{
    for at in 0..height {
        let start = Cell {
            row: first.row + at,
            col: first.col,
        };
        if let Some(cell) = first_in_row(store, start, width) {
            return Some(cell);
        }
    }
    None
}

/// The first protected cell of a span, in row order. It looks at no cell behind that one, and each one before it is one
/// of the store's.
pub fn first_marked(store: &Store, span: Span) -> Option<Cell>
    ensures { result ≡ first_marked store.now.cells span }
{
    first_in_rows(store, span.first, span.height(), span.width())
}

/// The earlier of two cells in row order.
pub fn earlier(a: Option<Cell>, b: Option<Cell>) -> Option<Cell>
    ensures { result ≡ earlier a b }
{
    match (a, b) {
        (Some(a), Some(b)) => Some(a.min(b)),
        (Some(a), None) => Some(a),
        (None, b) => b,
    }
}
