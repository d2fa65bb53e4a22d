// Moves of a span.
ghost use Rattle.std.specs.Prelude.{◌≡◌, true, IfOk};
ghost use Rattle.grid_address.specs.Place.{is_within};
ghost use Rattle.ref_adjust.specs.Adjusted.{adjusted, formula_moved};
ghost use Rattle.ref_adjust.specs.Moves.{carried, place_moved, span_moved, target, FitsAt};

use crate::kinds::{reference_like, span_of_corners};
use formula_tree::{Formula, Redirect};
use grid_address::{Cell, Ref, Span};
use lics_text::Memory;

// Where a cell of the span comes.
fn carried(from: Span, to: Cell, cell: Cell) -> Cell
    requires fits { FitsAt from to }
    requires within { is_within from cell ≡ true }
    ensures { result ≡ carried from to cell }
{
    Cell {
        row: cell.row - from.first.row + to.row,
        col: cell.col - from.first.col + to.col,
    }
}

/// The span of the same size as `from` whose first corner is `to`: where a moved span comes, in the sheet.
pub fn target(from: Span, to: Cell) -> Span
    requires { FitsAt from to }
    ensures { result ≡ target from to }
{
    let last = Cell {
        row: from.last.row - from.first.row + to.row,
        col: from.last.col - from.first.col + to.col,
    };
    Span { first: to, last }
}

/// Where a cell is after the span `from` was moved so that its first corner came to `to`. None comes exactly where it
/// was overwritten.
pub fn cell_moved(from: Span, to: Cell, cell: Cell) -> Option<Cell>
    requires { FitsAt from to }
    ensures { result ≡ place_moved from to cell }
{
    if from.contains(cell) {
        Some(carried(from, to, cell))
    } else if target(from, to).contains(cell) {
        None
    } else {
        Some(cell)
    }
}

// A move, seen by a formula whose cell has gone from the old to the new place.
#[derive(Drop)]
struct Move {
    old_at: Cell,
    new_at: Cell,
    from: Span,
    to: Cell,
    ghost fits: { FitsAt from to },
}

impl Redirect for Move {
    ghost use Rattle.ref_adjust.specs.Adjusted.{adjusted};
    ghost use Rattle.ref_adjust.specs.Moves.{place_moved};

    ghost new_reference = { λ m. adjusted (place_moved m.from m.to) m.old_at m.new_at };

    fn redirect(&self, reference: Ref) -> Option<Ref> {
        let place = cell_moved(self.from, self.to, reference.resolve(self.old_at));
        reference_like(reference, self.new_at, place)
    }
}

/// A formula whose cell has gone from `old_at` to `new_at`, after the span `from` was moved so that its first corner
/// came to `to`. References to moved cells follow them. A reference to an overwritten cell becomes `@ERR`, and so does
/// a span with a corner that was overwritten. All others name the cells that they named. A formula that doesn't
/// change shares its tree with the given one.
pub fn moved(
    formula: &Formula,
    old_at: Cell,
    new_at: Cell,
    from: Span,
    to: Cell,
) -> Result<Formula, Memory>
    requires { FitsAt from to }
    ensures { IfOk result (λ f. f ≡ formula_moved from to old_at new_at formula.now) }
{
    let by = Move {
        old_at,
        new_at,
        from,
        to,
    };
    formula.redirected(&by)
}

/// A span after the span `from` was moved so that its first corner came to `to`: each corner as a reference to it. None
/// comes exactly where a corner was overwritten; else the corners are put in order.
pub fn span_moved(span: Span, from: Span, to: Cell) -> Option<Span>
    requires { FitsAt from to }
    ensures { result ≡ span_moved from to span }
{
    span_of_corners(
        cell_moved(from, to, span.first),
        cell_moved(from, to, span.last),
    )
}
