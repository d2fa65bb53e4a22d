// A span around others.
ghost use Rattle.std.specs.Prelude.{◌≡◌, true, false};
ghost use Rattle.grid_address.specs.Place.{is_within, Place};
ghost use Rattle.range_index.specs.Hulls.{in_hull};

use grid_address::{Cell, Span};

/// A span that holds each cell of the spans that were put into it; none where none was. What lies outside it is told by
/// four comparisons, however many spans these are.
#[derive(Clone, Copy)]
pub struct Hull {
    around: Option<Span>,
}

// The least span that holds two others.
fn around(a: Span, b: Span) -> Span
    ensures one { (p : Place) → is_within a p ≡ true → is_within result p ≡ true }
    ensures other { (p : Place) → is_within b p ≡ true → is_within result p ≡ true }
{
    Span {
        first: Cell {
            row: a.first.row.min(b.first.row),
            col: a.first.col.min(b.first.col),
        },
        last: Cell {
            row: a.last.row.max(b.last.row),
            col: a.last.col.max(b.last.col),
        },
    }
}

// Whether two spans have no cell in common.
fn are_apart(a: Span, b: Span) -> bool
    ensures { result ≡ true → (p : Place) → is_within a p ≡ true → is_within b p ≡ false }
{
    a.last.row < b.first.row
        || b.last.row < a.first.row
        || a.last.col < b.first.col
        || b.last.col < a.first.col
}

impl Hull {
    /// Around no span.
    pub fn new() -> Hull
        ensures { (p : Place) → in_hull result p ≡ false }
    {
        Hull { around: None }
    }

    /// Puts a span into it.
    pub fn put(&mut self, span: Span)
        ensures kept { (p : Place) → in_hull self.old p ≡ true → in_hull self.new p ≡ true }
        ensures here { (p : Place) → is_within span p ≡ true → in_hull self.new p ≡ true }
    {
        self.around = match self.around {
            Some(hull) => Some(around(hull, span)),
            None => Some(span),
        };
    }

    /// Whether it holds a cell.
    pub fn holds(&self, cell: Cell) -> bool
        ensures { result ≡ in_hull self.now cell }
    {
        match self.around {
            Some(hull) => hull.contains(cell),
            None => false,
        }
    }

    /// Whether it is known to have no cell in common with a span.
    pub fn is_apart(&self, span: Span) -> bool
        ensures { result ≡ true → (p : Place) → is_within span p ≡ true → in_hull self.now p ≡ false }
    {
        match self.around {
            Some(hull) => are_apart(span, hull),
            None => true,
        }
    }
}
