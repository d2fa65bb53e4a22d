// References of the same kind to other cells, and spans by corners that may be lost.
ghost use Rattle.std.specs.Prelude.{◌≡◌};
ghost use Rattle.grid_address.specs.Axes.{is_fixed};
ghost use Rattle.ref_adjust.specs.Adjusted.{reference_like};
ghost use Rattle.ref_adjust.specs.Moves.{span_of_corners};

use grid_address::{Axis, Cell, Ref, Span};

// Whether a part of a reference names a row or a column itself, as `$` tells.
fn is_fixed(axis: Axis) -> bool
    ensures { result ≡ is_fixed axis }
{
    match axis {
        Axis::Fixed(_) => true,
        Axis::Offset(_) => false,
    }
}

/// A reference of the same kind, seen from a cell, to a place; none to no place.
pub fn reference_like(reference: Ref, at: Cell, place: Option<Cell>) -> Option<Ref>
    ensures { result ≡ reference_like reference at place }
{
    match place {
        Some(place) => Some(Ref::of(place, at, is_fixed(reference.col), is_fixed(reference.row))),
        None => None,
    }
}

/// A span by its corners, put in order; none where a corner is lost.
pub fn span_of_corners(first: Option<Cell>, last: Option<Cell>) -> Option<Span>
    ensures { result ≡ span_of_corners first last }
{
    match (first, last) {
        (Some(first), Some(last)) => Some(Span::of(first, last)),
        (Some(_), None) => None,
        (None, _) => None,
    }
}
