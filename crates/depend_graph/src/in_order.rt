// Whether formulas stand in an order in which each comes after all of them that it reads.
ghost use Rattle.std.specs.Prelude.{◌≡◌, ◌<◌, ◌≤◌, ◌∷◌, [], IfOk, true, false};
ghost use Rattle.cell_maps.specs.Sets.{has};
ghost use Rattle.grid_address.specs.Place.{is_within, same_place, whole, Place};
ghost use Rattle.range_index.specs.Owners.{hold};
ghost use Rattle.depend_graph.specs.inner.Banks.{is_one};
ghost use Rattle.depend_graph.specs.InOrder.{is_volatile_at, GoesInOrder, StandsFirst};
ghost use Rattle.depend_graph.specs.inner.Marked.{mark_at, AreMarked};
ghost use Rattle.depend_graph.specs.Network.{reads};

use crate::Graph;
use crate::lists::is_one;
use crate::marks::Marks;
use grid_address::{Cell, Span};
use lics_text::Memory;
use range_index::{Hull, hold};
use std::alloc::Global;

// Whether no cell of a row, from one column to another, is marked.
fn row_is_clear(marked: &Marks, row: u16, first: u8, last: u8) -> bool
    requires { row ≤ whole.last.row }
    ensures { result ≡ true → (d : Place) → d.row ≡ row → first ≤ d.col → d.col ≤ last → mark_at marked.now d ≡ 0 }
{
    for col in u16::from(first)..u16::from(last) + 1 {
        let cell = Cell {
            row,
            col: col as u8,
        };
        if marked.mark_at(cell) != 0 {
            return false;
        }
    }
    true
}

// Whether no cell of a span is marked.
fn places_are_clear(marked: &Marks, span: Span) -> bool
    ensures { result ≡ true → (d : Place) → is_within span d ≡ true → mark_at marked.now d ≡ 0 }
{
    span.last.is_on_sheet();
    for row in span.first.row..span.last.row + 1 {
        if !row_is_clear(marked, row, span.first.col, span.last.col) {
            return false;
        }
    }
    true
}

// Whether the one cell of a span isn't marked.
fn is_unmarked(marked: &Marks, span: Span) -> bool
    requires { is_one span ≡ true }
    ensures { result ≡ true → (d : Place) → is_within span d ≡ true → mark_at marked.now d ≡ 0 }
{
    marked.mark_at(span.first) == 0
}

// Whether a span holds none of the cells.
fn holds_none(span: Span, cells: &[Cell]) -> bool
    ensures { result ≡ true → (d : Place) → has same_place cells.now d ≡ true → is_within span d ≡ false }
{
    for cell in cells {
        if span.contains(*cell) {
            return false;
        }
    }
    true
}

// Whether a span holds none of the cells, which are marked and lie in the hull: where it lies apart from that, no cell
// is looked at, and else each place of the span, or each of the cells, whichever are fewer.
fn is_clear(marked: &Marks, hull: &Hull, cells: &[Cell], span: Span) -> bool
    requires { AreMarked marked.now hull.now cells.now }
    ensures { result ≡ true → (d : Place) → has same_place cells.now d ≡ true → is_within span d ≡ false }
{
    if is_one(span) {
        return is_unmarked(marked, span);
    }
    if hull.is_apart(span) {
        return true;
    }
    let places = usize::from(span.width()) * usize::from(span.height());
    if places <= cells.len() {
        places_are_clear(marked, span)
    } else {
        holds_none(span, cells)
    }
}

// Whether the spans hold none of the cells, which are marked and lie in the hull.
fn are_clear(marked: &Marks, hull: &Hull, cells: &[Cell], spans: &[Span]) -> bool
    requires { AreMarked marked.now hull.now cells.now }
    ensures { result ≡ true → (d : Place) → has same_place cells.now d ≡ true → hold spans.now d ≡ false }
{
    for span in spans {
        if !is_clear(marked, hull, cells, *span) {
            return false;
        }
    }
    true
}

// Whether the formula of a cell isn't volatile, and reads none of the cells, which are marked and lie in the hull.
fn stands_first(graph: &Graph, marked: &Marks, hull: &Hull, cells: &[Cell], cell: Cell) -> bool
    requires { AreMarked marked.now hull.now cells.now }
    ensures { result ≡ true → StandsFirst (is_volatile_at graph.now) (reads graph.now) cells.now cell }
{
    match graph.get(cell) {
        Some(node) => !node.volatile && are_clear(marked, hull, cells, node.reads.as_slice()),
        None => true,
    }
}

// Whether the formula of a cell isn't volatile, and doesn't read the cell.
fn stands_alone(graph: &Graph, cell: Cell) -> bool
    ensures { result ≡ true → GoesInOrder graph.now (cell ∷ []) }
{
    match graph.get(cell) {
        Some(node) => !node.volatile && !hold(node.reads.as_slice(), cell),
        None => true,
    }
}

/// Whether no formula of the cells is volatile, and none reads itself or one that stands behind it. One cell takes no
/// memory.
pub fn is_in_order(alloc: Global, graph: &Graph, cells: &[Cell]) -> Result<bool, Memory>
    ensures { IfOk result (λ b. b ≡ true → GoesInOrder graph.now cells.now) }
{
    if cells.len() == 1 {
        return Ok(stands_alone(graph, cells[0]));
    }
    let mut marked = Marks::new(alloc);
    let mut hull = Hull::new();
    let mut next = cells.len();
    'back: while next > 0 {
        next -= 1;
        let cell = cells[next];
        cell.is_on_sheet();
        marked.put_mark(cell, 1)?;
        hull.put(Span {
            first: cell,
            last: cell,
        });
        if !stands_first(graph, &marked, &hull, &cells[next..], cell) {
            return Ok(false);
        }
    }
    Ok(true)
}
