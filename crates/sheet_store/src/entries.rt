// The cells of a store, one after another.
ghost use Rattle.std.specs.Prelude.{◌≡◌, ◌∷◌, ◌<◌, ◌≤◌, [], false, None, Some, IfSome, IfNone};
ghost use Rattle.std.specs.Ordering.{is_le, is_lt};
ghost use Rattle.std.specs.FinMap as map;
ghost use Rattle.cell_maps.specs.Numbers.{band_of};
ghost use Rattle.grid_address.specs.Place.{place_cmp, InSheet, Place};
ghost use Rattle.sheet_store.specs.inner.RowOrder.{entries_behind, EndsAt, IsEdge, IsUpTo, NextHeld, NoneHeldBehind};
ghost use Rattle.sheet_store.specs.inner.Scan.{left_from, number_of};

use crate::held_order::{held_from, is_in_order};
use crate::{CellState, Store};
use cell_maps::{BAND_ROWS, Held};
use grid_address::{COLUMNS, Cell, LAST_COLUMN, LAST_ROW};
use std::marker::Model;

/// A band of rows, and a column, up to 256, from which on none of its cells has a state.
#[derive(Clone, Copy)]
pub(crate) struct Edge {
    band: u16,
    col: u16,
}

impl Edge {
    // The edge of a band that isn't in the sheet.
    const NONE: Edge = Edge {
        band: u16::MAX,
        col: COLUMNS,
    };
}

/// The cells of a store that are still to come, with their states, in row order. Where they are held in that order, as
/// those of a file that was read row by row are, they are gone over as they are held. Else they are looked for place by
/// place, up to the last row and the last column that hold one, and the edge of the last band is kept, so that each of
/// its rows is left there.
#[derive(Drop)]
pub struct Entries<'a> {
    store: &'a Store,
    from: Option<Cell>,
    last: Cell,
    edge: Edge,
    is_run: bool,
    held: &'a [Held<CellState>],
    at: usize,
}

impl<'a> Model for Entries<'a> {
    ghost use Rattle.formula_tree.specs.contracts.formula.Formula as formula;
    ghost use Rattle.std.specs.Coded.{codes};
    ghost use Rattle.std.specs.Prelude.{cond, drop, List};
    ghost use Rattle.std.specs.FinMap as map;
    ghost use Rattle.cell_maps.specs.Filled.{filled};
    ghost use Rattle.grid_address.specs.Place.{Place};
    ghost use Rattle.sheet_store.specs.inner.Scan.{left_from};
    ghost use Rattle.sheet_store.specs.State.{CellState};

    ghost Value = { List (Place × CellState) };

    ghost coded = { Prim.hlevel (codes, formula.the_row.coded) };

    ghost use Rattle.sheet_store.specs.inner.RowOrder.{EndsAt, IsEdge};

    ghost view = { λ e. cond e.is_run (filled (drop e.at e.held.now))
        (left_from e.from (map.entries e.store.now.cells)) };

    ghost invariant = { λ e. IsEdge e.store.now.cells e.edge × EndsAt e.store.now.cells e.last };
}

impl<'a> Entries<'a> {
    /// The next cell and its state; none exactly where all have come. It takes no memory.
    #[inline(always)]
    pub fn next(&mut self) -> Option<(Cell, &'a CellState)>
        ensures some { IfSome result (λ entry. self.old ≡ (entry.0, entry.1.now) ∷ self.new) }
        ensures none { IfNone result (self.old ≡ []) }
    {
        if self.is_run {
            return match held_from(self.held, self.at) {
                Some(entry) => {
                    self.at = entry.2;
                    Some((entry.0, entry.1))
                }
                None => None,
            };
        }
        self.store.are_held();
        let Some(place) = self.from else {
            return None;
        };
        if let Some(state) = self.store.get(place) {
            self.from = place_after(place, self.last);
            return Some((place, state));
        }
        match first_from(self.store, place, self.last, &mut self.edge) {
            Some(entry) => {
                self.from = place_after(entry.0, self.last);
                Some(entry)
            }
            None => None,
        }
    }
}

// A row and a column behind which no cell of a store has a state: the last ones that hold one, where its cells are
// looked for place by place, and else those of the sheet.
fn end_of(store: &Store, is_run: bool) -> Cell
    ensures { EndsAt store.now.cells result }
{
    store.are_held();
    if !is_run {
        if let Some(last) = store.last_used() {
            return last;
        }
    }
    Cell {
        row: LAST_ROW,
        col: LAST_COLUMN,
    }
}

impl Store {
    /// The cells and their states, in row order.
    pub fn entries(&self) -> Entries<'_>
        ensures { result ≡ map.entries self.now.cells }
    {
        self.are_held();
        let first = Cell { row: 0, col: 0 };
        let held = self.held();
        let is_run = is_in_order(held);
        Entries {
            store: self,
            from: Some(first),
            last: end_of(self, is_run),
            edge: Edge::NONE,
            is_run,
            held,
            at: 0,
        }
    }
}

// The first place of a row up to the last one.
fn row_start(row: u16, last: Cell) -> Option<Cell>
    ensures some { IfSome result (λ c. (c ≡ record { row = row; col = 0 }) × InSheet c) }
    ensures none { IfNone result (last.row < row) }
{
    last.is_on_sheet();
    if row <= last.row {
        Some(Cell { row, col: 0 })
    } else {
        None
    }
}

// The place behind another, in row order, up to a last row and a last column.
#[inline(always)]
fn place_after(place: Cell, last: Cell) -> Option<Cell>
    ensures some { IfSome result (λ c.
        (p : Place) → IsUpTo last p → is_lt (place_cmp place p) ≡ is_le (place_cmp c p)) }
    ensures behind { IfSome result (λ c. number_of place < number_of c) }
    ensures none { IfNone result ((p : Place) → IsUpTo last p → is_lt (place_cmp place p) ≡ false) }
{
    if place.col < last.col {
        return Some(Cell {
            row: place.row,
            col: place.col + 1,
        });
    }
    row_start(place.row + 1, last)
}

// The edge of a place's band, up to the column behind the last one that holds a cell.
fn edge_of(store: &Store, place: Cell, last: Cell) -> Edge
    requires { EndsAt store.now.cells last }
    ensures band { result.band ≡ band_of place }
    ensures edge { IsEdge store.now.cells result }
{
    Edge {
        band: place.row / BAND_ROWS,
        col: store.band_end(place).min(u16::from(last.col) + 1),
    }
}

// The edge of a place's band, which is the one that is known where that is of the same band.
fn edge_at(store: &Store, place: Cell, last: Cell, known: Edge) -> Edge
    requires edge { IsEdge store.now.cells known }
    requires ends { EndsAt store.now.cells last }
    ensures band { result.band ≡ band_of place }
    ensures edge { IsEdge store.now.cells result }
{
    if known.band == place.row / BAND_ROWS {
        known
    } else {
        edge_of(store, place, last)
    }
}

// A place behind one without a state, and no cell with a state lies between them: the next place, or the first that may
// have one in the row, or in the next row, or in the next band where the store holds no cell in this one. The edge is
// that of the place's band.
fn place_past(store: &Store, place: Cell, last: Cell, edge: Edge) -> Option<Cell>
    requires absent { map.get store.now.cells place ≡ None }
    requires ends { EndsAt store.now.cells last }
    requires band { edge.band ≡ band_of place }
    requires edge { IsEdge store.now.cells edge }
    ensures some { IfSome result (λ c. NextHeld store.now.cells place c) }
    ensures behind { IfSome result (λ c. number_of place < number_of c) }
    ensures none { IfNone result (NoneHeldBehind store.now.cells place) }
{
    if edge.col == 0 {
        return row_start(place.row / BAND_ROWS * BAND_ROWS + BAND_ROWS, last);
    }
    if edge.col <= u16::from(place.col) {
        return row_start(place.row + 1, last);
    }
    let col = store.next_column(place, edge.col);
    if col <= u16::from(place.col) {
        return place_after(place, last);
    }
    if col < edge.col {
        return Some(Cell {
            row: place.row,
            col: col as u8,
        });
    }
    row_start(place.row + 1, last)
}

// The first cell with a state from a place on.
#[inline(never)]
fn first_from<'a>(
    store: &'a Store,
    from: Cell,
    last: Cell,
    edge: &mut Edge,
) -> Option<(Cell, &'a CellState)>
    requires edge { IsEdge store.now.cells edge.old }
    requires ends { EndsAt store.now.cells last }
    ensures edge { IsEdge store.now.cells edge.new }
    ensures some { IfSome result (λ entry.
        left_from (Some from) (map.entries store.now.cells) ≡
        (entry.0, entry.1.now) ∷ entries_behind entry.0 (map.entries store.now.cells)) }
    ensures none { IfNone result (left_from (Some from) (map.entries store.now.cells) ≡ []) }
{
    store.are_held();
    let mut next = Some(from);
    while let Some(place) = next {
        place.is_on_sheet();
        match store.get(place) {
            Some(state) => return Some((place, state)),
            None => {}
        }
        *edge = edge_at(store, place, last, *edge);
        next = place_past(store, place, last, *edge);
    }
    None
}
