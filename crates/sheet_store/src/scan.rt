// The used cells of a span: by its places where it has few, and else by the cells that are held.
ghost use Rattle.std.specs.Prelude.{◌≡◌, ◌<◌, ◌++◌, [], true, false, IfOk, IfSome, IfNone, OnOk};
ghost use Rattle.std.specs.Ordering.{is_le, is_lt};
ghost use Rattle.std.specs.FinMap as map;
ghost use Rattle.cell_maps.specs.Filled.{cell_in, filled, item_in, with_item};
ghost use Rattle.grid_address.specs.Place.{is_within, place_cmp, Place};
ghost use Rattle.sheet_store.specs.Grid.{picked};
ghost use Rattle.sheet_store.specs.inner.Scan.{number_of, passed_at, wanted};

use crate::CellState;
use cell_maps::{CellMap, Held};
use grid_address::{Cell, CellList, Span};
use lics_text::Memory;
use std::alloc::Global;

// Whether a state is asked for.
fn is_wanted(state: &CellState, only_formulas: bool) -> bool
    ensures { result ≡ wanted only_formulas state.now }
{
    !only_formulas || state.is_formula()
}

// The first place of the span behind one of its places.
fn next_place(span: Span, place: Cell) -> Option<Cell>
    requires { is_within span place ≡ true }
    ensures within { IfSome result (λ c. is_within span c ≡ true) }
    ensures some { IfSome result (λ c.
        (p : Place) → is_within span p ≡ true → is_lt (place_cmp place p) ≡ is_le (place_cmp c p)) }
    ensures behind { IfSome result (λ c. number_of place < number_of c) }
    ensures none { IfNone result ((p : Place) → is_within span p ≡ true → is_lt (place_cmp place p) ≡ false) }
{
    if place.col < span.last.col {
        return Some(Cell {
            row: place.row,
            col: place.col + 1,
        });
    }
    if place.row < span.last.row {
        return Some(Cell {
            row: place.row + 1,
            col: span.first.col,
        });
    }
    None
}

// Adds a place, if it has a wanted state.
fn pick_at(
    list: &mut CellList,
    cells: &CellMap<CellState>,
    only_formulas: bool,
    place: Cell,
) -> Result<(), Memory>
    ensures { OnOk result (list.new ≡ list.old ++ passed_at (wanted only_formulas) place (map.get cells.now place)) }
{
    if let Some(state) = cells.get(place) {
        if is_wanted(state, only_formulas) {
            list.push(place)?;
        }
    }
    Ok(())
}

// The same cells, found by a look at each place of the span.
fn scan_places(
    alloc: Global,
    cells: &CellMap<CellState>,
    span: Span,
    only_formulas: bool,
) -> Result<CellList, Memory>
    ensures { IfOk result (λ l. l ≡ picked (wanted only_formulas) span (map.entries cells.now)) }
{
    let mut list = CellList::new(alloc);
    let mut from = Some(span.first);
    while let Some(place) = from {
        place.is_on_sheet();
        pick_at(&mut list, cells, only_formulas, place)?;
        from = next_place(span, place);
    }
    Ok(list)
}

// Adds a held cell, if it has a wanted state and lies in the span.
fn pick_held(
    list: &mut Vec<Cell>,
    span: Span,
    only_formulas: bool,
    held: &Held<CellState>,
) -> Result<(), Memory>
    ensures { OnOk result (list.new.items ≡
        list.old.items ++ picked (wanted only_formulas) span (with_item (cell_in held.now) (item_in held.now) [])) }
{
    match held {
        Held::Filled(cell, state) => {
            if span.contains(*cell) && is_wanted(state, only_formulas) {
                list.push(*cell)?;
            }
        }
        Held::Erased(_) => {}
    }
    Ok(())
}

// The wanted cells of the span, in the order in which they are held.
fn picked_held(
    alloc: Global,
    held: &[Held<CellState>],
    span: Span,
    only_formulas: bool,
) -> Result<Vec<Cell>, Memory>
    ensures { IfOk result (λ l. l.items ≡ picked (wanted only_formulas) span (filled held.now)) }
{
    let mut list = Vec::new(alloc);
    for one in held {
        pick_held(&mut list, span, only_formulas, one)?;
    }
    Ok(list)
}

// The cells as a list.
fn listed(alloc: Global, cells: &[Cell]) -> Result<CellList, Memory>
    ensures { IfOk result (λ l. l ≡ cells.now) }
{
    let mut list = CellList::new(alloc);
    for cell in cells {
        list.push(*cell)?;
    }
    Ok(list)
}

// The same cells, found by a look at each held cell.
fn scan_held(
    alloc: Global,
    cells: &CellMap<CellState>,
    span: Span,
    only_formulas: bool,
) -> Result<CellList, Memory>
    ensures { IfOk result (λ l. l ≡ picked (wanted only_formulas) span (map.entries cells.now)) }
{
    let mut found = picked_held(alloc, cells.held(), span, only_formulas)?;
    found.sort_unstable();
    let list = listed(alloc, found.as_slice())?;
    Ok(list)
}

/// The used cells of the span in row order, or its formulas alone.
pub fn scan(
    alloc: Global,
    cells: &CellMap<CellState>,
    span: Span,
    only_formulas: bool,
) -> Result<CellList, Memory>
    ensures { IfOk result (λ l. l ≡ picked (wanted only_formulas) span (map.entries cells.now)) }
{
    let places = usize::from(span.width()) * usize::from(span.height());
    if places <= cells.held().len() {
        scan_places(alloc, cells, span, only_formulas)
    } else {
        scan_held(alloc, cells, span, only_formulas)
    }
}
