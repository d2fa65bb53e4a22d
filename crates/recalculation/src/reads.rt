// The dirty formulas that formulas read.
ghost use Rattle.std.specs.Prelude.{◌≡◌, ◌++◌, ◌∷◌, [], IfOk, OnOk, true, false};
ghost use Rattle.std.specs.FinMap as map;
ghost use Rattle.std.specs.List.{filter, list_any};
ghost use Rattle.grid_address.specs.Place.{same_place, Place};
ghost use Rattle.cell_maps.specs.Sets.{has};
ghost use Rattle.sheet_store.specs.Grid.{formulas, formulas_within};
ghost use Rattle.recalculation.specs.inner.Laws.{told_formulas};
ghost use Rattle.recalculation.specs.Reading.{formulas_in};
ghost use Rattle.recalculation.specs.inner.Graphs.{spans_told};

use cell_maps::CellSet;
use depend_graph::Graph;
use grid_address::{Cell, Span};
use lics_text::Memory;
use natural_order::Precedents;
use sheet_store::Store;
use std::alloc::Global;

// Adds those of the cells that are in the set.
pub fn add_kept(list: &mut Vec<Cell>, set: &CellSet, cells: &[Cell]) -> Result<(), Memory>
    ensures { OnOk result (list.new.items ≡ list.old.items ++ filter (has same_place set.now.keys) cells.now) }
{
    for cell in cells {
        if set.contains(*cell) {
            list.push(*cell)?;
        }
    }
    Ok(())
}

// Adds the dirty formulas of a span.
fn add_dirty(list: &mut Vec<Cell>, store: &Store, dirty: &CellSet, span: Span) -> Result<(), Memory>
    ensures { OnOk result
        (list.new.items ≡ list.old.items ++ filter (has same_place dirty.now.keys) (formulas_within store.now span)) }
{
    let cells = store.formulas_in(span)?;
    add_kept(list, dirty, cells.as_slice())?;
    Ok(())
}

// The dirty formulas of the spans, span by span.
fn dirty_in(store: &Store, dirty: &CellSet, spans: &[Span]) -> Result<Vec<Cell>, Memory>
    ensures { IfOk result (λ l. l.items ≡ filter (has same_place dirty.now.keys) (formulas_in store.now spans.now)) }
{
    let mut list = Vec::new(store.alloc());
    for span in spans {
        add_dirty(&mut list, store, dirty, *span)?;
    }
    Ok(list)
}

// Whether one of the cells is in the set.
fn any_kept(set: &CellSet, cells: &[Cell]) -> bool
    ensures { result ≡ list_any (has same_place set.now.keys) cells.now }
{
    for cell in cells {
        if set.contains(*cell) {
            return true;
        }
    }
    false
}

// Whether one of the formulas of a span is dirty.
fn any_within(store: &Store, dirty: &CellSet, span: Span) -> Result<bool, Memory>
    ensures { IfOk result (λ b. b ≡ list_any (has same_place dirty.now.keys) (formulas_within store.now span)) }
{
    let cells = store.formulas_in(span)?;
    Ok(any_kept(dirty, cells.as_slice()))
}

// Whether one of the formulas of the spans is dirty.
pub fn any_dirty(store: &Store, dirty: &CellSet, spans: &[Span]) -> Result<bool, Memory>
    ensures { IfOk result (λ b. b ≡ list_any (has same_place dirty.now.keys) (formulas_in store.now spans.now)) }
{
    for span in spans {
        if any_within(store, dirty, *span)? {
            return Ok(true);
        }
    }
    Ok(false)
}

// The dirty formulas that formulas read, as a graph tells them.
#[derive(Clone, Copy)]
pub struct DirtyReads<'a> {
    pub store: &'a Store,
    pub graph: &'a Graph,
    pub dirty: &'a CellSet,
}

impl<'a> Precedents for DirtyReads<'a> {
    ghost pre = { λ s c. filter (has same_place s.dirty.now.keys)
        (formulas_in s.store.now (spans_told (map.get s.graph.now.formulas c))) };

    ghost all = { λ s. formulas s.store.now };

    fn pre(&self, cell: Cell) -> Result<Vec<Cell>, Memory> {
        match self.graph.get(cell) {
            Some(node) => dirty_in(self.store, self.dirty, node.reads.as_slice()),
            None => Ok(Vec::new(self.store.alloc())),
        }
    }

    ghost closed = { λ s c d h. told_formulas s.store.now (spans_told (map.get s.graph.now.formulas c))
        (has same_place s.dirty.now.keys) d h };
}
