// The index of spans by their owners.
ghost use Rattle.std.specs.Prelude.{◌≡◌, [], IfOk, OnOk, OnErr, true};
ghost use Rattle.std.specs.FinMap as map;
ghost use Rattle.range_index.specs.Owners.{owners_of, with_span};

use crate::block::Size;
use crate::hull::Hull;
use crate::owners::put;
use crate::register::{Registration, enter, forget};
use crate::search::{has_owner, owners_of};
use grid_address::{Cell, CellList, Span, SpanList};
use lics_text::Memory;
use std::alloc::Global;
use std::collections::{BTreeMap, BTreeSet};
use std::marker::Model;

/// Cells with the spans that they own. The sheet is cut into blocks of equal size, for each size of a power of two rows
/// by a power of two columns. A span is registered at the smallest block that holds it, so that the owners of a cell
/// are looked for in one block of each size in use. A cell outside the hull of all spans has none.
#[derive(Drop)]
pub struct RangeIndex {
    owners: BTreeMap<Cell, SpanList>,
    sizes: BTreeSet<Size>,
    registrations: BTreeSet<Registration>,
    hull: Hull,
    alloc: Global,
}

impl Model for RangeIndex {
    ghost use Rattle.std.specs.Coded.{codes};
    ghost use Rattle.std.specs.FinMap as map;
    ghost use Rattle.range_index.specs.inner.Around.{IsAround};
    ghost use Rattle.range_index.specs.Owners.{Owners};
    ghost use Rattle.range_index.specs.inner.Registered.{AreRegistered};

    ghost Value = { Owners };

    ghost coded = { Prim.hlevel (codes, map.code) };

    ghost view = { λ i. map.from_entries i.owners.entries };

    ghost invariant = { λ i. AreRegistered (map.from_entries i.owners.entries) i.sizes.keys i.registrations.keys
        × IsAround i.hull (map.from_entries i.owners.entries) };
}

impl RangeIndex {
    /// No owner.
    pub fn new(alloc: Global) -> RangeIndex
        ensures { result ≡ map.empty }
    {
        RangeIndex {
            owners: BTreeMap::new(alloc),
            sizes: BTreeSet::new(alloc),
            registrations: BTreeSet::new(alloc),
            hull: Hull::new(),
            alloc,
        }
    }

    /// Whether no owner is there.
    pub fn is_empty(&self) -> bool
        ensures { result ≡ true → self.now ≡ map.empty }
    {
        self.owners.is_empty()
    }

    /// Gives an owner one more span. The index is as before where there is no memory.
    pub fn add(&mut self, owner: Cell, span: Span) -> Result<(), Memory>
        ensures ok { OnOk result (self.new ≡ with_span self.old owner span) }
        ensures err { OnErr result (self.new ≡ self.old) }
    {
        self.hull.put(span);
        enter(&mut self.sizes, &mut self.registrations, owner, span)?;
        put(self.alloc, &mut self.owners, owner, span)?;
        Ok(())
    }

    /// Takes an owner away with all its spans. It takes no memory.
    pub fn remove(&mut self, owner: Cell)
        ensures { self.new ≡ map.remove self.old owner }
    {
        if let Some(spans) = self.owners.remove(&owner) {
            forget(&mut self.registrations, owner, spans.as_slice());
        }
    }

    /// The owners of a span that holds the cell, each once, in row order.
    pub fn owners_of(&self, cell: Cell) -> Result<CellList, Memory>
        ensures { IfOk result (λ l. l ≡ owners_of self.now cell) }
    {
        if !self.hull.holds(cell) {
            return Ok(CellList::new(self.alloc));
        }
        owners_of(
            self.alloc,
            &self.owners,
            &self.sizes,
            &self.registrations,
            cell,
        )
    }

    /// Whether it is known that no owner has a span which holds the cell. It takes no memory.
    #[inline(always)]
    pub fn is_unowned(&self, cell: Cell) -> bool
        ensures { result ≡ true → owners_of self.now cell ≡ [] }
    {
        !self.hull.holds(cell) || !has_owner(&self.owners, &self.sizes, &self.registrations, cell)
    }
}
