// The graph of what formulas read.
ghost use Rattle.std.specs.Prelude.{◌≡◌, ◌⊎◌, ◌↔◌, ◌∷◌, [], true, false, IfOk, OnOk, OnErr, option_copied};
ghost use Rattle.std.specs.FinMap as map;
ghost use Rattle.cell_maps.specs.Sets.{has};
ghost use Rattle.grid_address.specs.Place.{same_place, Place};
ghost use Rattle.depend_graph.specs.InOrder.{GoesInOrder};
ghost use Rattle.depend_graph.specs.Network.{accepted, dropped, is_formula, offered, put, reads, withdrawn, IsSpread};
ghost use Rattle.depend_graph.specs.declared.node.Node.{Node};

use crate::Node;
use crate::banks::Banks;
use crate::closure::closure;
use crate::in_order::is_in_order;
use crate::lists::{Lists, add_all};
use crate::readers::{add_readers, is_unread};
use crate::slots::{
    Part, Slot, drop_part, has_offer, has_slot, node_of, put_formula, put_offer, side, turn,
};
use crate::spread::{LastSpreads, is_of, list_of, order_kept, spread_of};
use cell_maps::CellMap;
use grid_address::{Cell, CellList};
use lics_text::Memory;
use std::alloc::Global;
use std::marker::Model;

/// The formulas of a sheet with what they read, and formulas that are offered to take their place. All memory is taken
/// where a formula is offered, so that an edit can make its growths first and change the graph afterwards.
#[derive(Drop)]
pub struct Graph {
    slots: CellMap<Slot>,
    lists: Lists,
    banks: Banks,
    spread: LastSpreads,
    alloc: Global,
}

impl Model for Graph {
    ghost use Rattle.std.specs.Coded.{codes};
    ghost use Rattle.std.specs.FinMap as map;
    ghost use Rattle.depend_graph.specs.inner.Lists.{AreInLists};
    ghost use Rattle.depend_graph.specs.Network.{Network};
    ghost use Rattle.depend_graph.specs.inner.Readers.{network_of};
    ghost use Rattle.depend_graph.specs.inner.Slots.{node_in, offer_in, picked, AreRegistered};
    ghost use Rattle.depend_graph.specs.inner.Spreads.{AreKept};

    ghost Value = { Network };

    ghost coded = { Prim.hlevel (codes, map.code) };

    ghost view = { λ g. record { formulas = picked node_in g.slots; offers = picked offer_in g.slots } };

    ghost invariant = { λ g. AreRegistered g.slots g.banks.even g.banks.odd × (AreInLists g.slots g.lists
        × AreKept (network_of g.slots) g.spread) };
}

impl Graph {
    /// No formula.
    pub fn new(alloc: Global) -> Graph
        ensures formulas { result.formulas ≡ map.empty }
        ensures offers { result.offers ≡ map.empty }
    {
        Graph {
            slots: CellMap::new(alloc),
            lists: CellMap::new(alloc),
            banks: Banks::new(alloc),
            spread: LastSpreads::none(),
            alloc,
        }
    }

    /// Makes room for so many formulas more, as far as there is memory.
    pub fn reserve(&mut self, more: usize) -> Result<(), Memory>
        ensures { self.new ≡ self.old }
    {
        self.slots.reserve(more)?;
        Ok(())
    }

    /// The formula at a cell.
    pub fn get(&self, cell: Cell) -> Option<&Node>
        ensures { option_copied result ≡ map.get self.now.formulas cell }
    {
        node_of(&self.slots, cell)
    }

    /// Whether it is known that there is no formula: none was ever put in.
    pub fn is_empty(&self) -> bool
        ensures { result ≡ true → self.now.formulas ≡ map.empty }
    {
        self.slots.held().is_empty()
    }

    /// Whether a cell holds a formula.
    pub fn has_formula(&self, cell: Cell) -> bool
        ensures { result ≡ is_formula self.now cell }
    {
        match self.get(cell) {
            Some(_) => true,
            None => false,
        }
    }

    /// Offers a formula for a cell, in place of an earlier offer. The formulas stay as they are. Where there is no
    /// memory, no offer is left for the cell.
    pub fn offer(&mut self, cell: Cell, node: Node) -> Result<(), Memory>
        ensures ok { OnOk result (self.new ≡ offered self.old cell node) }
        ensures err { OnErr result (self.new ≡ withdrawn self.old cell) }
    {
        self.spread = LastSpreads::none();
        drop_part(&mut self.slots, cell, Part::Offer);
        add_all(&mut self.lists, self.alloc, node.reads.as_slice(), cell)?;
        let is_odd = !side(&self.slots, cell);
        self.banks.fill(is_odd, cell, node.reads.as_slice())?;
        put_offer(&mut self.slots, cell, node)?;
        Ok(())
    }

    /// Makes a cell's offer its formula, where there is one. It takes no memory.
    pub fn accept(&mut self, cell: Cell)
        ensures { self.new ≡ accepted self.old cell }
    {
        if has_offer(&self.slots, cell) {
            self.spread = LastSpreads::none();
            let is_odd = side(&self.slots, cell);
            turn(&mut self.slots, cell);
            self.banks.clear(is_odd, cell);
        }
    }

    /// Takes a cell's offer back. It takes no memory.
    pub fn withdraw(&mut self, cell: Cell)
        ensures { self.new ≡ withdrawn self.old cell }
    {
        if !has_offer(&self.slots, cell) {
            return;
        }
        let is_odd = !side(&self.slots, cell);
        drop_part(&mut self.slots, cell, Part::Offer);
        self.banks.clear(is_odd, cell);
    }

    /// Takes a cell's formula away. It takes no memory.
    pub fn drop_cell(&mut self, cell: Cell)
        ensures { self.new ≡ dropped self.old cell }
    {
        if !self.has_formula(cell) {
            return;
        }
        self.spread = LastSpreads::none();
        let is_odd = side(&self.slots, cell);
        drop_part(&mut self.slots, cell, Part::Formula);
        self.banks.clear(is_odd, cell);
    }

    /// Puts a formula at a cell, and takes the cell's offer back. Where there is no memory, the formulas stay as they
    /// are. A cell that has neither takes its formula without an offer before it.
    pub fn set(&mut self, cell: Cell, node: Node) -> Result<(), Memory>
        ensures ok { OnOk result (self.new ≡ put self.old cell node) }
        ensures err { OnErr result (self.new.formulas ≡ self.old.formulas) }
    {
        if has_slot(&self.slots, cell) {
            self.offer(cell, node)?;
            self.accept(cell);
            return Ok(());
        }
        self.spread = LastSpreads::none();
        add_all(&mut self.lists, self.alloc, node.reads.as_slice(), cell)?;
        self.banks.fill(false, cell, node.reads.as_slice())?;
        put_formula(&mut self.slots, cell, node)?;
        Ok(())
    }

    /// Adds the formulas that read a cell, some of them more than once.
    pub fn add_readers(&self, cell: Cell, found: &mut Vec<Cell>) -> Result<(), Memory>
        ensures { OnOk result ((d : Place) → (has same_place found.new.items d ≡ true)
            ↔ ((has same_place found.old.items d ≡ true) ⊎ (reads self.now d cell ≡ true))) }
    {
        add_readers(&self.slots, &self.lists, &self.banks, cell, found)?;
        Ok(())
    }

    /// Whether it is known that no formula reads a cell. It takes no memory.
    pub fn is_unread(&self, cell: Cell) -> bool
        ensures { result ≡ true → (d : Place) → reads self.now d cell ≡ false }
    {
        is_unread(&self.slots, &self.lists, &self.banks, cell)
    }

    /// The formulas among the cells, and those that reach one of them through what they read. They are meant to stand
    /// before those that read them, as far as circles allow; no clause tells that.
    pub fn closure(&self, cells: &CellList) -> Result<CellList, Memory>
        ensures { IfOk result (λ l. (c : Place) → (has same_place l c ≡ true) ↔ IsSpread self.now cells.now c) }
    {
        let list = closure(self.alloc, self, cells.as_slice())?;
        Ok(list)
    }

    /// The formulas among a cell and those that reach it, as `closure` tells them. Those of the last two cells are kept
    /// for the next time while no formula changes, and so is whether they stand in order.
    pub fn spread_of(&mut self, cell: Cell) -> Result<CellList, Memory>
        ensures same { self.new ≡ self.old }
        ensures list { IfOk result (λ l. (c : Place) → (has same_place l c ≡ true) ↔ IsSpread self.old (cell ∷ []) c) }
    {
        if is_of(&self.spread.last, cell) {
            let list = list_of(self.alloc, &self.spread.last)?;
            return Ok(list);
        }
        if is_of(&self.spread.before, cell) {
            let list = list_of(self.alloc, &self.spread.before)?;
            return Ok(list);
        }
        let spread = spread_of(self.alloc, self, cell)?;
        let list = spread.list.copy(self.alloc)?;
        self.spread.keep(spread);
        Ok(list)
    }

    /// Whether no formula of the cells is volatile, and none reads itself or one that stands behind it. What was kept
    /// of `spread_of` is known at once.
    pub fn is_in_order(&self, cells: &[Cell]) -> Result<bool, Memory>
        ensures { IfOk result (λ b. b ≡ true → GoesInOrder self.now cells.now) }
    {
        if let Some(last) = order_kept(&self.spread.last, cells) {
            return Ok(last);
        }
        if let Some(before) = order_kept(&self.spread.before, cells) {
            return Ok(before);
        }
        let is = is_in_order(self.alloc, self, cells)?;
        Ok(is)
    }
}
