// The formulas that read a cell.
ghost use Rattle.std.specs.Prelude.{◌≡◌, ◌⊎◌, ◌↔◌, true, false, OnOk, IfOk, ◌++◌, ◌∷◌, []};
ghost use Rattle.std.specs.FinMap as map;
ghost use Rattle.cell_maps.specs.Sets.{has};
ghost use Rattle.grid_address.specs.Place.{same_place, Place};
ghost use Rattle.range_index.specs.Owners.{owners_of};
ghost use Rattle.depend_graph.specs.inner.Lists.{cells_in, list_at, AreInLists};
ghost use Rattle.depend_graph.specs.Network.{holds, reads};
ghost use Rattle.depend_graph.specs.inner.Readers.{any_reads, network_of, IsReaderAmong};
ghost use Rattle.depend_graph.specs.inner.Slots.{had, node_in, AreRegistered};

use crate::banks::Banks;
use crate::lists::{Lists, Readers};
use crate::slots::{Slot, node_of};
use cell_maps::CellMap;
use grid_address::Cell;
use lics_text::Memory;
use range_index::{RangeIndex, hold};

// Whether the formula at a cell reads another.
fn reads(slots: &CellMap<Slot>, formula: Cell, cell: Cell) -> bool
    ensures { result ≡ holds (had node_in (map.get slots.now formula)) cell }
{
    match node_of(slots, formula) {
        Some(node) => hold(node.reads.as_slice(), cell),
        None => false,
    }
}

// Adds those of the formulas that read the cell.
fn add_those(
    slots: &CellMap<Slot>,
    formulas: &[Cell],
    cell: Cell,
    found: &mut Vec<Cell>,
) -> Result<(), Memory>
    ensures { OnOk result ((d : Place) → (has same_place found.new.items d ≡ true)
        ↔ ((has same_place found.old.items d ≡ true) ⊎ IsReaderAmong slots.now cell formulas.now d)) }
{
    for formula in formulas {
        if reads(slots, *formula, cell) {
            found.push(*formula)?;
        }
    }
    Ok(())
}

// Adds those of the readers that still read the cell.
fn add_of(
    slots: &CellMap<Slot>,
    readers: &Readers,
    cell: Cell,
    found: &mut Vec<Cell>,
) -> Result<(), Memory>
    ensures { OnOk result ((d : Place) → (has same_place found.new.items d ≡ true)
        ↔ ((has same_place found.old.items d ≡ true) ⊎ IsReaderAmong slots.now cell (cells_in readers.now) d)) }
{
    add_those(slots, &[readers.first], cell, found)?;
    if readers.more.is_empty() {
        return Ok(());
    }
    add_those(slots, readers.more.as_slice(), cell, found)?;
    Ok(())
}

// Adds those that stand in the list of the cell.
fn add_listed(
    slots: &CellMap<Slot>,
    lists: &Lists,
    cell: Cell,
    found: &mut Vec<Cell>,
) -> Result<(), Memory>
    ensures { OnOk result ((d : Place) → (has same_place found.new.items d ≡ true)
        ↔ ((has same_place found.old.items d ≡ true) ⊎ IsReaderAmong slots.now cell (list_at lists.now cell) d)) }
{
    match lists.get(cell) {
        Some(readers) => add_of(slots, readers, cell, found),
        None => add_those(slots, &[], cell, found),
    }
}

// Adds those that read the cell in a wide span.
fn add_owners(
    slots: &CellMap<Slot>,
    index: &RangeIndex,
    cell: Cell,
    found: &mut Vec<Cell>,
) -> Result<(), Memory>
    ensures { OnOk result ((d : Place) → (has same_place found.new.items d ≡ true)
        ↔ ((has same_place found.old.items d ≡ true) ⊎ IsReaderAmong slots.now cell (owners_of index.now cell) d)) }
{
    if index.is_empty() {
        return Ok(());
    }
    let owners = index.owners_of(cell)?;
    add_those(slots, owners.as_slice(), cell, found)
}

/// Adds the formulas that read the cell.
pub fn add_readers(
    slots: &CellMap<Slot>,
    lists: &Lists,
    banks: &Banks,
    cell: Cell,
    found: &mut Vec<Cell>,
) -> Result<(), Memory>
    requires registered { AreRegistered slots.now banks.now.even banks.now.odd }
    requires listed { AreInLists slots.now lists.now }
    ensures { OnOk result ((d : Place) → (has same_place found.new.items d ≡ true)
        ↔ ((has same_place found.old.items d ≡ true) ⊎ (reads (network_of slots.now) d cell ≡ true))) }
{
    add_listed(slots, lists, cell, found)?;
    add_owners(slots, &banks.even, cell, found)?;
    add_owners(slots, &banks.odd, cell, found)?;
    Ok(())
}

// Whether one of the formulas reads the cell.
fn any_reads(slots: &CellMap<Slot>, formulas: &[Cell], cell: Cell) -> bool
    ensures { result ≡ any_reads slots.now cell formulas.now }
{
    for formula in formulas {
        if reads(slots, *formula, cell) {
            return true;
        }
    }
    false
}

// Whether one of the readers still reads the cell.
fn any_of(slots: &CellMap<Slot>, readers: &Readers, cell: Cell) -> bool
    ensures { result ≡ any_reads slots.now cell (cells_in readers.now) }
{
    reads(slots, readers.first, cell) || any_reads(slots, readers.more.as_slice(), cell)
}

// Whether one of those that stand in the list of the cell reads it.
fn any_listed(slots: &CellMap<Slot>, lists: &Lists, cell: Cell) -> bool
    ensures { result ≡ any_reads slots.now cell (list_at lists.now cell) }
{
    match lists.get(cell) {
        Some(readers) => any_of(slots, readers, cell),
        None => false,
    }
}

/// Whether it is known that no formula reads the cell. It takes no memory, and stops at the first that does.
pub fn is_unread(slots: &CellMap<Slot>, lists: &Lists, banks: &Banks, cell: Cell) -> bool
    requires registered { AreRegistered slots.now banks.now.even banks.now.odd }
    requires listed { AreInLists slots.now lists.now }
    ensures { result ≡ true → (d : Place) → reads (network_of slots.now) d cell ≡ false }
{
    if any_listed(slots, lists, cell) {
        return false;
    }
    if banks.even.is_unowned(cell) {
        return banks.odd.is_unowned(cell);
    }
    false
}
