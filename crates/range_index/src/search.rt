// The owners of a cell, by what is registered.
ghost use Rattle.std.specs.Prelude.{◌≡◌, ◌⊎◌, [], false, true, OnOk, IfOk};
ghost use Rattle.std.specs.FinMap as map;
ghost use Rattle.grid_address.specs.Place.{place_cmp, whole, Place};
ghost use Rattle.range_index.specs.Owners.{hold, owners_of, spans_in};
ghost use Rattle.range_index.specs.inner.Registered.{has_place, owned, registration_cmp, AreAmong, AreFoundAt, AreFoundIn, AreOwners, AreRegistered};

use crate::block::{Block, Size, block_at};
use crate::owners::owns;
use crate::register::Registration;
use grid_address::{Cell, CellList, LAST_COLUMN, LAST_ROW, SpanList};
use lics_text::Memory;
use std::alloc::Global;
use std::collections::{BTreeMap, BTreeSet};

// Adds an owner to those that were found.
fn add(found: &mut BTreeSet<Cell>, owner: Cell) -> Result<(), Memory>
    ensures kept { OnOk result (AreAmong found.old.keys found.new.keys) }
    ensures has { OnOk result (has_place found.new.keys owner ≡ true) }
    ensures only { OnOk result
        ((q : Place) → has_place found.new.keys q ≡ true → (has_place found.old.keys q ≡ true) ⊎ (q ≡ owner)) }
{
    found.insert(owner)?;
    Ok(())
}

// The least entry that a block can have.
fn first_in(block: &Block) -> Registration
    ensures { result ≡ owned block.now whole.first }
{
    Registration {
        block: *block,
        owner: Cell { row: 0, col: 0 },
    }
}

// The greatest entry that a block can have.
fn last_in(block: &Block) -> Registration
    ensures { result ≡ owned block.now whole.last }
{
    Registration {
        block: *block,
        owner: Cell {
            row: LAST_ROW,
            col: LAST_COLUMN,
        },
    }
}

// Finds the owners of the cell among those that are registered in a block.
fn gather(
    owners: &BTreeMap<Cell, SpanList>,
    registrations: &BTreeSet<Registration>,
    block: &Block,
    cell: Cell,
    found: &mut BTreeSet<Cell>,
) -> Result<(), Memory>
    requires { AreOwners (map.from_entries owners.now.entries) cell found.old.keys }
    ensures owners { OnOk result (AreOwners (map.from_entries owners.now.entries) cell found.new.keys) }
    ensures kept { OnOk result (AreAmong found.old.keys found.new.keys) }
    ensures all { OnOk result
        (AreFoundIn (map.from_entries owners.now.entries) cell registrations.now.keys block.now found.new.keys) }
{
    for registration in registrations.range(first_in(block)..=last_in(block)) {
        if owns(owners, registration.owner, cell) {
            add(found, registration.owner)?;
        }
    }
    Ok(())
}

// Finds all owners of the cell.
fn gather_all(
    alloc: Global,
    owners: &BTreeMap<Cell, SpanList>,
    sizes: &BTreeSet<Size>,
    registrations: &BTreeSet<Registration>,
    cell: Cell,
) -> Result<BTreeSet<Cell>, Memory>
    ensures owners { IfOk result (λ found. AreOwners (map.from_entries owners.now.entries) cell found.keys) }
    ensures all { IfOk result
        (λ found. AreFoundAt (map.from_entries owners.now.entries) cell registrations.now.keys sizes.now.keys
        found.keys) }
{
    let mut found = BTreeSet::new(alloc);
    for size in sizes.iter() {
        gather(
            owners,
            registrations,
            &block_at(*size, cell),
            cell,
            &mut found,
        )?;
    }
    Ok(found)
}

// Whether one of those that are registered in a block owns a span that holds the cell.
fn has_owner_in(
    owners: &BTreeMap<Cell, SpanList>,
    registrations: &BTreeSet<Registration>,
    block: &Block,
    cell: Cell,
) -> bool
    ensures { result ≡ false →
        AreFoundIn (map.from_entries owners.now.entries) cell registrations.now.keys block.now [] }
{
    for registration in registrations.range(first_in(block)..=last_in(block)) {
        let owner = registration.owner;
        if owns(owners, owner, cell) {
            return true;
        }
    }
    false
}

/// Whether one owns a span that holds the cell. It takes no memory.
pub fn has_owner(
    owners: &BTreeMap<Cell, SpanList>,
    sizes: &BTreeSet<Size>,
    registrations: &BTreeSet<Registration>,
    cell: Cell,
) -> bool
    requires { AreRegistered (map.from_entries owners.now.entries) sizes.now.keys registrations.now.keys }
    ensures { result ≡ false → (o : Place) →
        hold (spans_in (map.get (map.from_entries {R = place_cmp} owners.now.entries) o)) cell ≡ false }
{
    for size in sizes.iter() {
        if has_owner_in(owners, registrations, &block_at(*size, cell), cell) {
            return true;
        }
    }
    false
}

// The owners that were found, in a list.
fn listed(alloc: Global, found: &BTreeSet<Cell>) -> Result<CellList, Memory>
    ensures { IfOk result (λ l. l ≡ found.now.keys) }
{
    let mut list = CellList::new(alloc);
    for cell in found.iter() {
        list.push(*cell)?;
    }
    Ok(list)
}

/// The owners of a span that holds the cell, each once, in row order.
pub fn owners_of(
    alloc: Global,
    owners: &BTreeMap<Cell, SpanList>,
    sizes: &BTreeSet<Size>,
    registrations: &BTreeSet<Registration>,
    cell: Cell,
) -> Result<CellList, Memory>
    requires { AreRegistered (map.from_entries owners.now.entries) sizes.now.keys registrations.now.keys }
    ensures { IfOk result (λ l. l ≡ owners_of (map.from_entries owners.now.entries) cell) }
{
    // `len` is called for its clause that the keys are in order.
    let _owners = owners.len();
    let found = gather_all(alloc, owners, sizes, registrations, cell)?;
    let _found = found.len();
    listed(alloc, &found)
}
