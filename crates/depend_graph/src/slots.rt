// The formula of each cell, with the one that it will have.
ghost use Rattle.std.specs.Prelude.{◌≡◌, OnOk, OnErr, option_copied, Some, None, is_some};
ghost use Rattle.std.specs.FinMap as map;
ghost use Rattle.depend_graph.specs.inner.Slots.{cleared, formed, had, node_in, offer_in, offering, other_in, placed, side, turned, turned_to, without};

use crate::Node;
use cell_maps::CellMap;
use grid_address::Cell;
use lics_text::Memory;

/// A cell's formula and its offer. `is_odd` tells in which index the formula's spans are.
#[derive(Drop)]
pub struct Slot {
    pub node: Option<Node>,
    pub offer: Option<Node>,
    pub is_odd: bool,
}

/// One of the two that a slot may have: the formula in force, or the offer.
#[derive(Clone, Copy)]
pub enum Part {
    Formula,
    Offer,
}

/// In which index the spans of the cell's formula are.
pub fn side(slots: &CellMap<Slot>, cell: Cell) -> bool
    ensures { result ≡ side (map.get slots.now cell) }
{
    match slots.get(cell) {
        Some(slot) => slot.is_odd,
        None => false,
    }
}

/// The cell's formula.
pub fn node_of(slots: &CellMap<Slot>, cell: Cell) -> Option<&Node>
    ensures { option_copied result ≡ had node_in (map.get slots.now cell) }
{
    match slots.get(cell) {
        Some(slot) => slot.node.as_ref(),
        None => None,
    }
}

/// Whether the cell has an offer.
pub fn has_offer(slots: &CellMap<Slot>, cell: Cell) -> bool
    ensures { result ≡ is_some (had offer_in (map.get slots.now cell)) }
{
    match slots.get(cell) {
        Some(slot) => slot.offer.is_some(),
        None => false,
    }
}

/// Whether the cell has a slot.
pub fn has_slot(slots: &CellMap<Slot>, cell: Cell) -> bool
    ensures { result ≡ is_some (map.get slots.now cell) }
{
    slots.get(cell).is_some()
}

/// Puts a formula at the cell, which has no slot. The slots are as before where there is no memory.
pub fn put_formula(slots: &mut CellMap<Slot>, cell: Cell, node: Node) -> Result<(), Memory>
    ensures ok { OnOk result (slots.new ≡ placed slots.old cell (Some (formed node))) }
    ensures err { OnErr result (slots.new ≡ slots.old) }
{
    let slot = Slot {
        node: Some(node),
        offer: None,
        is_odd: false,
    };
    slots.insert(cell, slot)?;
    Ok(())
}

// An offer takes the place of the one before it.
fn write_offer(slot: &mut Slot, node: Node)
    ensures { slot.new ≡ record slot.old { offer = Some node } }
{
    slot.offer = Some(node);
}

/// Puts an offer at the cell. The slots are as before where there is no memory.
pub fn put_offer(slots: &mut CellMap<Slot>, cell: Cell, node: Node) -> Result<(), Memory>
    ensures ok { OnOk result (slots.new ≡ placed slots.old cell (Some (offering (map.get slots.old cell) node))) }
    ensures err { OnErr result (slots.new ≡ slots.old) }
{
    match slots.get_mut(cell) {
        Some(slot) => {
            write_offer(slot, node);
            Ok(())
        }
        None => {
            let slot = Slot {
                node: None,
                offer: Some(node),
                is_odd: false,
            };
            slots.insert(cell, slot)?;
            Ok(())
        }
    }
}

// The offer becomes the formula, and the side turns with it.
fn turn_slot(slot: &mut Slot)
    ensures { slot.new ≡ turned_to slot.old.offer slot.old }
{
    if let Some(node) = slot.offer.take() {
        slot.node = Some(node);
        slot.is_odd = !slot.is_odd;
    }
}

/// Makes the cell's offer its formula, where there is one. It takes no memory.
pub fn turn(slots: &mut CellMap<Slot>, cell: Cell)
    ensures { slots.new ≡ placed slots.old cell (turned (map.get slots.old cell)) }
{
    match slots.get_mut(cell) {
        Some(slot) => turn_slot(slot),
        None => {}
    }
}

// Whether the cell has the other of the two.
fn has_other(slots: &CellMap<Slot>, cell: Cell, part: Part) -> bool
    ensures { result ≡ is_some (had (other_in part) (map.get slots.now cell)) }
{
    match slots.get(cell) {
        Some(slot) => match part {
            Part::Formula => slot.offer.is_some(),
            Part::Offer => slot.node.is_some(),
        },
        None => false,
    }
}

// The other of the two stays, and so does the side.
fn clear(slot: &mut Slot, part: Part)
    ensures { slot.new ≡ cleared part slot.old }
{
    match part {
        Part::Formula => slot.node = None,
        Part::Offer => slot.offer = None,
    }
}

/// Takes the cell's formula or its offer away. It takes no memory.
pub fn drop_part(slots: &mut CellMap<Slot>, cell: Cell, part: Part)
    ensures { slots.new ≡ placed slots.old cell (without part (map.get slots.old cell)) }
{
    if !has_other(slots, cell, part) {
        slots.remove(cell);
        return;
    }
    match slots.get_mut(cell) {
        Some(slot) => clear(slot, part),
        None => {}
    }
}
