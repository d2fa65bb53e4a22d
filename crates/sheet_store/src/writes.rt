// Lists of writes, what a file holds, and why an edit is refused.
ghost use Rattle.std.specs.Prelude.{◌≡◌, ◌≤◌, ◌<◌, ◌++◌, ◌∷◌, [], length, slice_get, OnOk, OnErr, IfSome, IfNone, Some};

use crate::{Settings, Store};
use formula_tree::Content;
use grid_address::{Cell, Format, Span};
use lics_text::Memory;
use range_names::Names;
use std::alloc::Global;
use std::marker::Model;

/// A content for a cell, and a format where the cell's own isn't kept.
#[derive(Drop)]
pub struct Write {
    pub cell: Cell,
    pub content: Content,
    pub format: Option<Format>,
}

/// A list of writes.
#[derive(Drop)]
pub struct Writes {
    items: Vec<Write>,
}

impl Model for Writes {
    ghost use Rattle.formula_tree.specs.contracts.formula.Formula as formula;
    ghost use Rattle.std.specs.Coded.{codes};
    ghost use Rattle.std.specs.Prelude.{List};
    ghost use Rattle.sheet_store.specs.declared.writes.Write.{Write};

    ghost Value = { List Write };

    ghost coded = { Prim.hlevel (codes, formula.the_row.coded) };

    ghost view = { λ w. w.items.items };
}

impl Writes {
    /// The empty list.
    pub fn new(alloc: Global) -> Writes
        ensures { result ≡ [] }
    {
        Writes {
            items: Vec::new(alloc),
        }
    }

    /// Makes room for so many more, as far as there is memory.
    pub fn reserve(&mut self, more: usize) -> Result<(), Memory>
        ensures { self.new ≡ self.old }
    {
        self.items.reserve(more)?;
        Ok(())
    }

    /// Adds one at the end. The list is unchanged where there is no room.
    pub fn push(&mut self, write: Write) -> Result<(), Memory>
        ensures ok { OnOk result (self.new ≡ self.old ++ write ∷ []) }
        ensures err { OnErr result (self.new ≡ self.old) }
    {
        self.items.push(write)?;
        Ok(())
    }

    /// How many there are.
    pub fn len(&self) -> usize
        ensures { result ≡ length self.now }
    {
        self.items.len()
    }

    /// The one at a place, and none exactly past the end.
    pub fn get(&self, place: usize) -> Option<&Write>
        ensures none { IfNone result (length self.now ≤ place) }
        ensures some { IfSome result (λ w. (place < length self.now) × (slice_get self.now place ≡ Some w.now)) }
    {
        self.items.get(place)
    }
}

/// What a worksheet file holds of a sheet.
#[derive(Drop)]
pub struct SavedSheet {
    pub store: Store,
    pub names: Names,
    pub settings: Settings,
}

/// Why an edit is refused. `Protected` carries the first protected cell in row order, `PushedOff` the first filled
/// cell in row order that would leave the sheet, and `OutOfSheet` the source span.
#[derive(Clone, Copy)]
pub enum SheetFault {
    Protected(Cell),
    PushedOff(Cell),
    OutOfSheet(Span),
    Memory,
}
