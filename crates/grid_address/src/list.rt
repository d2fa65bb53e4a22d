ghost use Rattle.std.specs.Prelude.{◌≡◌, ◌≤◌, ◌<◌, ◌++◌, ◌∷◌, [], length, OnOk, OnErr, IfOk, IfSome, IfNone, Some, slice_get};

use crate::{Cell, Span};
use std::alloc::{AllocError, Global};
use std::marker::Model;

/// A list of places.
#[derive(Drop)]
pub struct PlaceList<T> {
    items: Vec<T>,
}

/// A list of cells.
pub type CellList = PlaceList<Cell>;

/// A list of spans.
pub type SpanList = PlaceList<Span>;

impl<T> Model for PlaceList<T> {
    ghost use Rattle.std.specs.Prelude.{List};

    ghost Value = { List T };

    ghost view = { λ l. l.items.items };
}

impl<T: Copy> PlaceList<T> {
    /// The empty list.
    pub fn new(alloc: Global) -> PlaceList<T>
        ensures { result ≡ [] }
    {
        PlaceList {
            items: Vec::new(alloc),
        }
    }

    /// A list of one.
    pub fn one(alloc: Global, item: T) -> Result<PlaceList<T>, AllocError>
        ensures { IfOk result (λ l. l ≡ item ∷ []) }
    {
        let mut list = PlaceList::new(alloc);
        list.push(item)?;
        Ok(list)
    }

    /// Adds one at the end. The list is unchanged where there is no room.
    pub fn push(&mut self, item: T) -> Result<(), AllocError>
        ensures ok { OnOk result (self.new ≡ self.old ++ item ∷ []) }
        ensures err { OnErr result (self.new ≡ self.old) }
    {
        self.items.push(item)?;
        Ok(())
    }

    /// How many there are.
    pub fn len(&self) -> usize
        ensures { result ≡ length self.now }
    {
        self.items.len()
    }

    /// The one at a place, and none exactly past the end.
    pub fn get(&self, place: usize) -> Option<&T>
        ensures none { IfNone result (length self.now ≤ place) }
        ensures some { IfSome result (λ s. (place < length self.now) × (slice_get self.now place ≡ Some s.now)) }
    {
        self.items.get(place)
    }

    /// The items as a slice.
    pub fn as_slice(&self) -> &[T]
        ensures { result.now ≡ self.now }
    {
        self.items.as_slice()
    }

    /// An equal list.
    pub fn copy(&self, alloc: Global) -> Result<PlaceList<T>, AllocError>
        ensures { IfOk result (λ l. l ≡ self.now) }
    {
        let mut items = Vec::new(alloc);
        items.extend_from_slice(self.items.as_slice())?;
        Ok(PlaceList { items })
    }
}
