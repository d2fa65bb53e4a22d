// Two indexes of the wide spans that formulas read.
ghost use Rattle.std.specs.Prelude.{◌≡◌, ◌++◌, ◌∷◌, [], OnOk};
ghost use Rattle.std.specs.FinMap as map;
ghost use Rattle.std.specs.FinMap.{get};
ghost use Rattle.range_index.specs.Owners.{spans_in};
ghost use Rattle.depend_graph.specs.inner.Banks.{spans_at, wide, AreOthers, AreOthersKept};

use crate::lists::is_one;
use grid_address::{Cell, Span};
use lics_text::Memory;
use range_index::RangeIndex;
use std::alloc::Global;

/// A formula's spans are in one of the two, and the other has room for those that it will have.
#[derive(Drop)]
pub struct Banks {
    pub even: RangeIndex,
    pub odd: RangeIndex,
}

// Gives an owner one span more, if it is wide.
fn add_wide(index: &mut RangeIndex, owner: Cell, span: Span) -> Result<(), Memory>
    ensures is { OnOk result (spans_in (get index.new owner) ≡ spans_in (get index.old owner) ++ wide (span ∷ [])) }
    ensures others { AreOthers index.old index.new owner }
{
    if !is_one(span) {
        index.add(owner, span)?;
    }
    Ok(())
}

// Gives an owner the wide ones of these spans. The other owners keep theirs, also where there is no memory.
fn fill(index: &mut RangeIndex, owner: Cell, spans: &[Span]) -> Result<(), Memory>
    ensures is { OnOk result (spans_in (get index.new owner) ≡ wide spans.now) }
    ensures others { AreOthers index.old index.new owner }
{
    index.remove(owner);
    for span in spans {
        add_wide(index, owner, *span)?;
    }
    Ok(())
}

// Takes a cell's spans out of one of the two indexes.
fn empty(index: &mut RangeIndex, owner: Cell)
    ensures { AreOthers index.old index.new owner }
{
    index.remove(owner);
}

impl Banks {
    /// No spans in either.
    pub fn new(alloc: Global) -> Banks
        ensures even { result.even ≡ map.empty }
        ensures odd { result.odd ≡ map.empty }
    {
        Banks {
            even: RangeIndex::new(alloc),
            odd: RangeIndex::new(alloc),
        }
    }

    /// Gives a cell the wide ones of these spans in one of the two. All others are kept, also where there is no memory.
    pub fn fill(&mut self, is_odd: bool, cell: Cell, spans: &[Span]) -> Result<(), Memory>
        ensures is { OnOk result (spans_at self.new.even self.new.odd is_odd cell ≡ wide spans.now) }
        ensures others { AreOthersKept self.old.even self.old.odd self.new.even self.new.odd is_odd cell }
    {
        if is_odd {
            fill(&mut self.odd, cell, spans)?;
        } else {
            fill(&mut self.even, cell, spans)?;
        }
        Ok(())
    }

    /// Takes a cell's spans out of one of the two. It takes no memory.
    pub fn clear(&mut self, is_odd: bool, cell: Cell)
        ensures { AreOthersKept self.old.even self.old.odd self.new.even self.new.odd is_odd cell }
    {
        if is_odd {
            empty(&mut self.odd, cell);
        } else {
            empty(&mut self.even, cell);
        }
    }
}
