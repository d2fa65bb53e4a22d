// What edits of cells make dirty, kept for the next edits of the same cells.
ghost use Rattle.std.specs.Prelude.{◌≡◌, IfOk, IfSome, Some, true};
ghost use Rattle.depend_graph.specs.InOrder.{GoesInOrder};
ghost use Rattle.depend_graph.specs.Network.{Network};
ghost use Rattle.depend_graph.specs.inner.Spreads.{is_of, list_of, AreKept, IsKept, IsSpreadOf};

use crate::Graph;
use crate::closure::closure;
use crate::in_order::is_in_order;
use cell_maps::are_same;
use grid_address::{Cell, CellList};
use lics_text::Memory;
use std::alloc::Global;

/// A cell, the formulas among it and those that reach it, and whether these are known to stand in an order in which
/// each comes after all of them that it reads.
#[derive(Drop)]
pub struct Spread {
    pub cell: Cell,
    pub list: CellList,
    pub is_in_order: bool,
}

/// What the last two cells spread to, the later one first, so that two cells may be edited by turns.
#[derive(Drop)]
pub struct LastSpreads {
    pub last: Option<Spread>,
    pub before: Option<Spread>,
}

impl LastSpreads {
    /// Nothing is kept.
    pub fn none() -> LastSpreads
        ensures { (g : Network) → AreKept g result }
    {
        LastSpreads {
            last: None,
            before: None,
        }
    }

    /// Keeps one more, in place of the earlier one.
    pub fn keep(&mut self, spread: Spread)
        ensures last { self.new.last ≡ Some spread }
        ensures before { self.new.before ≡ self.old.last }
    {
        self.before = self.last.take();
        self.last = Some(spread);
    }
}

/// Finds what a cell spreads to.
pub fn spread_of(alloc: Global, graph: &Graph, cell: Cell) -> Result<Spread, Memory>
    ensures cell { IfOk result (λ s. s.cell ≡ cell) }
    ensures is { IfOk result (λ s. IsSpreadOf graph.now s) }
{
    let cells = CellList::one(alloc, cell)?;
    let list = closure(alloc, graph, cells.as_slice())?;
    let is_in_order = is_in_order(alloc, graph, list.as_slice())?;
    Ok(Spread {
        cell,
        list,
        is_in_order,
    })
}

/// Whether what is kept is of this cell.
pub fn is_of(kept: &Option<Spread>, cell: Cell) -> bool
    ensures { result ≡ is_of kept.now cell }
{
    match kept {
        Some(spread) => spread.cell == cell,
        None => false,
    }
}

/// A copy of the list that is kept, empty where none is.
pub fn list_of(alloc: Global, kept: &Option<Spread>) -> Result<CellList, Memory>
    ensures { IfOk result (λ l. l ≡ list_of kept.now) }
{
    match kept {
        Some(spread) => Ok(spread.list.copy(alloc)?),
        None => Ok(CellList::new(alloc)),
    }
}

/// Whether the list that is kept stands in order, where it is the same as the cells.
pub fn order_kept(kept: &Option<Spread>, cells: &[Cell]) -> Option<bool>
    ensures { (g : Network) → IsKept g kept.now → IfSome result (λ b. b ≡ true → GoesInOrder g cells.now) }
{
    if let Some(spread) = kept {
        if are_same(spread.list.as_slice(), cells) {
            return Some(spread.is_in_order);
        }
    }
    None
}
