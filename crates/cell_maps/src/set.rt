// Sets of cells.
ghost use Rattle.std.specs.Prelude.{◌≡◌, ◌<◌, ◌+◌, ◌++◌, ◌∷◌, [], ◌-◌, ◌^◌, ◌⊎◌, suc, cond, length, take, true, false, IfNone, IfSome, OnOk, OnErr, IfOk};
ghost use Rattle.std.specs.List.{IsDistinct};
ghost use Rattle.grid_address.specs.Place.{same_place, InSheet, Place};
ghost use Rattle.cell_maps.specs.Numbers.{number_at};
ghost use Rattle.cell_maps.specs.inner.Numbering.{above};
ghost use Rattle.cell_maps.specs.Sets.{has, insert_key};

use crate::PlaceTable;
use grid_address::Cell;
use std::alloc::{AllocError, Global};
use std::marker::Model;
use std::mem::swap;

/// Up to which number all cells may be taken out at once: further ones fit a number of 32 bits.
const MOST_GONE: u32 = 2_145_386_496;

/// A set of cells, in the order in which they came in. A cell is found by its number, which tells its place in the
/// order. The first one's is one above those that are gone, which cells that were taken out still have. Where the set
/// has no cell, those that were taken out last at once may be kept, whose numbers are the last ones that are gone.
#[derive(Drop)]
pub struct CellSet {
    table: PlaceTable,
    cells: Vec<Cell>,
    gone: u32,
    before: Vec<Cell>,
}

impl Model for CellSet {
    ghost use Rattle.std.specs.Prelude.{◌≤◌, ◌^◌};
    ghost use Rattle.cell_maps.specs.inner.Numbering.{above, AreNumbered, AreWaiting};
    ghost use Rattle.cell_maps.specs.Sets.{Cells};

    ghost Value = { Cells };

    ghost view = { λ s. record { keys = s.cells.items } };

    ghost invariant = { λ s. (s.gone ≤ 2 ^ 31) × (AreNumbered (above s.gone s.table) s.cells.items
        × AreWaiting s.gone s.table s.cells.items s.before.items) };
}

// Where a cell stands in the order, if its number is above those that are gone.
#[inline(always)]
fn place_in_order(table: &PlaceTable, gone: u32, cell: Cell) -> Option<usize>
    ensures none { IfNone result (number_at (above gone table.now) cell ≡ 0) }
    ensures some { IfSome result (λ i. number_at (above gone table.now) cell ≡ suc i) }
{
    let number = table.number_at(cell);
    if number <= gone {
        return None;
    }
    Some((number - gone) as usize - 1)
}

// Adds a cell that has no number behind the others. It gets its number before it is added, and loses it again where
// there is no memory, so that its page is looked up once.
fn add(
    table: &mut PlaceTable,
    gone: u32,
    cells: &mut Vec<Cell>,
    cell: Cell,
) -> Result<(), AllocError>
    requires few { gone + length cells.old.items < 2 ^ 32 - 1 }
    requires inside { InSheet cell }
    requires fresh { number_at (above gone table.old) cell ≡ 0 }
    ensures cells { OnOk result (cells.new.items ≡ cells.old.items ++ cell ∷ []) }
    ensures numbers { OnOk result ((d : Place) → InSheet d → number_at (above gone table.new) d
        ≡ cond (same_place cell d) (suc (length cells.old.items)) (number_at (above gone table.old) d)) }
    ensures err_cells { OnErr result (cells.new.items ≡ cells.old.items) }
    ensures err_numbers { OnErr result ((d : Place) → InSheet d →
        number_at (above gone table.new) d ≡ number_at (above gone table.old) d) }
{
    table.make_room(cell)?;
    table.set(cell, gone + cells.len() as u32 + 1);
    match cells.push(cell) {
        Ok(()) => Ok(()),
        Err(_) => {
            table.set(cell, 0);
            Err(AllocError)
        }
    }
}

/// Whether two lists of cells are the same.
pub fn are_same(cells: &[Cell], others: &[Cell]) -> bool
    ensures { result ≡ true → cells.now ≡ others.now }
{
    if cells.len() != others.len() {
        return false;
    }
    let mut next = 0;
    'cells: while next < cells.len() {
        if cells[next] != others[next] {
            return false;
        }
        next += 1;
    }
    true
}

impl CellSet {
    /// No cell. It takes no memory.
    pub fn new(alloc: Global) -> CellSet
        ensures { result.keys ≡ [] }
    {
        CellSet {
            table: PlaceTable::new(alloc),
            cells: Vec::new(alloc),
            gone: 0,
            before: Vec::new(alloc),
        }
    }

    /// The set of these cells, in their order.
    pub fn of(alloc: Global, cells: &[Cell]) -> Result<CellSet, AllocError>
        requires { IsDistinct same_place cells.now }
        ensures { IfOk result (λ s. s.keys ≡ cells.now) }
    {
        let mut set = CellSet::new(alloc);
        for cell in cells {
            set.insert(*cell)?;
        }
        Ok(set)
    }

    /// How many cells there are. None is in the set twice.
    pub fn len(&self) -> usize
        ensures len { result ≡ length self.now.keys }
        ensures unique { IsDistinct same_place self.now.keys }
    {
        self.cells.len()
    }

    /// The cells in their order, each once.
    pub fn as_slice(&self) -> &[Cell]
        ensures keys { result.now ≡ self.now.keys }
        ensures unique { IsDistinct same_place self.now.keys }
    {
        self.cells.as_slice()
    }

    /// Makes room for so many cells more, as far as there is memory. The set stays as it was.
    pub fn reserve(&mut self, more: usize) -> Result<(), AllocError>
        ensures { self.new.keys ≡ self.old.keys }
    {
        self.cells.reserve(more)
    }

    /// Whether a cell is in the set.
    #[inline(always)]
    pub fn contains(&self, cell: Cell) -> bool
        ensures { result ≡ has same_place self.now.keys cell }
    {
        cell.is_on_sheet();
        match place_in_order(&self.table, self.gone, cell) {
            Some(_) => true,
            None => false,
        }
    }

    // Adds a cell, unless it is in the set, where it and its number find room in the memory that the set has; whether
    // they do. It makes no call, so that its page is looked up once.
    #[inline(always)]
    fn insert_in_room(&mut self, cell: Cell) -> bool
        ensures yes { result ≡ true → self.new.keys ≡ insert_key same_place self.old.keys cell }
        ensures no { result ≡ false → self.new.keys ≡ self.old.keys }
    {
        cell.is_on_sheet();
        let Some(had) = self.table.put_behind(cell, self.gone, &self.cells) else {
            return false;
        };
        if had <= self.gone {
            self.before.clear();
            self.cells.push_reserved(cell);
        }
        true
    }

    /// Adds a cell behind the others, unless it is in the set, which stays as it was where there is no memory. Where
    /// the set has room, which is nearly always, it makes no call.
    #[inline(always)]
    pub fn insert(&mut self, cell: Cell) -> Result<(), AllocError>
        ensures ok { OnOk result (self.new.keys ≡ insert_key same_place self.old.keys cell) }
        ensures err { OnErr result (self.new.keys ≡ self.old.keys) }
    {
        if self.insert_in_room(cell) {
            return Ok(());
        }
        self.insert_apart(cell)
    }

    // Adds a cell as `insert` does, by a call of its own: for a set that may have to grow.
    #[inline(never)]
    fn insert_apart(&mut self, cell: Cell) -> Result<(), AllocError>
        ensures ok { OnOk result (self.new.keys ≡ insert_key same_place self.old.keys cell) }
        ensures err { OnErr result (self.new.keys ≡ self.old.keys) }
    {
        cell.is_on_sheet();
        if self.contains(cell) {
            return Ok(());
        }
        self.before.clear();
        add(&mut self.table, self.gone, &mut self.cells, cell)?;
        Ok(())
    }

    /// Puts cells into the set, which has none, where they are those that were last taken out all at once; whether they
    /// are. Else the set stays as it was.
    pub fn put_back(&mut self, cells: &[Cell]) -> bool
        ensures was { result ≡ true → self.old.keys ≡ [] }
        ensures yes { result ≡ true → self.new.keys ≡ cells.now }
        ensures no { result ≡ false → self.new.keys ≡ self.old.keys }
    {
        if !self.cells.is_empty() {
            return false;
        }
        if !are_same(self.before.as_slice(), cells) {
            return false;
        }
        self.gone -= self.before.len() as u32;
        swap(&mut self.cells, &mut self.before);
        true
    }

    /// Takes a cell out, and puts the last one in its place. It takes no memory.
    pub fn remove(&mut self, cell: Cell)
        ensures { (d : Place) →
            has same_place self.new.keys d ≡ cond (same_place cell d) false (has same_place self.old.keys d) }
    {
        cell.is_on_sheet();
        let Some(at) = place_in_order(&self.table, self.gone, cell) else {
            return;
        };
        self.before.clear();
        if let Some(last) = self.cells.pop() {
            last.is_on_sheet();
            self.table.set(last, self.gone + at as u32 + 1);
            self.table.set(cell, 0);
            if at < self.cells.len() {
                self.cells[at] = last;
            }
        }
    }

    // Takes the last cell out.
    fn pop(&mut self)
        ensures { self.new.keys ≡ take (length self.old.keys - 1) self.old.keys }
    {
        self.before.clear();
        if let Some(cell) = self.cells.pop() {
            cell.is_on_sheet();
            self.table.set(cell, 0);
        }
    }

    // Takes all cells out at once: their numbers are gone. Where too many are, all cells stay.
    fn let_all_go(&mut self)
        ensures { (self.new.keys ≡ []) ⊎ (self.new.keys ≡ self.old.keys) }
    {
        if self.gone < MOST_GONE {
            self.gone += self.cells.len() as u32;
            swap(&mut self.cells, &mut self.before);
            self.cells.clear();
        }
    }

    /// Takes out all cells but the first ones, so many. It takes no memory, and next to no time where it takes out all.
    pub fn truncate(&mut self, count: usize)
        ensures { self.new.keys ≡ take count self.old.keys }
    {
        if count == 0 {
            self.let_all_go();
        }
        while self.len() > count {
            self.pop();
        }
    }
}
