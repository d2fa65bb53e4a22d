// Marks of cells: the first few in a list, and more of them as numbers in a table of places.
ghost use Rattle.std.specs.Prelude.{◌≡◌, cond, false, [], IfNone, IfSome, OnOk};
ghost use Rattle.cell_maps.specs.Numbers.{number_at};
ghost use Rattle.grid_address.specs.Place.{same_place, InSheet, Place};
ghost use Rattle.depend_graph.specs.inner.Marked.{is_among, mark_among, mark_at, StandsAt};

use cell_maps::PlaceTable;
use grid_address::Cell;
use lics_text::Memory;
use std::alloc::Global;

/// How many cells have their marks in a list, before a table is taken: one costs more than many looks at such a list.
const FEW: usize = 16;

/// A cell and its mark.
#[derive(Clone, Copy)]
pub struct Marked {
    pub cell: Cell,
    pub mark: u32,
}

/// Marks of cells: in a list while they are few, and then all in a table.
#[derive(Drop)]
pub struct Marks {
    few: Vec<Marked>,
    table: PlaceTable,
    are_many: bool,
}

// Where a cell stands in a list, if it is marked there.
#[inline(always)]
fn place_among(few: &[Marked], cell: Cell) -> Option<usize>
    ensures some { IfSome result (λ at. StandsAt few.now at cell) }
    ensures none { IfNone result (is_among few.now cell ≡ false) }
{
    let mut at = 0;
    'places: while at < few.len() {
        if few[at].cell == cell {
            return Some(at);
        }
        at += 1;
    }
    None
}

// Marks a cell in a table.
fn put_number(table: &mut PlaceTable, cell: Cell, mark: u32) -> Result<(), Memory>
    ensures { OnOk result ((d : Place) → InSheet d → number_at table.new d
        ≡ cond (same_place cell d) mark (number_at table.old d)) }
{
    table.make_room(cell)?;
    table.set(cell, mark);
    Ok(())
}

// Marks the cells of a list in a table, the last one first.
fn put_few(table: &mut PlaceTable, few: &[Marked]) -> Result<(), Memory>
    ensures { OnOk result ((d : Place) → InSheet d → number_at table.new d
        ≡ mark_among few.now (number_at table.old d) d) }
{
    let mut next = few.len();
    'back: while next > 0 {
        next -= 1;
        let one = few[next];
        put_number(table, one.cell, one.mark)?;
    }
    Ok(())
}

impl Marks {
    /// No cell is marked. It takes no memory.
    pub fn new(alloc: Global) -> Marks
        ensures { (d : Place) → mark_at result d ≡ 0 }
    {
        Marks {
            few: Vec::new(alloc),
            table: PlaceTable::new(alloc),
            are_many: false,
        }
    }

    /// The mark of a cell, 0 where it has none.
    #[inline(always)]
    pub fn mark_at(&self, cell: Cell) -> u32
        ensures { result ≡ mark_at self.now cell }
    {
        match place_among(self.few.as_slice(), cell) {
            Some(at) => self.few[at].mark,
            None => self.table.number_at(cell),
        }
    }

    /// Marks a cell.
    #[inline(always)]
    pub fn put_mark(&mut self, cell: Cell, mark: u32) -> Result<(), Memory>
        ensures { OnOk result ((d : Place) → InSheet d → mark_at self.new d
            ≡ cond (same_place cell d) mark (mark_at self.old d)) }
    {
        match place_among(self.few.as_slice(), cell) {
            Some(at) => {
                self.few[at] = Marked { cell, mark };
                Ok(())
            }
            None => self.add(cell, mark),
        }
    }

    // Marks a cell that isn't in the list.
    #[inline(always)]
    fn add(&mut self, cell: Cell, mark: u32) -> Result<(), Memory>
        requires { is_among self.old.few.items cell ≡ false }
        ensures { OnOk result ((d : Place) → InSheet d → mark_at self.new d
            ≡ cond (same_place cell d) mark (mark_at self.old d)) }
    {
        if !self.are_many && self.few.len() < FEW {
            self.few.push(Marked { cell, mark })?;
            return Ok(());
        }
        if !self.few.is_empty() {
            self.spread()?;
        }
        put_number(&mut self.table, cell, mark)
    }

    // Puts all marks into the table.
    fn spread(&mut self) -> Result<(), Memory>
        ensures few { OnOk result (self.new.few.items ≡ []) }
        ensures table { OnOk result ((d : Place) → InSheet d → number_at self.new.table d ≡ mark_at self.old d) }
    {
        if self.few.is_empty() {
            return Ok(());
        }
        put_few(&mut self.table, self.few.as_slice())?;
        self.few.truncate(0);
        self.are_many = true;
        Ok(())
    }
}
