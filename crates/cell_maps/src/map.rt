// Maps from cells to items.
ghost use Rattle.std.specs.Prelude.{◌≡◌, ◌<◌, ◌≤◌, ◌-◌, ◌^◌, suc, ℕ, cond, length, vec_capacity, vec_len, Some, None, option_copied, IfSome, IfNone, IfOk, OnOk, OnErr};
ghost use Rattle.std.specs.Option.{option_copied_mut};
ghost use Rattle.std.specs.Borrow.{sem};
ghost use Rattle.std.specs.FinMap as map;
ghost use Rattle.grid_address.specs.Place.{same_place, InSheet, Place};
ghost use Rattle.cell_maps.specs.Numbers.{band_of, number_at};
ghost use Rattle.cell_maps.specs.inner.Numbering.{IsGiven, IsUngiven};

use crate::table::{BAND_ROWS, PLACES};
use crate::{Held, PlaceTable};
use grid_address::{COLUMNS, Cell};
use std::alloc::{AllocError, Global};
use std::marker::Model;
use std::mem::replace;

/// For how many pages more than full ones there is room where cells may stand anywhere.
const SPARE_PAGES: usize = 256;

/// A finite map from cells to items. Each cell that was ever put in keeps a number, and an item is found by its cell's
/// number, so that only a cell that is put in for the first time takes memory.
#[derive(Drop)]
pub struct CellMap<T> {
    table: PlaceTable,
    held: Vec<Held<T>>,
}

impl<T> Model for CellMap<T> {
    ghost use Rattle.std.specs.FinMap as map;
    ghost use Rattle.std.specs.FinMap.{FinMap};
    ghost use Rattle.grid_address.specs.contracts.cell.Cell as place;
    ghost use Rattle.grid_address.specs.Place.{place_cmp};

    ghost Value = { FinMap place_cmp T };

    ghost coded = { map.code (place.the_row).coded T.code };

    ghost use Rattle.cell_maps.specs.Filled.{cells_of, filled};
    ghost use Rattle.cell_maps.specs.inner.Numbering.{AreNumbered};

    ghost view = { λ m. map.from_entries (filled m.held.items) };

    ghost invariant = { λ m. AreNumbered m.table (cells_of m.held.items) };
}

// Where a cell is held, if it has a number.
#[inline(always)]
pub(crate) fn index_of(table: &PlaceTable, cell: Cell) -> Option<usize>
    ensures none { IfNone result (number_at table.now cell ≡ 0) }
    ensures some { IfSome result (λ i. number_at table.now cell ≡ suc i) }
{
    match table.number_at(cell) {
        0 => None,
        number => Some(number as usize - 1),
    }
}

// Gives a cell that has none the number behind those of the others, and makes room for its item, by a call of its own:
// for a table or a list that may have to grow.
#[inline(never)]
fn number_apart<T>(
    table: &mut PlaceTable,
    held: &mut Vec<Held<T>>,
    cell: Cell,
) -> Result<(), AllocError>
    requires few { length held.old.items < 2 ^ 32 - 1 }
    ensures items { held.new.items ≡ held.old.items }
    ensures room { OnOk result (vec_len held.new < vec_capacity held.new) }
    ensures numbers { OnOk result ((d : Place) → InSheet d → number_at table.new d
        ≡ cond (same_place cell d) (suc (length held.old.items)) (number_at table.old d)) }
    ensures err { OnErr result ((d : Place) → number_at table.new d ≡ number_at table.old d) }
{
    table.make_room(cell)?;
    held.reserve(1)?;
    table.set(cell, held.len() as u32 + 1);
    Ok(())
}

// Gives a cell the number behind those of the others, as far as it has none, and tells the one that it had. The list
// has room for the item of a cell that had none. Where there is room, which is nearly always, it makes no call.
#[inline(always)]
fn number_for<T>(
    table: &mut PlaceTable,
    held: &mut Vec<Held<T>>,
    cell: Cell,
) -> Result<u32, AllocError>
    requires { length held.old.items < 2 ^ 32 - 1 }
    ensures items { held.new.items ≡ held.old.items }
    ensures given { IfOk result (λ had. IsGiven table.old (length held.old.items) cell had table.new) }
    ensures room { IfOk result (λ had. had ≡ 0 → vec_len held.new < vec_capacity held.new) }
    ensures err { OnErr result (IsUngiven table.old cell table.new) }
{
    if let Some(had) = table.put_behind(cell, 0, held) {
        return Ok(had);
    }
    let had = table.number_at(cell);
    if had == 0 {
        number_apart(table, held, cell)?;
    }
    Ok(had)
}

impl<T> CellMap<T> {
    ghost use Rattle.cell_maps.specs.Filled.{cells_of, filled, AreOnce};
    ghost use Rattle.cell_maps.specs.MapLends.{lends_get};

    /// An empty map. It takes no memory.
    pub fn new(alloc: Global) -> CellMap<T>
        ensures { result ≡ map.empty }
    {
        CellMap {
            table: PlaceTable::new(alloc),
            held: Vec::new(alloc),
        }
    }

    /// Makes room for so many cells more, as far as there is memory, and for their numbers where they stand in one
    /// column. The map stays as it was.
    pub fn reserve(&mut self, more: usize) -> Result<(), AllocError>
        ensures { self.new ≡ self.old }
    {
        self.table.reserve(more / usize::from(BAND_ROWS) + 1)?;
        self.held.reserve(more)
    }

    /// Makes room for so many cells more, as far as there is memory, and for their numbers where they stand in up to
    /// 256 pages more than they fill. The map stays as it was.
    pub fn reserve_anywhere(&mut self, more: usize) -> Result<(), AllocError>
        ensures { self.new ≡ self.old }
    {
        self.table.reserve(more.min(more / PLACES + SPARE_PAGES))?;
        self.held.reserve(more)
    }

    /// The item of a cell.
    #[inline(always)]
    pub fn get(&self, cell: Cell) -> Option<&T>
        ensures { option_copied result ≡ map.get self.now cell }
    {
        cell.is_on_sheet();
        match index_of(&self.table, cell) {
            Some(at) => match &self.held[at] {
                Held::Filled(_, item) => Some(item),
                Held::Erased(_) => None,
            },
            None => None,
        }
    }

    /// A column from the cell's on before which no cell of its row has an item, from its own column on. It is one that
    /// may have an item, and else one from the end on, up to 256, or the cell's own column where that lies behind the
    /// end.
    pub fn next_column(&self, cell: Cell, end: u16) -> u16
        requires { end ≤ COLUMNS }
        ensures within { (cell.col ≤ result) × (result ≤ COLUMNS) }
        ensures none { (c : Place) → InSheet c → c.row ≡ cell.row → cell.col ≤ c.col → c.col < result →
            map.get self.now c ≡ None }
    {
        self.table.next_column(cell, end)
    }

    /// A column from the cell's on, up to 256, before which no cell of its band of 64 rows has an item, from its own
    /// column on. It is one of a page that may have an item, and else one from the end on, or the cell's own column
    /// where that lies behind the end.
    pub fn next_page(&self, cell: Cell, end: u16) -> u16
        requires { end ≤ COLUMNS }
        ensures within { (cell.col ≤ result) × (result ≤ COLUMNS) }
        ensures none { (c : Place) → InSheet c → band_of c ≡ band_of cell → cell.col ≤ c.col → c.col < result →
            map.get self.now c ≡ None }
    {
        self.table.next_page(cell, end)
    }

    /// A column, up to 256, from which on no cell of the cell's band of 64 rows has an item.
    pub fn band_end(&self, cell: Cell) -> u16
        ensures within { result ≤ COLUMNS }
        ensures none { (c : Place) → InSheet c → band_of c ≡ band_of cell → result ≤ c.col → map.get self.now c ≡ None }
    {
        self.table.band_end(cell)
    }

    /// The item of a cell, to be changed in place.
    #[inline(always)]
    pub fn get_mut(&mut self, cell: Cell) -> Option<&mut T>
        ensures* writes_back { sem 𝓛 (lends_get T.row self.entry cell result) }
        ensures value { option_copied_mut result ≡ map.get self.old cell }
    {
        cell.is_on_sheet();
        match index_of(&self.table, cell) {
            Some(at) => self.held[at].item_mut(),
            None => None,
        }
    }

    /// Gives a cell an item in place of the one that it has. Only a cell that was never put in can find no memory.
    #[inline(always)]
    pub fn insert(&mut self, cell: Cell, item: T) -> Result<(), AllocError>
    where
        T: Drop,
        ensures ok { OnOk result (self.new ≡ map.insert self.old cell item) }
        ensures err { OnErr result (self.new ≡ self.old) }
        ensures absent { OnErr result (map.get self.old cell ≡ None) }
    {
        cell.is_on_sheet();
        let had = number_for(&mut self.table, &mut self.held, cell)?;
        if had == 0 {
            self.held.push_reserved(Held::Filled(cell, item));
        } else {
            self.held[had as usize - 1] = Held::Filled(cell, item);
        }
        Ok(())
    }

    /// Takes a cell's item out. The cell keeps its number.
    pub fn remove(&mut self, cell: Cell)
    where
        T: Drop,
        ensures { self.new ≡ map.remove self.old cell }
    {
        cell.is_on_sheet();
        if let Some(at) = index_of(&self.table, cell) {
            self.held[at] = Held::Erased(cell);
        }
    }

    /// Takes a cell's item out, and gives it to the caller; none where the cell has none. The cell keeps its number.
    pub fn take(&mut self, cell: Cell) -> Option<T>
    where
        T: Drop,
        ensures item { result ≡ map.get self.old cell }
        ensures rest { self.new ≡ map.remove self.old cell }
    {
        cell.is_on_sheet();
        match index_of(&self.table, cell) {
            Some(at) => replace(&mut self.held[at], Held::Erased(cell)).into_item(),
            None => None,
        }
    }

    /// The cells that have numbers, in the order in which they got them, each once.
    pub fn held(&self) -> &[Held<T>]
        ensures items { map.from_entries (filled result.now) ≡ self.now }
        ensures once { AreOnce (cells_of result.now) }
    {
        self.held.as_slice()
    }
}
