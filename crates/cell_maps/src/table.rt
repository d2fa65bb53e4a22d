// The numbers of places.
ghost use Rattle.std.specs.Prelude.{◌≡◌, ℕ, ◌<◌, ◌≤◌, ◌+◌, ◌-◌, ◌*◌, ◌/◌, ◌%◌, ◌^◌, ◌⊎◌, suc, cond, length, get_or, vec_capacity, vec_len, IfNone, IfSome, OnOk, OnErr};
ghost use Rattle.grid_address.specs.Place.{same_place, InSheet, Place};
ghost use Rattle.cell_maps.specs.Numbers.{band_of, head_of, number_at, page_of, place_of, HasRoom};
ghost use Rattle.cell_maps.specs.inner.Numbering.{used, AreWholeBands};

use grid_address::{COLUMNS, Cell};
use std::alloc::{AllocError, Global};
use std::marker::Model;

/// How many rows a page has, and with it each band of pages that lie side by side.
pub const BAND_ROWS: u16 = 64;

/// How many columns a page has.
const PAGE_COLUMNS: u8 = 4;

/// How many pages lie side by side.
const PAGES: usize = 64;

/// How many pages the sheet has.
const MOST_PAGES: usize = 8_192;

/// How many places a page has.
pub const PLACES: usize = 256;

/// The heads of a band of pages without room.
const NO_HEADS: [u16; PAGES] = [0; PAGES];

/// The numbers of a page that has just got room.
const NO_NUMBERS: [u32; PLACES] = [0; PLACES];

/// A number for each place of the sheet; 0 stands for none. The places lie in pages of 64 rows and 4 columns. Each page
/// has a head of two bytes, as far down as the last band in which a number was set, and a page without a number takes
/// no more room than that.
#[derive(Drop)]
pub struct PlaceTable {
    heads: Vec<u16>,
    numbers: Vec<u32>,
}

impl Model for PlaceTable {
    ghost use Rattle.cell_maps.specs.Numbers.{Numbers};
    ghost use Rattle.cell_maps.specs.inner.Numbering.{AreParted};

    ghost Value = { Numbers };

    ghost view = { λ t. record { heads = t.heads.items; numbers = t.numbers.items } };

    ghost invariant = { λ t. AreParted (record { heads = t.heads.items; numbers = t.numbers.items }) };
}

// The page of a cell.
#[inline(always)]
fn page_of(cell: Cell) -> usize
    ensures { result ≡ page_of cell }
{
    usize::from(cell.row / BAND_ROWS) * PAGES + usize::from(cell.col / PAGE_COLUMNS)
}

// The place of a cell in its page.
#[inline(always)]
fn place_of(cell: Cell) -> usize
    ensures place { result ≡ place_of cell }
    ensures below { result < 256 }
{
    usize::from(cell.row % BAND_ROWS) * 4 + usize::from(cell.col % PAGE_COLUMNS)
}

// The column behind the page of a column.
#[inline(always)]
fn page_end(col: u16) -> u16
    requires { col < 256 }
    ensures { result ≡ col / 4 * 4 + 4 }
{
    col / 4 * 4 + 4
}

// Where the number of a cell stands among those of all pages, where its page is the given one of them.
#[inline(always)]
fn index_in(head: u16, cell: Cell) -> usize
    requires { 0 < head }
    ensures index { result ≡ (head - 1) * 256 + place_of cell }
    ensures below { result < head * 256 }
{
    usize::from(head - 1) * PLACES + place_of(cell)
}

// Adds the heads of further bands, as far as a page has none. At first it makes room for those of the whole sheet, so
// that none is copied again; what isn't used of that room stays untouched.
fn add_heads(heads: &mut Vec<u16>, page: usize) -> Result<(), AllocError>
    requires inside { page < MOST_PAGES }
    requires whole { AreWholeBands heads.old.items }
    ensures whole { AreWholeBands heads.new.items }
    ensures same { (j : ℕ) → get_or heads.new.items j 0 ≡ get_or heads.old.items j 0 }
    ensures used { used heads.new.items ≡ used heads.old.items }
    ensures long { OnOk result (page < length heads.new.items) }
{
    if heads.is_empty() {
        heads.reserve(MOST_PAGES)?;
    }
    while heads.len() <= page {
        heads.extend_from_slice(&NO_HEADS)?;
    }
    Ok(())
}

// Adds a page of zeros behind the others.
fn add_page(numbers: &mut Vec<u32>) -> Result<(), AllocError>
    ensures same { (j : ℕ) → get_or numbers.new.items j 0 ≡ get_or numbers.old.items j 0 }
    ensures long { OnOk result (length numbers.new.items ≡ length numbers.old.items + 256) }
    ensures err { OnErr result (numbers.new.items ≡ numbers.old.items) }
{
    numbers.extend_from_slice(&NO_NUMBERS)?;
    Ok(())
}

impl PlaceTable {
    /// A table without numbers. It takes no memory.
    pub fn new(alloc: Global) -> PlaceTable
        ensures { (d : Place) → number_at result d ≡ 0 }
    {
        PlaceTable {
            heads: Vec::new(alloc),
            numbers: Vec::new(alloc),
        }
    }

    /// Makes room for the numbers of so many pages more, as far as there is memory. No number changes.
    pub(crate) fn reserve(&mut self, pages: usize) -> Result<(), AllocError>
        ensures { self.new ≡ self.old }
    {
        self.numbers.reserve(pages.min(MOST_PAGES) * PLACES)
    }

    // Which one of the pages with room a cell's page is, 0 where it has none.
    #[inline(always)]
    fn head_of(&self, cell: Cell) -> u16
        ensures { result ≡ head_of self.now cell }
    {
        match self.heads.get(page_of(cell)) {
            Some(head) => *head,
            None => 0,
        }
    }

    /// The number of a cell.
    #[inline(always)]
    pub fn number_at(&self, cell: Cell) -> u32
        ensures { result ≡ number_at self.now cell }
    {
        match self.head_of(cell) {
            0 => 0,
            head => self.numbers[index_in(head, cell)],
        }
    }

    /// The next column from the cell's on, before the end, in which its row has a number. Where none is left, it is one
    /// from the end on, up to 256, or the cell's own column where that lies behind the end.
    pub fn next_column(&self, cell: Cell, end: u16) -> u16
        requires { end ≤ COLUMNS }
        ensures within { (cell.col ≤ result) × (result ≤ COLUMNS) }
        ensures none { (d : Place) → InSheet d → d.row ≡ cell.row → cell.col ≤ d.col → d.col < result →
            number_at self.now d ≡ 0 }
    {
        let mut col = u16::from(cell.col);
        while col < end {
            let place = Cell {
                row: cell.row,
                col: col as u8,
            };
            if self.head_of(place) == 0 {
                col = page_end(col);
            } else if self.number_at(place) == 0 {
                col += 1;
            } else {
                return col;
            }
        }
        col
    }

    /// A column from the cell's on, up to 256, before which no place of the cell's band of 64 rows has a number, from
    /// the cell's own column on. It is the cell's own where its page has room, or the first of a page that has. Where
    /// there is none before the end, it is one from the end on, or the cell's own where that lies behind the end.
    pub fn next_page(&self, cell: Cell, end: u16) -> u16
        requires { end ≤ COLUMNS }
        ensures within { (cell.col ≤ result) × (result ≤ COLUMNS) }
        ensures none { (d : Place) → InSheet d → band_of d ≡ band_of cell → cell.col ≤ d.col → d.col < result →
            number_at self.now d ≡ 0 }
    {
        let mut col = u16::from(cell.col);
        while col < end {
            let here = Cell {
                row: cell.row,
                col: col as u8,
            };
            if self.head_of(here) != 0 {
                return col;
            }
            col = page_end(col);
        }
        col
    }

    /// A column, up to 256, from which on no place of the cell's band of 64 rows has a number.
    pub fn band_end(&self, cell: Cell) -> u16
        ensures within { result ≤ COLUMNS }
        ensures none { (d : Place) → InSheet d → band_of d ≡ band_of cell → result ≤ d.col → number_at self.now d ≡ 0 }
    {
        let mut end = COLUMNS;
        while end > 0 {
            let place = Cell {
                row: cell.row,
                col: (end - 4) as u8,
            };
            if self.head_of(place) != 0 {
                return end;
            }
            end -= 4;
        }
        end
    }

    // Adds room for the number of a cell whose page has none.
    #[inline(always)]
    fn add_room(&mut self, cell: Cell) -> Result<(), AllocError>
        requires { head_of self.old cell ≡ 0 }
        ensures same { (d : Place) → number_at self.new d ≡ number_at self.old d }
        ensures room { OnOk result (HasRoom self.new cell) }
    {
        cell.is_on_sheet();
        let page = page_of(cell);
        let pages = self.numbers.len() / PLACES;
        add_heads(&mut self.heads, page)?;
        add_page(&mut self.numbers)?;
        self.heads[page] = pages as u16 + 1;
        Ok(())
    }

    /// Makes room for the number of a cell. No number changes.
    #[inline(always)]
    pub fn make_room(&mut self, cell: Cell) -> Result<(), AllocError>
        ensures same { (d : Place) → number_at self.new d ≡ number_at self.old d }
        ensures room { OnOk result (HasRoom self.new cell) }
    {
        if self.head_of(cell) != 0 {
            return Ok(());
        }
        self.add_room(cell)
    }

    /// Sets the number of a cell that has room for it.
    pub fn set(&mut self, cell: Cell, number: u32)
        requires { HasRoom self.old cell }
        ensures { (d : Place) → InSheet d →
            number_at self.new d ≡ cond (same_place cell d) number (number_at self.old d) }
    {
        cell.is_on_sheet();
        let at = index_in(self.head_of(cell), cell);
        self.numbers[at] = number;
    }

    /// Gives a cell the number behind those of a list, the first of which is one above those that are gone, unless its
    /// own is above them, and tells its own; none where its page or the list has no room.
    #[inline(always)]
    pub(crate) fn put_behind<T>(&mut self, cell: Cell, gone: u32, items: &Vec<T>) -> Option<u32>
        requires { gone + length items.now.items < 2 ^ 32 - 1 }
        ensures none { IfNone result (self.new ≡ self.old) }
        ensures room { IfSome result (λ had. vec_len items.now < vec_capacity items.now) }
        ensures had { IfSome result (λ had. had ≡ number_at self.old cell) }
        ensures same { IfSome result (λ had. gone < had → self.new ≡ self.old) }
        ensures set { IfSome result (λ had. had ≤ gone → (d : Place) → InSheet d → number_at self.new d
            ≡ cond (same_place cell d) (suc (gone + length items.now.items)) (number_at self.old d)) }
    {
        cell.is_on_sheet();
        if items.len() >= items.capacity() {
            return None;
        }
        let head = self.head_of(cell);
        if head == 0 {
            return None;
        }
        let at = index_in(head, cell);
        let had = self.numbers[at];
        if had <= gone {
            self.numbers[at] = gone + items.len() as u32 + 1;
        }
        Some(had)
    }
}
