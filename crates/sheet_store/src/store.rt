// The cells of a sheet.
ghost use Rattle.std.specs.Prelude.{length, ◌≡◌, ◌≤◌, ◌<◌, ◌++◌, ◌∷◌, [], OnOk, OnErr, IfOk, IfSome, IfNone, Some, None, option_copied, replicate, true, false};
ghost use Rattle.std.specs.Option.{ForSome};
ghost use Rattle.std.specs.FinMap as map;
ghost use Rattle.cell_maps.specs.Filled.{cell_in, filled, item_in, with_item};
ghost use Rattle.grid_address.specs.Place.{is_within, place_cmp, InSheet, Place};
ghost use Rattle.cell_maps.specs.Numbers.{band_of};
ghost use Rattle.formula_parts.specs.declared.items.Item.TheVariants as item;
ghost use Rattle.formula_parts.specs.Lists.{in_range};
ghost use Rattle.formula_parts.specs.inner.Kept.{IsKept};
ghost use Rattle.sheet_store.specs.inner.Copies.{inserted_all};
ghost use Rattle.sheet_store.specs.Grid.{any_state, cells_within, clear_cell, formatted, formulas, formulas_within, further, holds_formula, is_hidden, last_among, last_used, picked, put_state, set_format_of, set_hidden_of, set_value_at, set_width_of, value_at, value_in, width_of, AreHeld, Cells, HasFormula, IsSound};
ghost use Rattle.sheet_store.specs.inner.Contents.{HasContent, IsBlankAt};
ghost use Rattle.sheet_store.specs.inner.Keeping.{AlwaysHolds, GoesOn, GoesOnWith};

use crate::CellState;
use crate::held_order::held_from;
use crate::own_width::{MOST_WIDTH, OwnWidth};
use crate::scan::scan;
use cell_maps::{BAND_ROWS, CellMap, Held};
use fixed_value::Fixed;
use formula_parts::Kept;
use formula_tree::{Value, ValueRef};
use grid_address::{Cell, CellList, Format, Span};
use lics_text::Memory;
use std::alloc::Global;
use std::marker::Model;

/// A finite map from cells to states, and each column's own width and whether it is hidden. A blank cell in the
/// default format isn't in the map, each value is one that its content may have, and an own width is 1 to 240.
#[derive(Drop)]
pub struct Store {
    cells: CellMap<CellState>,
    widths: [OwnWidth; 256],
    hidden: [bool; 256],
    alloc: Global,
    // What evaluations found of the values as they stand.
    kept: Kept,
}

impl Model for Store {
    ghost use Rattle.formula_tree.specs.contracts.formula.Formula as formula;
    ghost use Rattle.std.specs.Coded.{codes};
    ghost use Rattle.std.specs.FinMap as map;
    ghost use Rattle.sheet_store.specs.Grid.{Grid};
    ghost use Rattle.sheet_store.specs.inner.Keeping.{Keeps};

    ghost Value = { Grid };

    ghost coded = { Prim.hlevel (codes, map.code, formula.the_row.coded) };

    ghost view = { λ a. record { cells = a.cells; widths = a.widths; hidden = a.hidden } };

    ghost invariant = { λ a. Keeps a.cells a.kept };
}

impl Store {
    /// An empty store.
    pub fn new(alloc: Global) -> Store
        ensures cells { result.cells ≡ map.empty }
        ensures widths { result.widths ≡ replicate 256 0 }
        ensures hidden { result.hidden ≡ replicate 256 false }
    {
        Store {
            cells: CellMap::new(alloc),
            widths: [OwnWidth::NONE; 256],
            hidden: [false; 256],
            alloc,
            kept: Kept::new(),
        }
    }

    /// Makes room for the states of so many cells more, also where they are scattered, as far as there is memory. The
    /// store stays as it was.
    pub fn reserve(&mut self, cells: usize) -> Result<(), Memory>
        ensures { self.new ≡ self.old }
    {
        self.cells.reserve_anywhere(cells)?;
        Ok(())
    }

    /// The memory that the store is in.
    pub fn alloc(&self) -> Global {
        self.alloc
    }

    /// What a store keeps of each of its cells. It does nothing, and is called for its clause.
    pub fn are_held(&self)
        ensures { AreHeld self.now.cells }
    {
        let _cells = &self.cells;
    }

    /// A store keeps a width and a mark for each of the 256 columns. It does nothing, and is called for its clauses.
    pub fn are_columns(&self)
        ensures widths { length self.now.widths ≡ 256 }
        ensures hidden { length self.now.hidden ≡ 256 }
    {
        are_own(&self.widths);
        are_marks(&self.hidden);
    }

    // A column from the cell's on before which no cell of its row has a state, from its own column on. It is one that
    // may have a state, and else one from the end on, up to 256, or the cell's own column where that lies behind the
    // end.
    pub(crate) fn next_column(&self, cell: Cell, end: u16) -> u16
        requires { end ≤ 256 }
        ensures within { (cell.col ≤ result) × (result ≤ 256) }
        ensures none { (c : Place) → InSheet c → c.row ≡ cell.row → cell.col ≤ c.col → c.col < result →
            map.get self.now.cells c ≡ None }
    {
        self.cells.next_column(cell, end)
    }

    // A column from the cell's on, up to 256, before which no cell of its band of 64 rows has a state, from its own
    // column on. It is one of a page that may have one, and else one from the end on, or the cell's own column where
    // that lies behind the end.
    fn next_page(&self, cell: Cell, end: u16) -> u16
        requires { end ≤ 256 }
        ensures within { (cell.col ≤ result) × (result ≤ 256) }
        ensures none { (c : Place) → InSheet c → band_of c ≡ band_of cell → cell.col ≤ c.col → c.col < result →
            map.get self.now.cells c ≡ None }
    {
        self.cells.next_page(cell, end)
    }

    // A column, up to 256, from which on no cell of the cell's band of 64 rows has a state.
    pub(crate) fn band_end(&self, cell: Cell) -> u16
        ensures within { result ≤ 256 }
        ensures none { (c : Place) → InSheet c → band_of c ≡ band_of cell → result ≤ c.col →
            map.get self.now.cells c ≡ None }
    {
        self.cells.band_end(cell)
    }

    // The cells that are held, in the order in which they came in.
    pub(crate) fn held(&self) -> &[Held<CellState>]
        ensures { map.from_entries (filled result.now) ≡ self.now.cells }
    {
        self.cells.held()
    }

    /// Whether no cell of a span has a state, as far as one look at each of its bands tells: it is false where some may
    /// have one.
    pub fn is_unused(&self, span: Span) -> bool
        ensures { result ≡ true → (c : Place) → is_within span c ≡ true → map.get self.now.cells c ≡ None }
    {
        span.last.is_on_sheet();
        let end = u16::from(span.last.col) + 1;
        let mut row = span.first.row;
        while row <= span.last.row {
            let place = Cell {
                row,
                col: span.first.col,
            };
            if self.next_page(place, end) < end {
                return false;
            }
            row = row / BAND_ROWS * BAND_ROWS + BAND_ROWS;
        }
        true
    }

    /// How many cells ever had a state, none of which is more than once among them. No clause tells it.
    pub fn held_count(&self) -> usize {
        self.cells.held().len()
    }

    /// The state of a cell.
    #[inline(always)]
    pub fn get(&self, cell: Cell) -> Option<&CellState>
        ensures { option_copied result ≡ map.get self.now.cells cell }
    {
        self.cells.get(cell)
    }

    /// Takes a cell out.
    pub fn clear(&mut self, cell: Cell)
        ensures { self.new ≡ clear_cell self.old cell }
    {
        self.kept.forget(cell);
        self.cells.remove(cell);
    }

    /// Puts a state whose value its content may have. One that is blank in the default format takes the cell out. Only
    /// a cell that isn't in the map can find no memory, so that an edit can put its new cells first, and takes them out
    /// by `clear` where a later one finds none.
    #[inline(always)]
    pub fn put(&mut self, cell: Cell, state: CellState) -> Result<(), Memory>
        requires { IsSound state }
        ensures ok { OnOk result (self.new ≡ put_state self.old cell state) }
        ensures err { OnErr result (self.new ≡ self.old) }
        ensures absent { OnErr result (map.get self.old.cells cell ≡ None) }
    {
        cell.is_on_sheet();
        if !state.is_kept() {
            self.kept.forget(cell);
            self.cells.remove(cell);
            return Ok(());
        }
        tell(&mut self.kept, &self.cells, cell, &state);
        let Ok(()) = self.cells.insert(cell, state) else {
            let_all_go(&mut self.kept);
            return Err(Memory);
        };
        Ok(())
    }

    /// Hands out what evaluations found of the values, for those that go on. Until it is given back, nothing is kept.
    #[inline(always)]
    pub fn take_kept(&mut self) -> Kept
        ensures kept { IsKept result (value_at self.old) }
        ensures same { self.new ≡ self.old }
    {
        if self.kept.is_nothing() {
            return Kept::new();
        }
        self.hand_out()
    }

    // The same where something is kept, out of line.
    #[inline(never)]
    fn hand_out(&mut self) -> Kept
        ensures kept { IsKept result (value_at self.old) }
        ensures same { self.new ≡ self.old }
    {
        let kept = self.kept;
        self.kept = Kept::new();
        kept
    }

    /// Takes back what evaluations found of the values as they stand.
    #[inline(always)]
    pub fn give_kept(&mut self, kept: Kept)
        requires { IsKept kept (value_at self.old) }
        ensures { self.new ≡ self.old }
    {
        if kept.is_nothing() {
            return;
        }
        self.kept = kept;
    }

    /// The used cells of the span, in row order.
    pub fn cells_in(&self, span: Span) -> Result<CellList, Memory>
        ensures { IfOk result (λ l. l ≡ cells_within self.now span) }
    {
        let list = scan(self.alloc, &self.cells, span, false)?;
        Ok(list)
    }

    /// The formulas of the span, in row order.
    pub fn formulas_in(&self, span: Span) -> Result<CellList, Memory>
        ensures { IfOk result (λ l. l ≡ formulas_within self.now span) }
    {
        let list = scan(self.alloc, &self.cells, span, true)?;
        Ok(list)
    }

    /// Every formula, in row order.
    pub fn formulas(&self) -> Result<CellList, Memory>
        ensures { IfOk result (λ l. l ≡ formulas self.now) }
    {
        self.are_held();
        let list = self.formulas_in(Span::whole())?;
        Ok(list)
    }

    /// The last row and the last column that hold a used cell, as one cell; none exactly where there is none.
    pub fn last_used(&self) -> Option<Cell>
        ensures { result ≡ last_used self.now }
    {
        last_of(self.cells.held())
    }

    /// A column's own width, where it has one.
    pub fn width(&self, col: u8) -> Option<u8>
        ensures width { result ≡ width_of self.now col }
        ensures within { ForSome result (λ n. (1 ≤ n) × (n ≤ MOST_WIDTH)) }
    {
        self.widths[usize::from(col)].told()
    }

    /// Gives a column a width of its own, or takes it away.
    pub fn set_width(&mut self, col: u8, width: Option<u8>)
        requires { ForSome width (λ n. (1 ≤ n) × (n ≤ MOST_WIDTH)) }
        ensures { self.new ≡ set_width_of self.old col width }
    {
        self.widths[usize::from(col)] = OwnWidth::of(width);
    }

    /// Whether a column is hidden.
    pub fn is_hidden(&self, col: u8) -> bool
        ensures { result ≡ is_hidden self.now col }
    {
        self.hidden[usize::from(col)]
    }

    /// Hides a column, or shows it.
    pub fn set_hidden(&mut self, col: u8, hidden: bool)
        ensures { self.new ≡ set_hidden_of self.old col hidden }
    {
        self.hidden[usize::from(col)] = hidden;
    }

    /// An equal store.
    pub fn copy(&self) -> Result<Store, Memory>
        ensures { IfOk result (λ s. s ≡ self.now) }
    {
        let cells = copy_cells(self.alloc, &self.cells)?;
        Ok(Store {
            cells,
            widths: self.widths,
            hidden: self.hidden,
            alloc: self.alloc,
            kept: Kept::new(),
        })
    }

    /// Sets the format of a cell. A blank cell that gets the default format is taken out.
    pub fn set_format(&mut self, cell: Cell, format: Format) -> Result<(), Memory>
        ensures ok { OnOk result (self.new ≡ set_format_of self.old cell format) }
        ensures err { OnErr result (self.new ≡ self.old) }
    {
        if self.is_blank(cell) {
            self.put(cell, CellState::blank(format))
        } else {
            self.write_format(cell, format);
            Ok(())
        }
    }

    // Whether a cell has no content.
    fn is_blank(&self, cell: Cell) -> bool
        ensures blank { result ≡ true → IsBlankAt self.now cell }
        ensures filled { result ≡ false → HasContent self.now cell }
    {
        match self.cells.get(cell) {
            Some(state) => state.is_blank(),
            None => true,
        }
    }

    // Sets the format of a cell that has a content.
    fn write_format(&mut self, cell: Cell, format: Format)
        requires { HasContent self.old cell }
        ensures { self.new ≡ set_format_of self.old cell format }
    {
        self.kept.forget(cell);
        match self.cells.get_mut(cell) {
            Some(state) => state.set_format(format),
            None => {}
        }
    }

    /// Sets the value of a formula. It takes no memory.
    #[inline(always)]
    pub fn set_value(&mut self, cell: Cell, value: Value)
        requires formula { HasFormula self.old cell }
        requires some { value ≡ Value.Blank → ⊥ }
        ensures { self.new ≡ set_value_at self.old cell value }
    {
        match self.cells.get_mut(cell) {
            Some(state) => state.set_value(value),
            None => let_go(value),
        }
        self.kept.forget(cell);
    }
}

// There are 256 of them. Nothing is done here, and below.
fn are_own(widths: &[OwnWidth; 256])
    ensures { length widths.now ≡ 256 }
{
    let _first = widths[0];
}

// So are there of the marks.
fn are_marks(hidden: &[bool; 256])
    ensures { length hidden.now ≡ 256 }
{
    let _first = hidden[0];
}

// Tells what is kept that a cell takes a state. Where nothing is kept, that is a test alone.
#[inline(always)]
fn tell(kept: &mut Kept, cells: &CellMap<CellState>, cell: Cell, state: &CellState)
    ensures { GoesOn kept.old kept.new cells.now cell state.now.value }
{
    if kept.is_nothing() {
        return;
    }
    match counted(state) {
        Some(number) => tell_number(kept, cells, cell, number),
        None => tell_other(kept, cell),
    }
}

// The same where something is kept, of a state that counts for a number.
#[inline(never)]
fn tell_number(kept: &mut Kept, cells: &CellMap<CellState>, cell: Cell, number: Fixed)
    ensures { GoesOnWith kept.old kept.new cells.now cell number }
{
    if !kept.hangs_on(cell) {
        return;
    }
    if !is_blank_in(cells, cell) {
        let_all_go(kept);
        return;
    }
    kept.fill(cell, number);
}

// The same of a state with whatever value.
#[inline(never)]
fn tell_other(kept: &mut Kept, cell: Cell)
    ensures { (cells : Cells) (value : Value) → GoesOn kept.old kept.new cells cell value }
{
    if !kept.hangs_on(cell) {
        return;
    }
    let_all_go(kept);
}

// Keeps nothing any more.
#[inline(never)]
fn let_all_go(kept: &mut Kept)
    ensures { AlwaysHolds kept.new }
{
    *kept = Kept::new();
}

// Whether a cell has the blank value.
fn is_blank_in(cells: &CellMap<CellState>, cell: Cell) -> bool
    ensures { result ≡ true → value_in cells.now cell ≡ Value.Blank }
{
    match cells.get(cell) {
        Some(state) => match state.value() {
            ValueRef::Blank => true,
            ValueRef::Num(_) | ValueRef::Str(_) | ValueRef::Err | ValueRef::Na => false,
        },
        None => true,
    }
}

// The number that a state counts for in a range, where it counts for one.
#[inline(always)]
fn counted(state: &CellState) -> Option<Fixed>
    ensures { IfSome result (λ n. in_range state.now.value ≡ item.Is n ∷ []) }
{
    match state.value() {
        ValueRef::Num(number) => Some(number),
        ValueRef::Str(_) => Some(Fixed::ZERO),
        ValueRef::Blank | ValueRef::Err | ValueRef::Na => None,
    }
}

// Drops a value.
fn let_go(_value: Value) {}

// The last row and the last column of two cells.
#[inline(always)]
fn further(last: Cell, cell: Cell) -> Cell
    ensures { further (Some last) cell ≡ Some result }
{
    Cell {
        row: last.row.max(cell.row),
        col: last.col.max(cell.col),
    }
}

// The same for a cell that has a state.
#[inline(always)]
fn further_held(last: Cell, held: &Held<CellState>) -> Cell
    ensures { last_among (Some last) (with_item (cell_in held.now) (item_in held.now) []) ≡ Some result }
{
    match held {
        Held::Filled(cell, _) => further(last, *cell),
        Held::Erased(_) => last,
    }
}

// The last row and the last column among the held cells.
fn last_of(held: &[Held<CellState>]) -> Option<Cell>
    ensures { result ≡ last_among None (filled held.now) }
{
    let Some(first) = held_from(held, 0) else {
        return None;
    };
    let mut last = first.0;
    let mut at = first.2;
    while at < held.len() {
        last = further_held(last, &held[at]);
        at += 1;
    }
    Some(last)
}

// Puts an equal state of a held cell into a map.
fn copy_held(
    alloc: Global,
    cells: &mut CellMap<CellState>,
    held: &Held<CellState>,
) -> Result<(), Memory>
    ensures { OnOk result (cells.new ≡ inserted_all cells.old (with_item (cell_in held.now) (item_in held.now) [])) }
{
    match held {
        Held::Filled(cell, state) => cells.insert(*cell, state.copy(alloc)?)?,
        Held::Erased(_) => {}
    }
    Ok(())
}

// An equal map.
fn copy_cells(alloc: Global, cells: &CellMap<CellState>) -> Result<CellMap<CellState>, Memory>
    ensures { IfOk result (λ m. m ≡ cells.now) }
{
    let mut copy = CellMap::new(alloc);
    for held in cells.held() {
        copy_held(alloc, &mut copy, held)?;
    }
    Ok(copy)
}
