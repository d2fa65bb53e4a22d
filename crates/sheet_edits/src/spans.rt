// What the cells of a span, of a copy or of a list of writes are given.
ghost use Rattle.std.specs.Prelude.{◌≡◌, ◌≤◌, ◌<◌, ◌+◌, ◌-◌, ◌%◌, ◌&&◌, ◌||◌, [], length, IfOk, IfSome, IfNone, OnOk, None, Some, nat_eq, nat_le, false, true};
ghost use Rattle.std.specs.FinMap as map;
ghost use Rattle.grid_address.specs.Place.{is_within, same_place, Place};
ghost use Rattle.cell_maps.specs.Sets.{has};
ghost use Rattle.recalculation.specs.Context.{format_of};
ghost use Rattle.sheet_store.specs.Grid.{AreHeld};
ghost use Rattle.sheet_store.specs.Choices.{Choices};
ghost use Rattle.sheet_edits.specs.Spans.{blanked, block_at, copied_state, reformatted_state, repeated, rule_of, sooner, source_of, target_of, AreGiven, AreSound, HasCode, IsFirstProtected, NoneProtected};
ghost use Rattle.sheet_edits.specs.inner.Lines.{in_columns, in_rows};
ghost use Rattle.sheet_edits.specs.inner.Marks.{IsFirstMarked, NoneMarked};
ghost use Rattle.sheet_edits.specs.inner.Putting.{given_at};

use crate::changes::Changes;
use crate::states::{first_state, is_marked};
use grid_address::{Cell, CellList, Format, ROWS, Span};
use lics_text::Memory;
use recalculation::format_of;
use sheet_store::{CellState, Settings, Store};
use std::alloc::Global;

// The columns of the sheet.
const COLUMNS: u16 = 256;

/// The cell at the top left of a span.
pub fn first_of(span: Span) -> Cell
    ensures { result ≡ span.first }
{
    span.first
}

// As many cells of a row, from a column on.
fn put_row(cells: &mut CellList, row: u16, first: u8, count: u16) -> Result<(), Memory>
    requires row { row < ROWS }
    requires count { first + count ≤ COLUMNS }
    ensures { OnOk result
        ((c : Place) → has same_place cells.new c
        ≡ (has same_place cells.old c || (nat_eq c.row row && in_columns first count c))) }
{
    for place in 0..count {
        let col = (u16::from(first) + place) as u8;
        cells.push(Cell { row, col })?;
    }
    Ok(())
}

// As many rows of as many cells, from a cell on.
fn put_rows(cells: &mut CellList, row: u16, col: u8, rows: u16, cols: u16) -> Result<(), Memory>
    requires empty { cells.old ≡ [] }
    requires rows { row + rows ≤ ROWS }
    requires cols { col + cols ≤ COLUMNS }
    ensures { OnOk result ((c : Place) → has same_place cells.new c ≡ (in_rows row rows c && in_columns col cols c)) }
{
    for place in 0..rows {
        put_row(cells, row + place, col, cols)?;
    }
    Ok(())
}

/// The cells of a span, row by row.
pub fn cells_of(alloc: Global, span: Span) -> Result<CellList, Memory>
    ensures { IfOk result (λ l. (c : Place) → has same_place l c ≡ is_within span c) }
{
    let first = first_of(span);
    let mut cells = CellList::new(alloc);
    put_rows(
        &mut cells,
        first.row,
        first.col,
        span.height(),
        span.width(),
    )?;
    Ok(cells)
}

// The first of two protected cells, in row order.
fn sooner(store: &Store, first: Option<Cell>, cell: Cell) -> Option<Cell>
    ensures { result ≡ sooner store.now first cell }
{
    if !is_marked(store, cell) {
        return first;
    }
    match first {
        Some(other) if other <= cell => Some(other),
        Some(_) | None => Some(cell),
    }
}

// The first of the cells, in row order, whose protection mark is set.
fn first_marked(store: &Store, cells: &[Cell]) -> Option<Cell>
    ensures some { IfSome result (λ c. IsFirstMarked store.now (has same_place cells.now) c) }
    ensures none { IfNone result (NoneMarked store.now (has same_place cells.now)) }
{
    let mut first = None;
    for cell in cells {
        first = sooner(store, first, *cell);
    }
    first
}

/// The first of the cells that is protected, where protection is on.
pub fn refusing(store: &Store, settings: &Settings, cells: &[Cell]) -> Option<Cell>
    ensures some { IfSome result (λ c. IsFirstProtected settings.now store.now (has same_place cells.now) c) }
    ensures none { IfNone result (NoneProtected settings.now store.now (has same_place cells.now)) }
{
    if settings.protection {
        first_marked(store, cells)
    } else {
        None
    }
}

// A cell that is there becomes blank in its format.
fn erase_at(changes: &mut Changes, store: &Store, cell: Cell) -> Result<(), Memory>
    ensures { OnOk result (changes.new ≡ given_at changes.old cell (blanked (map.get store.now.cells cell))) }
{
    match store.get(cell) {
        Some(state) => changes.set(cell, CellState::blank(state.format())),
        None => Ok(()),
    }
}

/// Blank states for the cells that are there.
pub fn erased(store: &Store, cells: &[Cell]) -> Result<Changes, Memory>
    ensures given { IfOk result
        (λ m. AreGiven m (has same_place cells.now) (λ c. blanked (map.get store.now.cells c))) }
    ensures sound { IfOk result AreSound }
{
    let mut changes = Changes::new(store.alloc());
    for cell in cells {
        erase_at(&mut changes, store, *cell)?;
    }
    Ok(changes)
}

// A copy of a state with its first value; what isn't there is blank.
fn copied_state(store: &Store, cell: Cell) -> Result<CellState, Memory>
    ensures { IfOk result (λ s. s ≡ copied_state (map.get store.now.cells cell)) }
{
    match store.get(cell) {
        Some(state) => first_state(store.alloc(), state.copied_content()?, state.format()),
        None => Ok(CellState::blank(Format::DEFAULT)),
    }
}

// How far a place lies in a source that is repeated.
fn repeat(distance: u16, size: u16) -> u16
    requires { 1 ≤ size }
    ensures place { result ≡ distance % size }
    ensures less { result < size }
{
    distance % size
}

// The cell that a cell of the written span copies.
fn source_of(from: Span, first: Cell, cell: Cell) -> Cell
    requires row { first.row ≤ cell.row }
    requires col { first.col ≤ cell.col }
    ensures { result ≡ source_of from first cell }
{
    let down = repeat(cell.row - first.row, from.height());
    let across = repeat(u16::from(cell.col - first.col), from.width());
    Cell {
        row: from.first.row + down,
        col: (u16::from(from.first.col) + across) as u8,
    }
}

/// What the cells of a copy's written span are given, whose first cell is named. All is read before a cell is written.
pub fn copied(store: &Store, from: Span, first: Cell, cells: &[Cell]) -> Result<Changes, Memory>
    requires { (c : Place) → has same_place cells.now c ≡ true → (first.row ≤ c.row) × (first.col ≤ c.col) }
    ensures given { IfOk result
        (λ m. AreGiven m (has same_place cells.now)
        (λ c. Some (copied_state (map.get store.now.cells (source_of from first c))))) }
    ensures sound { IfOk result AreSound }
{
    // The store is asked for what it keeps of its cells.
    store.are_held();
    let mut changes = Changes::with_room(store.alloc(), cells.len())?;
    for cell in cells {
        let state = copied_state(store, source_of(from, first, *cell))?;
        changes.set(*cell, state)?;
    }
    Ok(changes)
}

// As many rows and columns from a cell on, where they lie in the sheet.
fn block_at(first: Cell, rows: u16, cols: u16) -> Option<Span>
    requires rows { (1 ≤ rows) × (rows ≤ ROWS) }
    requires cols { (1 ≤ cols) × (cols ≤ COLUMNS) }
    ensures { result ≡ block_at first rows cols }
{
    let row = first.row + (rows - 1);
    let col = u16::from(first.col) + (cols - 1);
    if row >= ROWS || col >= COLUMNS {
        return None;
    }
    let last = Cell {
        row,
        col: col as u8,
    };
    Some(Span { first, last })
}

// The written length of a copy in one direction: a source of one repeats along its target.
fn repeated(from: u16, to: u16) -> u16
    ensures { result ≡ repeated from to }
{
    if from == 1 { to } else { from }
}

/// The written span of a copy, where it lies in the sheet.
pub fn target_of(from: Span, to: Span) -> Option<Span>
    ensures { result ≡ target_of from to }
{
    let rows = repeated(from.height(), to.height());
    let cols = repeated(from.width(), to.width());
    block_at(to.first, rows, cols)
}

/// A change of format bytes: another code of 0 to 127, or the protection mark set or taken away.
#[derive(Clone, Copy)]
pub enum FormatChange {
    Code(u8),
    Mark(bool),
}

// The format byte after a change.
fn reformat(change: FormatChange, format: Format) -> Format
    requires { HasCode change }
    ensures { result.0 ≡ rule_of change format.0 }
{
    match change {
        FormatChange::Code(code) => Format(format.0 / 128 * 128 + code),
        FormatChange::Mark(true) => format.protected(),
        FormatChange::Mark(false) => format.unprotected(),
    }
}

// A cell's state in another format, blank where the store has none.
fn reformatted_state(store: &Store, cell: Cell, change: FormatChange) -> Result<CellState, Memory>
    requires { HasCode change }
    ensures { IfOk result (λ s. s ≡ reformatted_state (rule_of change) (map.get store.now.cells cell)) }
{
    let format = reformat(change, format_of(store, cell));
    match store.get(cell) {
        Some(state) => {
            let mut copy = state.copy(store.alloc())?;
            copy.set_format(format);
            Ok(copy)
        }
        None => Ok(CellState::blank(format)),
    }
}

/// The cells' states in other formats.
pub fn reformatted(store: &Store, change: FormatChange, cells: &[Cell]) -> Result<Changes, Memory>
    requires { HasCode change }
    ensures given { IfOk result
        (λ m. AreGiven m (has same_place cells.now)
        (λ c. Some (reformatted_state (rule_of change) (map.get store.now.cells c)))) }
    ensures sound { IfOk result AreSound }
    ensures held { AreHeld store.now.cells }
{
    // The store is asked for what it keeps of its cells.
    store.are_held();
    let mut changes = Changes::with_room(store.alloc(), cells.len())?;
    for cell in cells {
        let state = reformatted_state(store, *cell, change)?;
        changes.set(*cell, state)?;
    }
    Ok(changes)
}
