// A file's cells are combined with those of the sheet.
ghost use Rattle.std.specs.Prelude.{◌≡◌, ◌++◌, ◌∷◌, [], IfNone, IfOk, IfSome, OnOk, Some, false, true};
ghost use Rattle.std.specs.FinMap as map;
ghost use Rattle.std.specs.List.{list_any};
ghost use Rattle.command_desk.specs.Acting.{HasActedBy};
ghost use Rattle.commands_file.specs.Combined.{combined, combined_writes, is_number, is_taken, leaves_sheet};
ghost use Rattle.commands_file.specs.Combined.{number_held, placed, total, totalled, used_span, write_at, write_of};
ghost use Rattle.work_sheet.specs.Seen.{of_worksheet};

use block_writes::{content_of_value, written};
use command_desk::{CommandEnd, settled};
use desk_errors::CommandError;
use fixed_value::Fixed;
use formula_eval::Tally;
use formula_parts::Scene;
use formula_tree::{Content, ContentRef, Value, ValueRef};
use grid_address::{Cell, ROWS, Span};
use lics_text::Memory;
use sheet_store::{CellState, Store, Write, Writes};
use std::alloc::Global;
use work_sheet::Worksheet;

// How many columns the sheet has.
const COLS: u16 = 256;

/// How a file's cells are combined with those of the sheet.
#[derive(Clone, Copy)]
pub enum Combining {
    /// They take the place of the sheet's.
    Copy,
    /// Their numbers are added to those of the sheet.
    Add,
    /// Their numbers are subtracted from those of the sheet.
    Subtract,
}

// Whether a cell's value is a number.
fn is_number(state: &CellState) -> bool
    ensures { result ≡ is_number state.now.value }
{
    match state.value() {
        ValueRef::Num(_) => true,
        ValueRef::Blank | ValueRef::Str(_) | ValueRef::Err | ValueRef::Na => false,
    }
}

// Whether a file's cell is taken: all that are filled, or those whose value is a number.
fn is_taken(kind: Combining, state: &CellState) -> bool
    ensures { result ≡ is_taken kind state.now }
{
    match kind {
        Combining::Copy => !state.is_blank(),
        Combining::Add | Combining::Subtract => is_number(state),
    }
}

// Where a file's cell stands whose A1 stands at the pointer; none past the sheet.
fn placed(pointer: Cell, cell: Cell) -> Option<Cell>
    ensures { result ≡ placed pointer cell }
{
    let row = pointer.row + cell.row;
    let col = u16::from(pointer.col) + u16::from(cell.col);
    if row < ROWS && col < COLS {
        Some(Cell {
            row,
            col: col as u8,
        })
    } else {
        None
    }
}

// The number that a cell holds; nothing is 0, and any other content is none.
fn number_held(sheet: &Store, cell: Cell) -> Option<Fixed>
    ensures { result ≡ number_held (map.get sheet.now.cells cell) }
{
    let Some(state) = sheet.get(cell) else {
        return Some(Fixed::ZERO);
    };
    match state.content() {
        ContentRef::Blank => Some(Fixed::ZERO),
        ContentRef::Number(number) => Some(number),
        ContentRef::Label(_, _) | ContentRef::Formula(_) => None,
    }
}

// A file's number is added to a cell's, or subtracted from it.
fn total(kind: Combining, here: Fixed, number: Fixed) -> Option<Fixed>
    ensures { result ≡ total kind here number }
{
    match kind {
        Combining::Subtract => here.sub(number),
        Combining::Copy | Combining::Add => here.add(number),
    }
}

// Adds a file's content and format for a cell.
fn push_copy(writes: &mut Writes, cell: Cell, state: &CellState) -> Result<(), Memory>
    ensures { OnOk result (writes.new ≡ writes.old
        ++ record { cell = cell; content = state.now.content; format = Some state.now.format } ∷ []) }
{
    let content = state.copied_content()?;
    writes.push(Write {
        cell,
        content,
        format: Some(state.format()),
    })
}

// Adds a file's number with that of the cell, where the cell holds one.
fn push_total(
    writes: &mut Writes,
    kind: Combining,
    sheet: &Store,
    cell: Cell,
    state: &CellState,
) -> Result<(), Memory>
    ensures { OnOk result (writes.new
        ≡ writes.old ++ totalled kind cell (number_held (map.get sheet.now.cells cell)) state.now.value) }
{
    let ValueRef::Num(number) = state.value() else {
        return Ok(());
    };
    let Some(here) = number_held(sheet, cell) else {
        return Ok(());
    };
    match total(kind, here, number) {
        Some(sum) => writes.push(written(cell, Content::Number(sum))),
        None => {
            let err = content_of_value(sheet.alloc(), &Value::Err)?;
            writes.push(written(cell, err))
        }
    }
}

// Adds what is written of a file's cell that is taken, where it stands in the sheet.
fn push_placed(
    writes: &mut Writes,
    kind: Combining,
    sheet: &Store,
    to: Cell,
    state: &CellState,
) -> Result<(), Memory>
    ensures { OnOk result (writes.new ≡ writes.old ++ write_at kind sheet.now to state.now) }
{
    match kind {
        Combining::Copy => push_copy(writes, to, state),
        Combining::Add | Combining::Subtract => push_total(writes, kind, sheet, to, state),
    }
}

// Adds what is written of a file's cell; true exactly where it is taken and would stand past the sheet.
fn push_write(
    writes: &mut Writes,
    kind: Combining,
    sheet: &Store,
    pointer: Cell,
    cell: Cell,
    state: &CellState,
) -> Result<bool, Memory>
    ensures leaves { IfOk result (λ leaves. leaves ≡ leaves_sheet kind pointer (cell, state.now)) }
    ensures writes { OnOk result (writes.new ≡ writes.old ++ write_of kind sheet.now pointer (cell, state.now)) }
{
    if !is_taken(kind, state) {
        return Ok(false);
    }
    match placed(pointer, cell) {
        Some(to) => {
            push_placed(writes, kind, sheet, to, state)?;
            Ok(false)
        }
        None => Ok(true),
    }
}

// What is written of a file's cells, in row order, over the cells of the sheet; none where one of them is taken and
// would stand past the sheet.
fn combined_writes(
    kind: Combining,
    file: &Store,
    sheet: &Store,
    pointer: Cell,
) -> Result<Option<Writes>, Memory>
    ensures some { IfOk result (λ got. IfSome got (λ writes.
        (list_any (leaves_sheet kind pointer) (map.entries file.now.cells) ≡ false)
        × (writes ≡ combined_writes kind file.now sheet.now pointer))) }
    ensures none { IfOk result (λ got. IfNone got
        (list_any (leaves_sheet kind pointer) (map.entries file.now.cells) ≡ true)) }
{
    let mut writes = Writes::new(sheet.alloc());
    writes.reserve(file.held_count())?;
    let mut entries = file.entries();
    while let Some(entry) = entries.next() {
        let leaves = push_write(&mut writes, kind, sheet, pointer, entry.0, entry.1)?;
        if leaves {
            return Ok(None);
        }
    }
    Ok(Some(writes))
}

// The span from A1 to the last used column and row.
fn used_span(file: &Store) -> Span
    ensures { result ≡ used_span file.now }
{
    let first = Cell { row: 0, col: 0 };
    match file.last_used() {
        Some(last) => Span { first, last },
        None => Span { first, last: first },
    }
}

/// Where the pointer of a sheet stands.
pub(crate) fn pointer_of(sheet: &Worksheet) -> Cell
    ensures { result ≡ sheet.now.settings.pointer }
{
    sheet.settings().pointer
}

/// A file's cells are combined with those of the sheet, unless one of them would stand past it: then `OutOfSheet`
/// carries the span from A1 to the file's last used column and row.
pub(crate) fn combine(
    kind: Combining,
    file: &Store,
    sheet: &mut Worksheet,
    scene: &Scene,
    tally: &mut Tally,
) -> Result<CommandEnd, Memory>
    ensures { IfOk result (λ end. HasActedBy (combined kind file.now scene.entry.now)
        end sheet.old sheet.new tally.old.count tally.new.count) }
{
    let pointer = pointer_of(sheet);
    let gathered = combined_writes(kind, file, sheet.cells(), pointer)?;
    match gathered {
        Some(writes) => {
            let answer = sheet.write(&writes);
            settled(answer, sheet, scene, tally)
        }
        None => Ok(CommandEnd::Refused(CommandError::OutOfSheet(used_span(file)))),
    }
}
