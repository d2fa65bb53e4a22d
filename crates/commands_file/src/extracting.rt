// What is saved of a span.
ghost use Rattle.std.specs.Prelude.{◌≡◌, IfOk, OnOk};
ghost use Rattle.commands_file.specs.Extracted.{extracted, part, state_of};
ghost use Rattle.commands_file.specs.inner.Extracting.{put_within};
ghost use Rattle.sheet_shifts.specs.Shifts.{grid_after};
ghost use Rattle.sheet_shifts.specs.declared.shift.Shift.TheVariants.{Block};
ghost use Rattle.sheet_store.specs.Grid.{IsSound};
ghost use Rattle.work_sheet.specs.Seen.{of_worksheet};

use block_writes::content_of_value;
use grid_address::{Cell, Span};
use lics_text::Memory;
use range_names::Names;
use sheet_edits::state_of;
use sheet_shifts::{Shift, store_after};
use sheet_store::{CellState, SavedSheet, Store};
use work_sheet::Worksheet;

/// What is saved of cells.
#[derive(Clone, Copy)]
pub enum Extracting {
    /// What they hold.
    Formulas,
    /// Their values.
    Values,
}

// What is saved of a cell.
fn extracted_state(
    kind: Extracting,
    store: &Store,
    cell: Cell,
    state: &CellState,
) -> Result<CellState, Memory>
    requires { IsSound state.now }
    ensures state { IfOk result (λ s. s ≡ state_of kind store.now (cell, state.now)) }
    ensures sound { IfOk result (λ s. IsSound s) }
{
    match kind {
        Extracting::Formulas => state.copy(store.alloc()),
        Extracting::Values => {
            let content = content_of_value(store.alloc(), &state.copied_value()?)?;
            state_of(store, cell, content)
        }
    }
}

// Puts what is saved of a cell of the span into a store.
fn put_within(
    kind: Extracting,
    span: Span,
    store: &Store,
    cell: Cell,
    state: &CellState,
    into: &mut Store,
) -> Result<(), Memory>
    requires { IsSound state.now }
    ensures { OnOk result (into.new ≡ put_within kind span store.now (cell, state.now) into.old) }
{
    if !span.contains(cell) {
        return Ok(());
    }
    let saved = extracted_state(kind, store, cell, state)?;
    into.put(cell, saved)
}

// What is saved of a span, where it stands.
fn part(kind: Extracting, span: Span, store: &Store) -> Result<Store, Memory>
    ensures { IfOk result (λ s. s ≡ part kind span store.now) }
{
    let mut into = Store::new(store.alloc());
    store.are_held();
    let mut entries = store.entries();
    while let Some(entry) = entries.next() {
        put_within(kind, span, store, entry.0, entry.1, &mut into)?;
    }
    Ok(into)
}

// The cells of a span that is saved go to A1.
fn brought(span: Span, store: &Store) -> Result<Store, Memory>
    ensures { IfOk result (λ s. s ≡ grid_after (Block span (record { row = 0; col = 0 })) store.now) }
{
    // It is called for its clause that the last corner lies in the sheet.
    span.last.is_on_sheet();
    let shift = Shift::Block(span, Cell { row: 0, col: 0 });
    store_after(store, &shift)
}

/// What is saved of a span: its cells, moved to A1 as Move does, with the settings, and no names, widths of columns'
/// own or hidden columns.
pub(crate) fn extracted(
    kind: Extracting,
    span: Span,
    sheet: &Worksheet,
) -> Result<SavedSheet, Memory>
    ensures { IfOk result (λ saved. saved ≡ extracted kind span (of_worksheet sheet.now)) }
{
    let part = part(kind, span, sheet.cells())?;
    let store = brought(span, &part)?;
    Ok(SavedSheet {
        store,
        names: Names::new(sheet.alloc()),
        settings: *sheet.settings(),
    })
}
