// What a list of writes gives its cells.
ghost use Rattle.std.specs.Prelude.{◌≡◌, ◌≤◌, ◌<◌, ◌++◌, ◌∷◌, [], IfOk, OnOk, None, false, true};
ghost use Rattle.std.specs.FinMap as map;
ghost use Rattle.grid_address.specs.Place.{same_place, Place};
ghost use Rattle.recalculation.specs.Context.{format_of};
ghost use Rattle.sheet_store.specs.Grid.{is_formula, is_kept, IsSound};
ghost use Rattle.sheet_edits.specs.Spans.{changed, write_state, written_all, written_cells, AreGathered};

use crate::changes::Changes;
use crate::states::first_state;
use grid_address::{Cell, CellList, Format};
use lics_text::Memory;
use recalculation::format_of;
use sheet_store::{CellState, Store, Write, Writes};

// The least rank behind this one, and no lower than what was the least before.
fn behind(least: u32, rank: u32) -> u32
    requires { rank < 16777216 }
    ensures least { least ≤ result }
    ensures rank { rank < result }
{
    if rank >= least { rank + 1 } else { least }
}

// The format that a cell has after the changes. They aren't asked for one that is known not to be among them.
fn format_after(store: &Store, changes: &Changes, cell: Cell, is_new: bool) -> Format
    requires { is_new ≡ true → map.get changes.now cell ≡ None }
    ensures { result.0 ≡ format_of (changed (map.get changes.now cell) (map.get store.now.cells cell)) }
{
    if is_new {
        return format_of(store, cell);
    }
    match changes.get(cell) {
        Some(state) => state.format(),
        None => format_of(store, cell),
    }
}

// The state that a write gives its cell after the changes.
fn write_state(
    store: &Store,
    changes: &Changes,
    write: &Write,
    is_new: bool,
) -> Result<CellState, Memory>
    requires { is_new ≡ true → map.get changes.now write.now.cell ≡ None }
    ensures { IfOk result
        (λ s. s ≡ write_state write.now
        (changed (map.get changes.now write.now.cell) (map.get store.now.cells write.now.cell))) }
{
    let content = write.content.copy()?;
    let format = match write.format {
        Some(format) => format,
        None => format_after(store, changes, write.cell, is_new),
    };
    first_state(store.alloc(), content, format)
}

/// The state that a write gives its cell, which keeps its format where the write has none.
pub fn state_written(store: &Store, write: &Write) -> Result<CellState, Memory>
    ensures state { IfOk result (λ s. s ≡ write_state write.now (map.get store.now.cells write.now.cell)) }
    ensures sound { IfOk result (λ s. IsSound s) }
    ensures kept { IfOk result (λ s. is_formula s.content ≡ true → is_kept s ≡ true) }
{
    let content = write.content.copy()?;
    let format = match write.format {
        Some(format) => format,
        None => format_of(store, write.cell),
    };
    first_state(store.alloc(), content, format)
}

// One more write, whose cell may be known not to be among the changes.
fn gather(
    store: &Store,
    write: &Write,
    cells: &mut CellList,
    changes: &mut Changes,
    is_new: bool,
) -> Result<(), Memory>
    requires { is_new ≡ true → map.get changes.old write.now.cell ≡ None }
    ensures cells { OnOk result (cells.new ≡ cells.old ++ write.now.cell ∷ []) }
    ensures changes { OnOk result
        (changes.new ≡ map.insert changes.old write.now.cell
        (write_state write.now
        (changed (map.get changes.old write.now.cell) (map.get store.now.cells write.now.cell)))) }
{
    let state = write_state(store, changes, write, is_new)?;
    changes.set(write.cell, state)?;
    cells.push(write.cell)?;
    Ok(())
}

/// The cells of the writes, and what they hold after all of them. Later writes come over earlier ones.
pub fn gathered(
    store: &Store,
    writes: &Writes,
    cells: &mut CellList,
    changes: &mut Changes,
) -> Result<(), Memory>
    requires cells { cells.old ≡ [] }
    requires changes { changes.old ≡ map.empty }
    ensures { OnOk result (AreGathered store.now writes.now cells.new changes.new) }
{
    changes.reserve(writes.len())?;
    // No cell that was met has this rank or a higher one.
    let mut least = 0;
    for place in 0..writes.len() {
        if let Some(write) = writes.get(place) {
            let rank = write.cell.rank();
            gather(store, write, cells, changes, rank >= least)?;
            least = behind(least, rank);
        }
    }
    Ok(())
}
