// A sheet line by line.
ghost use Rattle.std.specs.Prelude.{◌≡◌, ◌++◌, IfOk, OnOk, OnErr};
ghost use Rattle.sheet_listing.specs.Listed.{column_lines, listed, settings_lines};
ghost use Rattle.sheet_listing.specs.Waiting.{added, HasFailed, IsFront};

use crate::cells::list_cells;
use crate::columns::put_columns;
use crate::names::list_names;
use crate::settings::put_settings;
use crate::writing::{WriteFault, write_waiting};
use lics_text::Memory;
use outside_world::Notes;
use sheet_store::SavedSheet;
use std::alloc::Global;

// The lines on the settings and on columns.
fn front(alloc: Global, sheet: &SavedSheet) -> Result<Vec<u8>, Memory>
    ensures { IfOk result (λ text. text.items ≡ settings_lines sheet.now.settings ++ column_lines sheet.now.store) }
{
    let mut text = Vec::new(alloc);
    put_settings(sheet.settings, &mut text)?;
    put_columns(&sheet.store, &mut text)?;
    Ok(text)
}

/// Writes what a sheet holds, as lines of fields: a line for each setting, for each column that has a width of its own
/// or is hidden, for each name, and for each cell, row by row. At least 65,536 bytes are written at a time, but for the
/// last ones. `Failed` comes only where the lines' count of faults rose, and whatever the fault, a front of the lines
/// is written then. (This project's choice.)
pub fn list_sheet<N: Notes>(
    alloc: Global,
    sheet: &SavedSheet,
    lines: &mut N,
) -> Result<(), WriteFault>
    ensures ok { OnOk result (N.written lines.new ≡ added (N.written lines.old) (listed sheet.now)) }
    ensures err { OnErr result (IsFront (N.written lines.new) (added (N.written lines.old) (listed sheet.now))) }
    ensures cause { HasFailed (N.faults lines.old) (N.faults lines.new) result }
{
    let mut waiting = match front(alloc, sheet) {
        Ok(text) => text,
        Err(Memory) => return Err(WriteFault::Memory),
    };
    list_names(&sheet.names, &mut waiting, lines)?;
    list_cells(alloc, &sheet.store, &sheet.names, &mut waiting, lines)?;
    write_waiting(&mut waiting, lines)?;
    Ok(())
}
