// Worksheet files written.
ghost use Rattle.std.specs.Prelude.{◌≡◌, ◌≤◌, ◌<◌, ◌++◌, ◌∷◌, [], OnOk, IfOk, Ok, length};
ghost use Rattle.wk1_records.specs.Records.{pieces_bytes};
ghost use Rattle.wk1_file.specs.Files.{IsFile};
ghost use Rattle.wk1_file.specs.Said.{AreSettings, IsSavedSheet};
ghost use Rattle.wk1_file.specs.Saved.{bof, file_bytes, records_before, range_end, range_piece, settings_pieces, of_parts};

use crate::load::MOST_CELLS;
use crate::put_cells::put_cells;
use crate::put_names::put_names;
use crate::put_settings::{put_hidden, put_range, put_settings, put_widths};
use lics_text::Memory;
use range_names::Names;
use sheet_store::{SavedSheet, Settings, Store};
use std::alloc::Global;
use wk1_records::{RecordKind, put_piece};

// Adds BOF, the range and the settings.
fn put_front(store: &Store, settings: Settings, into: &mut Vec<u8>) -> Result<(), Memory>
    ensures { OnOk result (into.new.items ≡ into.old.items
        ++ pieces_bytes (bof ∷ range_piece (range_end store.now) ∷ settings_pieces settings)) }
{
    put_piece(RecordKind::Bof, &[6, 4], into)?;
    put_range(store, into)?;
    put_settings(settings, into)
}

// What settings keep. Nothing is done: the contract says it.
fn are_settings(settings: Settings)
    ensures { AreSettings settings }
{
    settings.are_within();
    settings.pointer.is_on_sheet();
}

// Adds all records but the EOF.
fn put_records(
    alloc: Global,
    store: &Store,
    names: &Names,
    settings: Settings,
    body: &mut Vec<u8>,
    into: &mut Vec<u8>,
) -> Result<(), Memory>
    ensures bytes { OnOk result (into.new.items
        ≡ into.old.items ++ pieces_bytes (records_before (of_parts store.now names.now settings))) }
    ensures saved { OnOk result (IsSavedSheet (of_parts store.now names.now settings)) }
{
    are_settings(settings);
    store.are_columns();
    store.are_held();
    names.are_keyed();
    put_front(store, settings, into)?;
    put_widths(store, into)?;
    put_hidden(store, body, into)?;
    put_names(names, body, into)?;
    put_cells(alloc, store, into)?;
    Ok(())
}

// No bytes yet, with room for those of a sheet of short records.
fn room_for(alloc: Global, store: &Store) -> Result<Vec<u8>, Memory>
    ensures { IfOk result (λ bytes. bytes.items ≡ []) }
{
    let cells = store.held_count().min(MOST_CELLS);
    let bytes = Vec::with_capacity(alloc, 256 + 16 * cells)?;
    Ok(bytes)
}

/// The bytes of the worksheet file of a sheet of these cells, names and settings, which are looked at where they are.
/// Where the bytes are at most 67,108,864, they are the file of this sheet: `read` gives it back.
pub fn write_parts(
    alloc: Global,
    store: &Store,
    names: &Names,
    settings: Settings,
) -> Result<Vec<u8>, Memory>
    ensures bytes { IfOk result (λ bytes. bytes.items ≡ file_bytes (of_parts store.now names.now settings)) }
    ensures read { IfOk result (λ bytes. length bytes.items ≤ 67108864
        → IsFile bytes.items (Ok (of_parts store.now names.now settings))) }
{
    let mut body = Vec::new(alloc);
    let mut into = room_for(alloc, store)?;
    put_records(alloc, store, names, settings, &mut body, &mut into)?;
    put_piece(RecordKind::Eof, &[], &mut into)?;
    Ok(into)
}

/// The bytes of a sheet's worksheet file. Where they are at most 67,108,864, they are the file of this sheet: `read`
/// gives it back.
pub fn write(alloc: Global, sheet: &SavedSheet) -> Result<Vec<u8>, Memory>
    ensures bytes { IfOk result (λ bytes. bytes.items ≡ file_bytes sheet.now) }
    ensures read { IfOk result (λ bytes. length bytes.items ≤ 67108864 → IsFile bytes.items (Ok sheet.now)) }
{
    write_parts(alloc, &sheet.store, &sheet.names, sheet.settings)
}
