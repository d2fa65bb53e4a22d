// The records of the settings, of the range, of own widths and of hidden columns.
ghost use Rattle.std.specs.Int.{to_le_bytes, w16};
ghost use Rattle.std.specs.Prelude.{ℕ, ◌≡◌, ◌≤◌, ◌<◌, ◌+◌, ◌*◌, ◌++◌, ◌∷◌, [], OnOk, OnErr, None, false, get_or, length};
ghost use Rattle.std.specs.Option.{ForSome};
ghost use Rattle.std.specs.List.{list_any};
ghost use Rattle.lics_text.specs.Prefixes.{prefix_byte};
ghost use Rattle.grid_address.specs.Place.{Place};
ghost use Rattle.sheet_store.specs.Grid.{last_used, width_of};
ghost use Rattle.wk1_records.specs.Records.{piece_bytes, pieces_bytes};
ghost use Rattle.wk1_records.specs.declared.kind.RecordKind.TheVariants as kind;
ghost use Rattle.wk1_records.specs.Bodies.{made, place_bytes};
ghost use Rattle.wk1_records.specs.Kinds.{order_byte};
ghost use Rattle.wk1_file.specs.Saved.{bits_byte, bits_bytes, hidden_pieces, is_marked, last_marked, on_byte, place_or_first, range_end, range_piece, settings_pieces, width_piece, width_pieces, window_piece};

use grid_address::Cell;
use lics_text::{LabelPrefix, Memory};
use sheet_store::{MOST_WIDTH, Settings, Store};
use wk1_formula::put;
use wk1_records::{RecordKind, number_of, order_byte, put_piece};

// The byte of a sheet that recalculates by itself.
const AUTOMATIC: u8 = 255;

// The byte of a protected sheet.
const PROTECTED: u8 = 1;

// A byte for what is on, and 0 for what is off.
fn on_byte(on: bool, byte: u8) -> u8
    ensures byte { result ≡ on_byte on byte }
    ensures most { result ≤ byte }
{
    if on { byte } else { 0 }
}

// The record of one byte.
fn byte_record(kind: RecordKind, byte: u8) -> [u8; 5]
    ensures { result ≡ piece_bytes (made kind (byte ∷ [])) }
{
    let [low, high] = number_of(kind).to_le_bytes();
    [low, high, 1, 0, byte]
}

// Adds the record of one byte.
fn put_byte(kind: RecordKind, byte: u8, into: &mut Vec<u8>) -> Result<(), Memory>
    ensures { OnOk result (into.new.items ≡ into.old.items ++ piece_bytes (made kind (byte ∷ []))) }
{
    put(&byte_record(kind, byte), into)
}

// A place, the column first.
fn place_bytes(place: Cell) -> [u8; 4]
    ensures { result ≡ place_bytes place }
{
    let [col_low, col_high] = u16::from(place.col).to_le_bytes();
    let [row_low, row_high] = place.row.to_le_bytes();
    [col_low, col_high, row_low, row_high]
}

// What the record of the pointer, the global format and the global width holds.
fn window_body(settings: Settings) -> [u8; 31]
    ensures { made kind.Window result ≡ window_piece settings }
{
    let [a, b, c, d] = place_bytes(settings.pointer);
    let [low, high] = u16::from(settings.width).to_le_bytes();
    let format = settings.format.0;
    [
        a, b, c, d, format, 0, low, high, 0, 0, 0, 0, 0, 0, 0, 0, 0, 0, 0, 0, 0, 0, 0, 0, 0, 0, 0,
        0, 0, 0, 0,
    ]
}

// Adds the record of the pointer, the global format and the global width.
fn put_window(settings: Settings, into: &mut Vec<u8>) -> Result<(), Memory>
    ensures { OnOk result (into.new.items ≡ into.old.items ++ piece_bytes (window_piece settings)) }
{
    put_piece(RecordKind::Window, &window_body(settings), into)
}

// Adds the record of the label prefix.
fn put_prefix(prefix: LabelPrefix, into: &mut Vec<u8>) -> Result<(), Memory>
    ensures { OnOk result (into.new.items
        ≡ into.old.items ++ piece_bytes (made kind.LabelFormat (prefix_byte prefix ∷ []))) }
{
    put_byte(RecordKind::LabelFormat, prefix.byte(), into)
}

// Adds the records of the other settings, one byte each.
fn put_choices(settings: Settings, into: &mut Vec<u8>) -> Result<(), Memory>
    ensures { OnOk result (into.new.items ≡ into.old.items
        ++ pieces_bytes (made kind.CalcCount (settings.passes ∷ [])
        ∷ made kind.CalcMode (on_byte settings.automatic AUTOMATIC ∷ [])
        ∷ made kind.CalcOrder (order_byte settings.order ∷ [])
        ∷ made kind.Protection (on_byte settings.protection PROTECTED ∷ [])
        ∷ made kind.LabelFormat (prefix_byte settings.prefix ∷ []) ∷ [])) }
{
    put_byte(RecordKind::CalcCount, settings.passes, into)?;
    let automatic = on_byte(settings.automatic, AUTOMATIC);
    put_byte(RecordKind::CalcMode, automatic, into)?;
    put_byte(RecordKind::CalcOrder, order_byte(settings.order), into)?;
    let protection = on_byte(settings.protection, PROTECTED);
    put_byte(RecordKind::Protection, protection, into)?;
    put_prefix(settings.prefix, into)
}

/// Adds the records of the settings.
pub fn put_settings(settings: Settings, into: &mut Vec<u8>) -> Result<(), Memory>
    ensures { OnOk result (into.new.items ≡ into.old.items ++ pieces_bytes (settings_pieces settings)) }
{
    put_choices(settings, into)?;
    put_window(settings, into)
}

// Whether a column has a width of its own. All are looked at, so that many are at once.
fn any_width(store: &Store) -> bool
    ensures { result ≡ false → (col : ℕ) → col < 256 → get_or store.now.widths col 0 ≡ 0 }
{
    let mut any = false;
    for col in 0..256usize {
        any = any | store.width(col as u8).is_some();
    }
    any
}

// Whether a column is hidden. All are looked at, so that many are at once.
fn any_hidden(store: &Store) -> bool
    ensures { result ≡ list_any (λ b. b) store.now.hidden }
{
    store.are_columns();
    let mut any = false;
    for col in 0..256usize {
        any = any | store.is_hidden(col as u8);
    }
    any
}

// Whether a column has a width of its own or is hidden.
fn is_marked(store: &Store, col: u8) -> bool
    ensures { result ≡ is_marked store.now col }
{
    store.width(col).is_some() || store.is_hidden(col)
}

// The same as `last_marked`, column by column.
fn last_by_column(store: &Store) -> u8
    ensures { result ≡ last_marked store.now 256 }
{
    let mut last = 0;
    for col in 0..256usize {
        if is_marked(store, col as u8) {
            last = col as u8;
        }
    }
    last
}

// The last column that has a width of its own or is hidden; A where there is none, as in nearly all sheets.
fn last_marked(store: &Store) -> u8
    ensures { result ≡ last_marked store.now 256 }
{
    if any_width(store) {
        return last_by_column(store);
    }
    if any_hidden(store) {
        return last_by_column(store);
    }
    0
}

// The last used cell, or A1 where there is none.
fn last_used(store: &Store) -> Cell
    ensures { result ≡ place_or_first (last_used store.now) }
{
    match store.last_used() {
        Some(cell) => cell,
        None => Cell { row: 0, col: 0 },
    }
}

// The last used row, and the last column that is used or marked.
fn range_end(store: &Store) -> Cell
    ensures { result ≡ range_end store.now }
{
    let last = last_used(store);
    Cell {
        row: last.row,
        col: last.col.max(last_marked(store)),
    }
}

// What the record of the range from A1 to a place holds.
fn range_body(end: Cell) -> [u8; 8]
    ensures { made kind.Range result ≡ range_piece end }
{
    let [a, b, c, d] = place_bytes(end);
    [0, 0, 0, 0, a, b, c, d]
}

/// Adds the record of the range of a sheet, from A1 to the last row that is used and the last column that is used, has
/// a width of its own or is hidden.
pub fn put_range(store: &Store, into: &mut Vec<u8>) -> Result<(), Memory>
    ensures { OnOk result (into.new.items ≡ into.old.items ++ piece_bytes (range_piece (range_end store.now))) }
{
    put_piece(RecordKind::Range, &range_body(range_end(store)), into)
}

// Adds the record of a column's own width, where it has one.
fn put_width(col: u16, width: Option<u8>, into: &mut Vec<u8>) -> Result<(), Memory>
    ensures { OnOk result (into.new.items ≡ into.old.items ++ pieces_bytes (width_piece col width)) }
{
    match width {
        Some(width) => {
            let [low, high] = col.to_le_bytes();
            put_piece(RecordKind::ColumnWidth, &[low, high, width], into)
        }
        None => Ok(()),
    }
}

// The same as `put_widths`, column by column.
fn put_by_column(store: &Store, into: &mut Vec<u8>) -> Result<(), Memory>
    ensures bytes { OnOk result (into.new.items ≡ into.old.items ++ pieces_bytes (width_pieces store.now)) }
    ensures most { OnOk result ((k : ℕ) → get_or store.now.widths k 0 ≤ MOST_WIDTH) }
{
    store.are_columns();
    for col in 0..256usize {
        put_width(col as u16, store.width(col as u8), into)?;
    }
    Ok(())
}

/// Adds the records of own widths, of which nearly all sheets have none.
pub fn put_widths(store: &Store, into: &mut Vec<u8>) -> Result<(), Memory>
    ensures bytes { OnOk result (into.new.items ≡ into.old.items ++ pieces_bytes (width_pieces store.now)) }
    ensures most { OnOk result ((k : ℕ) → get_or store.now.widths k 0 ≤ MOST_WIDTH) }
{
    store.are_columns();
    if any_width(store) {
        put_by_column(store, into)
    } else {
        Ok(())
    }
}

// A byte for a hidden column, and 0 for a shown one.
fn weight(store: &Store, col: usize, byte: u8) -> u8
    requires { col < 256 }
    ensures byte { result ≡ on_byte (get_or store.now.hidden col false) byte }
    ensures most { result ≤ byte }
{
    on_byte(store.is_hidden(col as u8), byte)
}

// Eight columns in a byte, the lowest bit first.
fn bits_byte(store: &Store, place: usize) -> u8
    requires { place < 32 }
    ensures { result ≡ bits_byte store.now.hidden place }
{
    let at = 8 * place;
    let low = weight(store, at, 1)
        + weight(store, at + 1, 2)
        + weight(store, at + 2, 4)
        + weight(store, at + 3, 8);
    let high = weight(store, at + 4, 16)
        + weight(store, at + 5, 32)
        + weight(store, at + 6, 64)
        + weight(store, at + 7, 128);
    low + high
}

// The bytes of all columns.
fn put_bits(store: &Store, body: &mut Vec<u8>) -> Result<(), Memory>
    ensures { OnOk result (body.new.items ≡ bits_bytes store.now.hidden) }
{
    body.clear();
    for place in 0..32usize {
        body.push(bits_byte(store, place))?;
    }
    Ok(())
}

/// Adds the record of hidden columns, where there is one.
pub fn put_hidden(store: &Store, body: &mut Vec<u8>, into: &mut Vec<u8>) -> Result<(), Memory>
    ensures { OnOk result (into.new.items ≡ into.old.items ++ pieces_bytes (hidden_pieces store.now.hidden)) }
{
    if !any_hidden(store) {
        return Ok(());
    }
    put_bits(store, body)?;
    put_piece(RecordKind::HiddenColumns, body.as_slice(), into)
}
