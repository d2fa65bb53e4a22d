// Records written.
ghost use Rattle.std.specs.Int.{to_le_bytes, w16, w64};
ghost use Rattle.std.specs.Prelude.{◌≡◌, ◌≤◌, ◌<◌, ◌+◌, ◌++◌, ◌∷◌, [], OnOk, IfOk, length, take, replicate};
ghost use Rattle.lics_text.specs.Bytes.{IsText};
ghost use Rattle.formula_tree.specs.declared.value.Value.{Value};
ghost use Rattle.wk1_formula.specs.Written.{code_of};
ghost use Rattle.wk1_records.specs.Kinds.{number_of};
ghost use Rattle.wk1_records.specs.Records.{piece_bytes};
ghost use Rattle.wk1_records.specs.Bodies.{head, made, place_bytes};

use crate::{RecordKind, numbers};
use grid_address::Cell;
use lics_text::Memory;
use sheet_store::CellState;
use wk1_formula::{put, put_short};

/// The number of a type.
pub fn number_of(kind: RecordKind) -> u16
    ensures { result ≡ number_of kind }
{
    match kind {
        RecordKind::Bof => numbers::BOF,
        RecordKind::Eof => numbers::EOF,
        RecordKind::CalcMode => numbers::CALC_MODE,
        RecordKind::CalcOrder => numbers::CALC_ORDER,
        RecordKind::Range => numbers::RANGE,
        RecordKind::Window => numbers::WINDOW,
        RecordKind::ColumnWidth => numbers::COLUMN_WIDTH,
        RecordKind::Name => numbers::NAME,
        RecordKind::Blank => numbers::BLANK,
        RecordKind::Integer => numbers::INTEGER,
        RecordKind::Number => numbers::NUMBER,
        RecordKind::Label => numbers::LABEL,
        RecordKind::Formula => numbers::FORMULA,
        RecordKind::Protection => numbers::PROTECTION,
        RecordKind::LabelFormat => numbers::LABEL_FORMAT,
        RecordKind::CalcCount => numbers::CALC_COUNT,
        RecordKind::Str => numbers::STR,
        RecordKind::HiddenColumns => numbers::HIDDEN_COLUMNS,
        RecordKind::Other => numbers::OTHER,
    }
}

/// Adds a record.
pub fn put_piece(kind: RecordKind, body: &[u8], into: &mut Vec<u8>) -> Result<(), Memory>
    requires { length body.now < 65536 }
    ensures { OnOk result (into.new.items ≡ into.old.items ++ piece_bytes (made kind body.now)) }
{
    put_short(number_of(kind), into)?;
    put_short(body.len() as u16, into)?;
    put(body, into)
}

/// Adds a place, the column first.
pub fn put_place(place: Cell, into: &mut Vec<u8>) -> Result<(), Memory>
    ensures { OnOk result (into.new.items ≡ into.old.items ++ place_bytes place) }
{
    put_short(u16::from(place.col), into)?;
    put_short(place.row, into)
}

/// What the record of a cell begins with, whose body takes so many bytes: its type, the length of its body, the format
/// byte and the place.
pub fn beginning(kind: RecordKind, size: u16, cell: Cell, state: &CellState) -> [u8; 9]
    ensures { result ≡ to_le_bytes w16 (number_of kind) ++ (to_le_bytes w16 size ++ head cell state.now) }
{
    let [kind_low, kind_high] = number_of(kind).to_le_bytes();
    let [size_low, size_high] = size.to_le_bytes();
    let [col_low, col_high] = u16::from(cell.col).to_le_bytes();
    let [row_low, row_high] = cell.row.to_le_bytes();
    [
        kind_low,
        kind_high,
        size_low,
        size_high,
        state.format().0,
        col_low,
        col_high,
        row_low,
        row_high,
    ]
}
