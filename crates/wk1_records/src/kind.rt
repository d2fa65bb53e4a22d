// The types of records.
ghost use Rattle.std.specs.Prelude.{◌≡◌};
ghost use Rattle.wk1_records.specs.Kinds.{kind_of};

use crate::numbers;

/// The type of a record (worksheet file format).
#[derive(Clone, Copy)]
pub enum RecordKind {
    Bof,
    Eof,
    CalcMode,
    CalcOrder,
    Range,
    Window,
    ColumnWidth,
    Name,
    Blank,
    Integer,
    Number,
    Label,
    Formula,
    Protection,
    LabelFormat,
    CalcCount,
    Str,
    HiddenColumns,
    Other,
}

/// The type of a record by its number.
#[tactic(auto, unfolding(crate::specs::Kinds::kind_of))]
pub fn kind_of(number: u16) -> RecordKind
    ensures { result ≡ kind_of number }
{
    if number == numbers::BOF {
        RecordKind::Bof
    } else if number == numbers::EOF {
        RecordKind::Eof
    } else if number == numbers::CALC_MODE {
        RecordKind::CalcMode
    } else if number == numbers::CALC_ORDER {
        RecordKind::CalcOrder
    } else if number == numbers::RANGE {
        RecordKind::Range
    } else if number == numbers::WINDOW {
        RecordKind::Window
    } else if number == numbers::COLUMN_WIDTH {
        RecordKind::ColumnWidth
    } else if number == numbers::NAME {
        RecordKind::Name
    } else if number == numbers::BLANK {
        RecordKind::Blank
    } else if number == numbers::INTEGER {
        RecordKind::Integer
    } else if number == numbers::NUMBER {
        RecordKind::Number
    } else if number == numbers::LABEL {
        RecordKind::Label
    } else if number == numbers::FORMULA {
        RecordKind::Formula
    } else if number == numbers::PROTECTION {
        RecordKind::Protection
    } else if number == numbers::LABEL_FORMAT {
        RecordKind::LabelFormat
    } else if number == numbers::CALC_COUNT {
        RecordKind::CalcCount
    } else if number == numbers::STR {
        RecordKind::Str
    } else if number == numbers::HIDDEN_COLUMNS {
        RecordKind::HiddenColumns
    } else {
        RecordKind::Other
    }
}
