//! The records of worksheet files: how they stand in bytes, and what each says of a sheet (worksheet file format).
#![tactic(auto)]

mod column_marks;
mod entry;
mod fault;
mod kind;
mod lengths;
mod meaning;
mod name_said;
mod numbers;
mod order;
mod pieces;
mod read_codes;
mod said;
mod split;

pub use column_marks::ColumnMarks;
pub use entry::Entry;
pub use fault::Wk1Fault;
pub use kind::{RecordKind, kind_of};
pub use lengths::{
    BLANK_LENGTH, FORMULA_LENGTH, INTEGER_LENGTH, LABEL_LENGTH, NUMBER_LENGTH, STR_LENGTH,
};
pub use meaning::entry_of;
pub use numbers::{BOF, EOF, FORMULA, INTEGER, LABEL, NUMBER};
pub use order::order_byte;
pub use pieces::{beginning, number_of, put_piece, put_place};
pub use read_codes::ReadCodes;
pub use split::front_piece;
