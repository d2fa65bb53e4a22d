//! Places of a worksheet: cells, spans of cells and their rows and columns, references, how addresses are
//! written and read, and the format byte of a cell.
#![tactic(auto)]

mod address;
mod cell;
mod columns;
mod decimal;
mod format;
mod list;
mod reading;
mod reference;
mod rows;
mod span;
mod typed_span;

pub use address::{AddressText, cell_text, column_text, row_text};
pub use cell::Cell;
pub use columns::{column_at, header};
pub use decimal::{DecimalText, decimal_text};
pub use format::Format;
pub use list::{CellList, PlaceList, SpanList};
pub use reading::{NotAnAddress, count_dots, read_cell, read_span};
pub use reference::{Axis, Ref};
pub use rows::{cell_below, count_below, row_below, rows_behind, rows_down};
pub use span::Span;
pub use typed_span::{cell_in, span_in};

/// How many rows the sheet has (Release 2 manual).
pub const ROWS: u16 = 8192;

/// The last row, counted from 0.
pub const LAST_ROW: u16 = 8191;

/// How many columns the sheet has (Release 2 manual).
pub const COLUMNS: u16 = 256;

/// The last column, counted from 0.
pub const LAST_COLUMN: u8 = 255;
