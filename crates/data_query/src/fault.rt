// Why a query is refused.
use grid_address::Cell;

/// Why a query is refused: the first row of the input names no fields, a header names none of them, or the output
/// has too few rows for so many records.
#[derive(Clone, Copy)]
pub enum QueryFault {
    NoFieldRow,
    FieldAbsent(Cell),
    OutputFull(u32),
    Memory,
}
