// What a record says.
use crate::ColumnMarks;
use grid_address::{Cell, Format, Span};
use lics_text::{ByteList, LabelPrefix, Text};
use sheet_store::{CellState, Order};

/// What a record says of the sheet.
#[derive(Drop)]
pub enum Entry {
    /// Nothing that the sheet keeps.
    Nothing,
    Automatic(bool),
    Order(Order),
    /// The pointer's cell, the global format and the global width.
    Window(Cell, Format, u8),
    /// A column and its own width.
    Width(u8, u8),
    /// Whether each column is hidden.
    Hidden(ColumnMarks),
    Name(ByteList<15>, Span),
    /// A cell that is no formula's, or a formula that stands for a number that is ERR or NA.
    State(Cell, CellState),
    /// A cell's formula, to which a text may follow.
    Formula(Cell, CellState),
    /// The text that is a formula's value.
    Text(Cell, Text),
    Protection(bool),
    Prefix(LabelPrefix),
    Passes(u8),
}
