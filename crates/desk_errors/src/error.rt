// Why a command, an answer or a key is refused.
ghost use Rattle.std.specs.List.{list_all};
ghost use Rattle.std.specs.Prelude.{◌≡◌, ◌≤◌, length, true};
ghost use Rattle.desk_errors.specs.Messages.{is_printed, message_of, number_of, words_of};
ghost use Rattle.lics_text.specs.Bytes.{IsText};

use grid_address::{Cell, Span, decimal_text};
use lics_text::Line;
use range_names::NameFault;

/// Why a command, an answer or a key is refused. An answer is named by its place among the answers, counted from 0.
#[derive(Clone, Copy)]
pub enum CommandError {
    /// The answer is neither an address, nor a span, nor fit to be a name.
    InvalidAddress(usize),
    /// The answer is no number, isn't whole where that is asked, or lies outside the bounds.
    InvalidNumber(usize),
    /// The answer can't be a name.
    InvalidName(NameFault),
    /// The answer could be a name and isn't one.
    NameNotFound(usize),
    /// This cell would be written, and is protected.
    Protected(Cell),
    /// There is no such file.
    FileNotFound,
    /// The file isn't a worksheet file, by the fault of this number.
    FileRefused(u8),
    /// A call of the shelf failed.
    DiskError,
    /// This filled cell would leave the sheet.
    PushedOff(Cell),
    /// This span, or its copy, would leave the sheet.
    OutOfSheet(Span),
    /// The step of a fill is zero.
    ZeroStep,
    /// The span can't be a table, or there was no table yet.
    InvalidTable,
    /// This input cell lies in its table.
    InputInTable(Cell),
    /// A range of the query is missing, or there was no query yet.
    QueryRangeMissing,
    /// This criterion's header names no field.
    FieldNotFound(Cell),
    /// The output has room for fewer rows than these.
    OutputFull(u32),
    /// The answer is no file's name.
    InvalidFileName(usize),
    /// The sort has no range or no primary key.
    SortMissing,
    /// The cell's text is longer than a line.
    LineTooLong,
    /// A key's column isn't in the sort's range.
    KeyOutside,
    /// There is nothing to undo.
    NothingToUndo,
    /// The report has no range.
    PrintRangeMissing,
    /// A page has no room for a row, or for a column.
    PageTooSmall,
    /// The report is longer than a file may be.
    ReportTooLong,
    /// The worksheet's file would be longer than one that is read.
    WorksheetTooLarge,
    /// No memory.
    Memory,
}

impl CommandError {
    // The words of its message, of which the number of a file's fault isn't one.
    fn words(&self) -> &'static [u8]
        ensures words { result.now ≡ words_of self.now }
        ensures short { length result.now ≤ 40 }
        ensures printed { list_all is_printed result.now ≡ true }
    {
        match self {
            CommandError::InvalidAddress(_) => b"Invalid address",
            CommandError::InvalidNumber(_) => b"Invalid number",
            CommandError::InvalidName(_) => b"Invalid name",
            CommandError::NameNotFound(_) => b"Name not found",
            CommandError::Protected(_) => b"Protected cell",
            CommandError::FileNotFound => b"File does not exist",
            CommandError::FileRefused(_) => b"File refused F",
            CommandError::DiskError => b"Disk error",
            CommandError::PushedOff(_) => b"Cells would leave the sheet",
            CommandError::OutOfSheet(_) => b"Range leaves the sheet",
            CommandError::ZeroStep => b"Step is zero",
            CommandError::InvalidTable => b"Invalid table",
            CommandError::InputInTable(_) => b"Input cell in table",
            CommandError::QueryRangeMissing => b"Query range missing",
            CommandError::FieldNotFound(_) => b"Field not found",
            CommandError::OutputFull(_) => b"Output range full",
            CommandError::InvalidFileName(_) => b"Invalid file name",
            CommandError::SortMissing => b"Sort setting missing",
            CommandError::LineTooLong => b"Line too long",
            CommandError::KeyOutside => b"Key outside the range",
            CommandError::NothingToUndo => b"Nothing to undo",
            CommandError::PrintRangeMissing => b"Print range missing",
            CommandError::PageTooSmall => b"Page too small",
            CommandError::ReportTooLong => b"Report too long",
            CommandError::WorksheetTooLarge => b"Worksheet too large",
            CommandError::Memory => b"",
        }
    }

    /// What ERROR tells (this project's choice of words).
    #[tactic(auto, using(crate::proofs::Printed::alone, crate::proofs::Printed::numbered))]
    pub fn message(&self) -> Line
        ensures message { result ≡ message_of self.now }
        ensures text { IsText result }
    {
        let mut message = Line::new();
        message.put_all(self.words());
        if let CommandError::FileRefused(number) = self {
            message.put_all(decimal_text(u64::from(*number)).bytes());
        }
        message
    }
}
