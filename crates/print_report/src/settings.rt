// How a report is printed, and why it isn't.
use lics_text::{Memory, Text};

/// How a report is printed. The lines of a page are `left` blanks and the bytes up to the column `right`. A page has
/// `length` lines: `top` empty ones, the header, two empty ones, the rows, two empty ones, the footer and `bottom`
/// empty ones (this project's choice, after the manual).
#[derive(Drop)]
pub struct PrintSettings {
    pub header: Text,
    pub footer: Text,
    pub left: u8,
    pub right: u8,
    pub top: u8,
    pub bottom: u8,
    pub length: u8,
}

/// Why there is no report, in the order in which the causes are tried.
#[derive(Clone, Copy)]
pub enum PrintFault {
    /// The page has no room for a row, or none for a byte beside the margin.
    PageTooSmall,
    /// The report would have more than 67,108,864 bytes.
    TooLong,
    Memory,
}

impl From<Memory> for PrintFault {
    ghost use Rattle.std.specs.Prelude.{◌≡◌};
    ghost use Rattle.print_report.specs.declared.settings.PrintFault.TheVariants as fault;

    ghost from_gives = { λ _ e. e ≡ fault.Memory };

    fn from(_memory: Memory) -> PrintFault {
        PrintFault::Memory
    }
}
