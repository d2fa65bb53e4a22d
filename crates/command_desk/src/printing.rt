// What the commands on reports keep.
ghost use Rattle.std.specs.Prelude.{◌≡◌, IfOk};
ghost use Rattle.command_desk.specs.Printing.{default_settings, nothing_to_print};

use grid_address::Span;
use lics_text::{Memory, Text};
use outside_world::FileName;
use print_report::PrintSettings;
use std::alloc::Global;

/// What the commands on reports keep: the range that is printed, the file that it is written to, and how its pages are
/// laid out. No worksheet file holds it, and no edit of the sheet changes it (this project's choice).
#[derive(Drop)]
pub struct PrintDesk {
    pub range: Option<Span>,
    pub file: Option<FileName>,
    pub set: PrintSettings,
}

// How pages are laid out before anything is set.
fn default_settings(alloc: Global) -> Result<PrintSettings, Memory>
    ensures { IfOk result (λ set. set ≡ default_settings) }
{
    Ok(PrintSettings {
        header: Text::copy_of(alloc, b"")?,
        footer: Text::copy_of(alloc, b"")?,
        left: 4,
        right: 76,
        top: 2,
        bottom: 2,
        length: 66,
    })
}

impl PrintDesk {
    /// No range and no file. Pages have 66 lines, two empty ones at the head and at the foot, and margins at 4 and 76
    /// bytes, and neither a header nor a footer.
    pub fn new(alloc: Global) -> Result<PrintDesk, Memory>
        ensures { IfOk result (λ print. print ≡ nothing_to_print) }
    {
        Ok(PrintDesk {
            range: None,
            file: None,
            set: default_settings(alloc)?,
        })
    }
}
