// What ERROR tells of a macro's fault.
ghost use Rattle.std.specs.Prelude.{◌≡◌, ◌≤◌, length};
ghost use Rattle.session_core.specs.Faults.{fault_message, words_of};

use grid_address::{Cell, cell_text};
use lics_text::Line;
use macro_text::MacroFault;

// The words of a fault, with its number.
fn words_of(fault: MacroFault) -> &'static [u8]
    ensures words { result.now ≡ words_of fault }
    ensures short { length result.now ≤ 18 }
{
    match fault {
        MacroFault::NoSuchMacro => b"Macro fault M1 at ",
        MacroFault::TooDeep => b"Macro fault M2 at ",
        MacroFault::UnknownWord => b"Macro fault M3 at ",
        MacroFault::BadArgument => b"Macro fault M4 at ",
        MacroFault::NotText => b"Macro fault M5 at ",
    }
}

/// What ERROR tells of a macro's fault: its number, and the cell of the word at fault, or the pointer's where no macro
/// began (this project's choice of words).
pub(crate) fn fault_message(fault: MacroFault, cell: Cell) -> Line
    ensures { result ≡ fault_message fault cell }
{
    let mut message = Line::new();
    message.put_all(words_of(fault));
    message.put_all(cell_text(cell).bytes());
    message
}
