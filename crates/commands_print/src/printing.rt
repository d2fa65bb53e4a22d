// Reports that are written.
ghost use Rattle.std.specs.Prelude.{◌≡◌, ℕ, IfOk, OnErr};
ghost use Rattle.command_desk.specs.Desks.{of_desk};
ghost use Rattle.commands_file.specs.Calls.{shelf_view};
ghost use Rattle.commands_file.specs.Commands.{HasActedOver, HasBrokenIn};
ghost use Rattle.commands_print.specs.Commands.{printed, report_of, reported, written_to};
ghost use Rattle.print_report.specs.Pages.{Gives};

use command_desk::{CommandEnd, Desk};
use commands_file::{end_of_put, put_bytes};
use desk_errors::CommandError;
use formula_parts::Scene;
use grid_address::Span;
use outside_world::{ByteBuffer, Memory, Shelf};
use print_report::{PrintFault, PrintedSheet, report};

// The report of a range of the sheet.
fn report_of(range: Span, desk: &Desk, scene: &Scene) -> Result<ByteBuffer, PrintFault>
    ensures { Gives result (report_of scene.entry.now (of_desk desk.now) range) }
{
    let sheet = PrintedSheet {
        store: desk.sheet.cells(),
        names: desk.sheet.names(),
        settings: desk.sheet.settings(),
    };
    report(
        desk.sheet.alloc(),
        range,
        &desk.print.set,
        sheet,
        &scene.now,
    )
}

// A report is written to the file that is kept for it.
fn write_report<S: Shelf>(
    bytes: &ByteBuffer,
    desk: &Desk,
    shelf: &mut S,
) -> Result<CommandEnd, Memory>
    ensures acted { IfOk result (λ end. (n : ℕ) → HasActedOver
        (written_to desk.now.print.file bytes.now (of_desk desk.now)) end desk.now desk.now n n
        (shelf_view (S.holds shelf.old) (S.faults shelf.old)) (shelf_view (S.holds shelf.new) (S.faults shelf.new))) }
    ensures memory { OnErr result (HasBrokenIn
        (written_to desk.now.print.file bytes.now (of_desk desk.now))
        (shelf_view (S.holds shelf.old) (S.faults shelf.old)) (shelf_view (S.holds shelf.new) (S.faults shelf.new))) }
{
    match &desk.print.file {
        Some(name) => {
            let written = put_bytes(name, bytes, shelf)?;
            Ok(end_of_put(written))
        }
        None => Ok(CommandEnd::Refused(CommandError::InvalidFileName(0))),
    }
}

// The report of a range is written, unless there is none.
fn print_range<S: Shelf>(
    range: Span,
    desk: &Desk,
    shelf: &mut S,
    scene: &Scene,
) -> Result<CommandEnd, Memory>
    ensures acted { IfOk result (λ end. (n : ℕ) → HasActedOver
        (reported (report_of scene.entry.now (of_desk desk.now) range) (of_desk desk.now)) end desk.now desk.now n n
        (shelf_view (S.holds shelf.old) (S.faults shelf.old)) (shelf_view (S.holds shelf.new) (S.faults shelf.new))) }
    ensures memory { OnErr result (HasBrokenIn
        (reported (report_of scene.entry.now (of_desk desk.now) range) (of_desk desk.now))
        (shelf_view (S.holds shelf.old) (S.faults shelf.old)) (shelf_view (S.holds shelf.new) (S.faults shelf.new))) }
{
    match report_of(range, desk, scene) {
        Ok(bytes) => write_report(&bytes, desk, shelf),
        Err(PrintFault::PageTooSmall) => Ok(CommandEnd::Refused(CommandError::PageTooSmall)),
        Err(PrintFault::TooLong) => Ok(CommandEnd::Refused(CommandError::ReportTooLong)),
        Err(PrintFault::Memory) => Err(Memory),
    }
}

/// Prints the range that is kept, and leaves the desk. It is refused by `PrintRangeMissing`, exactly where no range is
/// kept; by `PageTooSmall` and `ReportTooLong`, with the causes of `report`; by `InvalidFileName`, where no file is
/// kept; and by `DiskError`, exactly where the shelf failed. No call is made where another than the last refuses it.
pub fn print<S: Shelf>(desk: &Desk, shelf: &mut S, scene: &Scene) -> Result<CommandEnd, Memory>
    ensures acted { IfOk result (λ end. (n : ℕ) → HasActedOver
        (printed desk.now.print.range scene.entry.now (of_desk desk.now)) end desk.now desk.now n n
        (shelf_view (S.holds shelf.old) (S.faults shelf.old)) (shelf_view (S.holds shelf.new) (S.faults shelf.new))) }
    ensures memory { OnErr result (HasBrokenIn
        (printed desk.now.print.range scene.entry.now (of_desk desk.now))
        (shelf_view (S.holds shelf.old) (S.faults shelf.old)) (shelf_view (S.holds shelf.new) (S.faults shelf.new))) }
{
    match desk.print.range {
        Some(range) => print_range(range, desk, shelf, scene),
        None => Ok(CommandEnd::Refused(CommandError::PrintRangeMissing)),
    }
}
