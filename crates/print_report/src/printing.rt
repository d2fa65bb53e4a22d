// The report of a range.
ghost use Rattle.std.specs.Prelude.{◌≡◌, ◌≤◌, false};
ghost use Rattle.print_report.specs.Jobs.{sheet_of};
ghost use Rattle.print_report.specs.Pages.{is_too_small, page_rows, printing, report, Gives};

use crate::bands::columns_of;
use crate::job::Job;
use crate::pages::put_bands;
use crate::{PrintFault, PrintSettings, PrintedSheet};
use grid_address::Span;
use outside_world::ByteBuffer;
use serial_date::Moment;
use std::alloc::Global;

// Whether a page has no room for a row, or for a byte.
fn is_too_small(set: &PrintSettings) -> bool
    ensures { result ≡ is_too_small set.now }
{
    u32::from(set.length) <= u32::from(set.top) + u32::from(set.bottom) + 6 || set.right <= set.left
}

// How many rows of the range a page has.
fn page_rows(set: &PrintSettings) -> u8
    requires { is_too_small set.now ≡ false }
    ensures rows { result ≡ page_rows set.now }
    ensures some { 1 ≤ result }
{
    set.length - set.top - set.bottom - 6
}

/// The report of a range, in bytes. The range's columns that aren't hidden are cut into bands that fit between the
/// margins, each of at least one column, which is cut where it doesn't fit. The bands' rows are printed on pages one
/// after another, as the settings say. A row's line is its cells as they are shown, where texts run on over blank
/// cells of the band. The header and the footer are up to three parts, cut at `|`, at the left, in the middle and at
/// the right; `#` stands for the page's number and `@` for the day. A line loses the blanks at its end, has those of
/// the margin before it where it isn't empty, and ends with CR LF. A range whose columns are all hidden has no page.
/// `PageTooSmall` comes exactly where `top`, `bottom` and 6 are at least `length`, or `right` is at most `left`;
/// otherwise `TooLong` comes exactly where the report would have more than 67,108,864 bytes. (This project's choice,
/// after the manual.)
pub fn report<'a>(
    alloc: Global,
    range: Span,
    set: &'a PrintSettings,
    sheet: PrintedSheet<'a>,
    now: &Moment,
) -> Result<ByteBuffer, PrintFault>
    ensures { Gives result (report (printing set.now (sheet_of sheet.entry) range now.now.day)) }
{
    if is_too_small(set) {
        return Err(PrintFault::PageTooSmall);
    }
    let job = Job {
        set,
        sheet,
        range,
        moment: *now,
    };
    let mut out = ByteBuffer::new(alloc);
    let columns = columns_of(&sheet, range);
    put_bands(&mut out, &job, columns.bytes(), page_rows(set))?;
    Ok(out)
}
