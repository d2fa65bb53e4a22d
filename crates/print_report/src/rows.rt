// The rows of a page.
ghost use Rattle.std.specs.Prelude.{◌≡◌, ◌≤◌, ◌<◌, ◌++◌, ◌==◌, [], length, map, take, OnOk};
ghost use Rattle.std.specs.List.{list_all};
ghost use Rattle.cell_format.specs.Labels.{masked};
ghost use Rattle.print_report.specs.Bands.{wide};
ghost use Rattle.print_report.specs.Jobs.{printed_by, sheet_of};
ghost use Rattle.print_report.specs.Lines.{line};
ghost use Rattle.print_report.specs.Pages.{beside, page_width, row_line, rows};

use crate::bands::width_in;
use crate::cells::{Row, add_cell};
use crate::job::Job;
use crate::lines::{put_line, put_line_end};
use crate::{PrintSettings, PrintedSheet};
use cell_format::mask;
use grid_address::{Cell, ROWS};
use lics_text::Memory;
use outside_world::ByteBuffer;

// Puts the columns of a band beside each other into an empty line.
fn put_beside(line: &mut Row, sheet: &PrintedSheet, row: u16, band: &[u8])
    requires row { row < ROWS }
    requires empty { line.old ≡ [] }
    requires room { wide (sheet_of sheet.now) band.now ≤ 255 }
    ensures { line.new ≡ beside (sheet_of sheet.now) row band.now [] }
{
    let mut over: &[u8] = b"";
    for at in 0..band.len() {
        let col = band[at];
        over = add_cell(line, sheet, Cell { row, col }, width_in(sheet, col), over);
    }
}

// Whether each byte is printed as it is.
fn are_plain(bytes: &[u8]) -> bool
    ensures { result ≡ list_all (λ b. masked b == b) bytes.now }
{
    bytes.iter().all(|byte| mask(*byte) == *byte)
}

// The bytes as they are printed.
fn masked(bytes: &[u8]) -> Row
    requires { length bytes.now ≤ 255 }
    ensures { result ≡ map masked bytes.now }
{
    let mut row = Row::new();
    for at in 0..bytes.len() {
        row.put_all(&[mask(bytes[at])]);
    }
    row
}

// The bytes up to a width.
fn cut(bytes: &[u8], width: usize) -> &[u8]
    ensures cut { result.now ≡ take width bytes.now }
    ensures size { length result.now ≤ length bytes.now }
{
    bytes.split_at(width.min(bytes.len())).0
}

// Adds a line of bytes, cut at the page's width, in bytes that can be printed.
fn put_cut(out: &mut ByteBuffer, set: &PrintSettings, bytes: &[u8]) -> Result<(), Memory>
    requires { length bytes.now ≤ 255 }
    ensures { OnOk result
        (out.new ≡ out.old ++ line set.now.left (map masked (take (page_width set.now) bytes.now))) }
{
    let bytes = cut(bytes, usize::from(set.right.saturating_sub(set.left)));
    if are_plain(bytes) {
        put_line(out, set.left, bytes)
    } else {
        put_line(out, set.left, masked(bytes).bytes())
    }
}

// Adds the line of a row, and an empty one below the range.
fn put_row(out: &mut ByteBuffer, job: &Job, band: &[u8], row: u32) -> Result<(), Memory>
    requires { wide (sheet_of job.now.sheet) band.now ≤ 255 }
    ensures { OnOk result (out.new ≡ out.old ++ row_line (printed_by job.now) band.now row) }
{
    if row > u32::from(job.range.last.row) {
        return put_line_end(out);
    }
    let mut line = Row::new();
    put_beside(&mut line, &job.sheet, row as u16, band);
    put_cut(out, job.set, line.bytes())
}

/// Adds so many rows from one on.
pub fn put_rows(
    out: &mut ByteBuffer,
    job: &Job,
    band: &[u8],
    row: u32,
    count: u8,
) -> Result<(), Memory>
    requires room { wide (sheet_of job.now.sheet) band.now ≤ 255 }
    requires row { row ≤ 4000000 }
    ensures { OnOk result (out.new ≡ out.old ++ rows (printed_by job.now) band.now row count) }
{
    for at in 0..count {
        put_row(out, job, band, row + u32::from(at))?;
    }
    Ok(())
}
