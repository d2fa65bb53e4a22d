// Pages, and the bands of a report.
ghost use Rattle.std.specs.Prelude.{◌≡◌, ◌≤◌, ◌<◌, ◌+◌, ◌*◌, ◌++◌, length, OnOk};
ghost use Rattle.print_report.specs.inner.Adding.{Adds};
ghost use Rattle.print_report.specs.Bands.{bands, wide};
ghost use Rattle.print_report.specs.Jobs.{printed_by, sheet_of};
ghost use Rattle.print_report.specs.Pages.{banded, page, page_count, page_rows, page_width, pages, running_line};

use crate::PrintFault;
use crate::bands::band_len;
use crate::job::Job;
use crate::lines::put_empty_lines;
use crate::rows::put_rows;
use crate::running::put_running;
use lics_text::Memory;
use outside_world::ByteBuffer;

// The most bytes of a report.
const LIMIT: usize = 67_108_864;

// Adds the line of a page's head or foot.
fn put_edge(out: &mut ByteBuffer, job: &Job, number: u64, text: &[u8]) -> Result<(), Memory>
    ensures { OnOk result (out.new ≡ out.old ++ running_line (printed_by job.now) number text.now) }
{
    let set = job.set;
    let width = set.right.saturating_sub(set.left);
    put_running(out, set.left, width, number, job.moment.day, text)
}

// Adds a page.
fn put_page(
    out: &mut ByteBuffer,
    job: &Job,
    band: &[u8],
    number: u64,
    row: u32,
    rows: u8,
) -> Result<(), Memory>
    requires rows { rows ≡ page_rows job.now.set.now }
    requires room { wide (sheet_of job.now.sheet) band.now ≤ 255 }
    requires row { row ≤ 4000000 }
    ensures { OnOk result (out.new ≡ out.old ++ page (printed_by job.now) band.now number row) }
{
    let set = job.set;
    put_empty_lines(out, set.top)?;
    put_edge(out, job, number, set.header.bytes())?;
    put_empty_lines(out, 2)?;
    put_rows(out, job, band, row, rows)?;
    put_empty_lines(out, 2)?;
    put_edge(out, job, number, set.footer.bytes())?;
    put_empty_lines(out, set.bottom)?;
    Ok(())
}

// Adds so many pages of a band, from the range's first row on.
fn put_pages(
    out: &mut ByteBuffer,
    job: &Job,
    band: &[u8],
    number: u64,
    rows: u8,
    count: u16,
) -> Result<(), PrintFault>
    requires rows { rows ≡ page_rows job.now.set.now }
    requires room { wide (sheet_of job.now.sheet) band.now ≤ 255 }
    requires number { number ≤ 4000000 }
    requires count { count ≤ 8446 }
    requires size { length out.old ≤ 67108864 }
    ensures { Adds out.old (pages (printed_by job.now) band.now number job.now.range.first.row count) out.new result }
{
    let mut row = u32::from(job.range.first.row);
    for at in 0..count {
        let page = number + u64::from(at);
        match put_page(out, job, band, page, row, rows) {
            Ok(()) => {}
            Err(Memory) => return Err(PrintFault::Memory),
        }
        if out.len() > LIMIT {
            return Err(PrintFault::TooLong);
        }
        row += u32::from(rows);
    }
    Ok(())
}

// How many pages a band has.
fn page_count(job: &Job, rows: u8) -> u16
    requires some { 1 ≤ rows }
    requires rows { rows ≡ page_rows job.now.set.now }
    ensures count { result ≡ page_count (printed_by job.now) }
    ensures few { result ≤ 8446 }
{
    (job.range.height() + u16::from(rows) - 1) / u16::from(rows)
}

/// Adds the pages of all bands of the columns.
pub fn put_bands(
    out: &mut ByteBuffer,
    job: &Job,
    columns: &[u8],
    rows: u8,
) -> Result<(), PrintFault>
    requires some { 1 ≤ rows }
    requires rows { rows ≡ page_rows job.now.set.now }
    requires columns { length columns.now ≤ 256 }
    requires size { length out.old ≤ 67108864 }
    ensures { let all = bands (sheet_of job.now.sheet) (page_width job.now.set.now) columns.now in
        Adds out.old (banded (printed_by job.now) 1 all) out.new result }
{
    let set = job.set;
    let width = set.right.saturating_sub(set.left);
    let count = page_count(job, rows);
    let mut number = 1;
    let mut rest = columns;
    while !rest.is_empty() {
        let (band, behind) = rest.split_at(band_len(&job.sheet, width, rest));
        put_pages(out, job, band, number, rows, count)?;
        number += u64::from(count);
        rest = behind;
    }
    Ok(())
}
