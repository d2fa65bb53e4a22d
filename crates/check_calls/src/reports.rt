// A worksheet, and what the lines do with it.

use crate::stop::Stop;
use crate::words::{Words, sum_of, worksheet_of, write_bytes};
use grid_address::{Format, Span};
use outside_world::ByteBuffer;
use print_report::{PrintFault, PrintSettings, PrintedSheet, report};
use range_names::Names;
use serial_date::Moment;
use sheet_gen::generate;
use sheet_store::{SavedSheet, Settings, Store};
use std::alloc::Global;
use std::io::Write;
use std::mem::replace;

/// A worksheet.
#[derive(Drop)]
pub struct ReportDesk {
    saved: SavedSheet,
}

// The most rows of a worksheet that is generated.
const MOST_GENERATED: u16 = 8000;

// The last day of the calendar.
const LAST_DAY: u32 = 73_050;

// A day; 0 stands for none.
fn moment_in(words: &mut Words) -> Result<Moment, Stop> {
    match u32::try_from(words.number()) {
        Ok(0) => Ok(Moment::unknown()),
        Ok(day) if day <= LAST_DAY => Ok(Moment {
            day: Some(day),
            second: 0,
        }),
        _ => Err(Stop::Line),
    }
}

// Margins, lines and texts.
fn settings_in(alloc: Global, words: &mut Words) -> Result<PrintSettings, Stop> {
    let left = words.byte()?;
    let right = words.byte()?;
    let top = words.byte()?;
    let bottom = words.byte()?;
    let length = words.byte()?;
    let header = words.text(alloc)?;
    let footer = words.text(alloc)?;
    Ok(PrintSettings {
        header,
        footer,
        left,
        right,
        top,
        bottom,
        length,
    })
}

// Writes what a report holds, or why there is none.
fn write_report<W: Write>(
    made: Result<ByteBuffer, PrintFault>,
    is_whole: bool,
    out: &mut W,
) -> Result<(), Stop> {
    match made {
        Ok(list) if is_whole => {
            write_bytes(list.bytes(), out)?;
            out.write_all(b"\n")?;
        }
        Ok(list) => writeln!(out, "{} {:016x}", list.len(), sum_of(list.bytes()))?,
        Err(PrintFault::PageTooSmall) => out.write_all(b"page too small\n")?,
        Err(PrintFault::TooLong) => out.write_all(b"too long\n")?,
        Err(PrintFault::Memory) => return Err(Stop::Memory),
    }
    Ok(())
}

impl ReportDesk {
    /// An empty worksheet.
    pub fn new(alloc: Global) -> ReportDesk {
        ReportDesk {
            saved: SavedSheet {
                store: Store::new(alloc),
                names: Names::new(alloc),
                settings: Settings::fresh(),
            },
        }
    }

    // The worksheet of a file takes the place of this one.
    fn take(&mut self, alloc: Global, digits: &[u8]) -> Result<(), Stop> {
        let saved = worksheet_of(alloc, digits)?;
        drop(replace(&mut self.saved, saved));
        Ok(())
    }

    // How many cells have the sheet's format.
    fn plain_cells(&self) -> Result<usize, Stop> {
        let mut count: usize = 0;
        for cell in self.saved.store.cells_in(Span::whole())?.as_slice() {
            if let Some(state) = self.saved.store.get(*cell)
                && state.format() == Format::DEFAULT
            {
                count = count.saturating_add(1);
            }
        }
        Ok(count)
    }

    // Takes the cells of a generated worksheet, and tells how many of them have the sheet's format.
    fn generate<W: Write>(
        &mut self,
        alloc: Global,
        digits: &[u8],
        out: &mut W,
    ) -> Result<(), Stop> {
        let Ok(rows) = u16::try_from(Words::of(digits).number()) else {
            return Err(Stop::Line);
        };
        if rows < 1 || rows > MOST_GENERATED {
            return Err(Stop::Line);
        }
        self.saved.store = generate(alloc, rows)?.store;
        writeln!(out, "{}", self.plain_cells()?)?;
        Ok(())
    }

    // Prints a report of a range.
    fn print<W: Write>(
        &self,
        alloc: Global,
        line: &[u8],
        is_whole: bool,
        out: &mut W,
    ) -> Result<(), Stop> {
        let mut words = Words::of(line);
        let range = words.span()?;
        let now = moment_in(&mut words)?;
        let set = settings_in(alloc, &mut words)?;
        let sheet = PrintedSheet {
            store: &self.saved.store,
            names: &self.saved.names,
            settings: &self.saved.settings,
        };
        write_report(report(alloc, range, &set, sheet, &now), is_whole, out)
    }

    /// Answers a line.
    pub fn answer(&mut self, alloc: Global, line: &[u8], answer: &mut Vec<u8>) -> Result<(), Stop> {
        match line {
            [b'=', digits @ ..] => self.take(alloc, digits),
            [b'g', b' ', rows @ ..] => self.generate(alloc, rows, answer),
            [b'p', b' ', words @ ..] => self.print(alloc, words, false, answer),
            [b'q', b' ', words @ ..] => self.print(alloc, words, true, answer),
            _ => Err(Stop::Line),
        }
    }
}
