// Pages of a screen's lines, which two of the host's displays write.
ghost use Rattle.std.specs.Prelude.{◌≤◌, ◌+◌, None, length};
ghost use Rattle.screen_show.specs.declared.display.DisplayKind.TheVariants.{Pages};

use crate::{Display, DisplayKind, Recorder, Screen};
use outside_world::Failed;
use std::io::Write;

const LINE_END: u8 = b'\n';

// A page of a screen's lines: 25 of 80 bytes, each followed by a line feed, and then a line of four dashes.
#[derive(Drop)]
struct Page {
    bytes: [u8; 2030],
}

impl Page {
    // A page whose lines hold the byte 0.
    fn empty() -> Page {
        let mut bytes = [0; 2030];
        for row in 1..26usize {
            bytes[row * 81 - 1] = LINE_END;
        }
        bytes[2025..].copy_from_slice(b"----\n");
        Page { bytes }
    }

    // Puts bytes into a line, from a column on.
    fn put(&mut self, row: u8, col: u8, bytes: &[u8])
        requires row_in { row ≤ 24 }
        requires col_in { col + length bytes.now ≤ 80 }
    {
        let from = row as usize * 81 + col as usize;
        self.bytes[from..from + bytes.len()].copy_from_slice(bytes);
    }

    // Writes the page.
    fn write<W: Write>(&self, writer: &mut W) -> Result<(), Failed> {
        match writer.write_all(&self.bytes) {
            Ok(()) => Ok(()),
            Err(_) => Err(Failed),
        }
    }
}

// Writes a screen as a page.
pub(crate) fn write_page<W: Write>(writer: &mut W, screen: &Screen) -> Result<(), Failed> {
    let mut page = Page::empty();
    for row in 0..25u8 {
        page.put(row, 0, screen.line(row));
    }
    page.write(writer)
}

/// A display that writes each frame as a page to a writer, as standard output: 25 lines of 80 bytes,
/// each followed by a line feed, and then a line of four dashes. It tells nothing of what is shown.
#[derive(Drop)]
pub struct PageDisplay<W: Write + Drop> {
    writer: W,
    // The page of what is shown: a frame changes few lines of it.
    page: Page,
    faults: u64,
}

impl<W: Write + Drop> PageDisplay<W> {
    /// A display on this writer.
    pub fn new(writer: W) -> PageDisplay<W> {
        PageDisplay {
            writer,
            page: Page::empty(),
            faults: 0,
        }
    }
}

impl<W: Write + Drop> Display for PageDisplay<W> {
    ghost seen = { λ d. record { kind = Pages; told = None; faults = d.faults } };

    fn kind(&self) -> DisplayKind {
        DisplayKind::Pages
    }

    fn recorder(&self) -> Option<&Recorder> {
        None
    }

    fn put(&mut self, row: u8, col: u8, bytes: &[u8]) -> Result<(), Failed> {
        self.page.put(row, col, bytes);
        Ok(())
    }

    fn done(&mut self) -> Result<(), Failed> {
        let written = self.page.write(&mut self.writer);
        if written.is_err() {
            self.faults = self.faults.saturating_add(1);
        }
        written
    }

    fn close(&mut self) -> Result<(), Failed> {
        Ok(())
    }
}
