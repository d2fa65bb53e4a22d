ghost use Rattle.std.specs.Prelude.{None, ◌≤◌};
ghost use Rattle.screen_show.specs.declared.display.DisplayKind.TheVariants.{Ansi};

use crate::{Display, DisplayKind, Recorder};
use outside_world::Failed;
use std::io::Write;

const ESCAPE: u8 = 27;

/// A display that writes each run of changed bytes to a terminal: ESC `[`, the line, `;`, the column,
/// `H`, both counted from 1, and then the bytes. It tells nothing of what is shown.
#[derive(Drop)]
pub struct AnsiDisplay<W: Write + Drop> {
    writer: W,
    faults: u64,
}

impl<W: Write + Drop> AnsiDisplay<W> {
    /// A display on this writer.
    pub fn new(writer: W) -> AnsiDisplay<W> {
        AnsiDisplay { writer, faults: 0 }
    }
}

// The two digits of a number below 100, of which the first may be missing.
fn digits(number: u8) -> ([u8; 2], usize)
    requires { number ≤ 99 }
{
    if number >= 10 {
        ([b'0' + number / 10, b'0' + number % 10], 0)
    } else {
        ([b' ', b'0' + number], 1)
    }
}

// Writes where a run stands, and its bytes.
fn write_run<W: Write>(writer: &mut W, row: u8, col: u8, bytes: &[u8]) -> Result<(), Failed>
    requires row_in { row ≤ 24 }
    requires col_in { col ≤ 80 }
{
    let (line, line_from) = digits(row + 1);
    let (column, column_from) = digits(col + 1);
    for piece in [
        &[ESCAPE, b'['][..],
        &line[line_from.min(1)..],
        b";",
        &column[column_from.min(1)..],
        b"H",
        bytes,
    ] {
        if writer.write_all(piece).is_err() {
            return Err(Failed);
        }
    }
    Ok(())
}

impl<W: Write + Drop> Display for AnsiDisplay<W> {
    ghost seen = { λ d. record { kind = Ansi; told = None; faults = d.faults } };

    fn kind(&self) -> DisplayKind {
        DisplayKind::Ansi
    }

    fn recorder(&self) -> Option<&Recorder> {
        None
    }

    fn put(&mut self, row: u8, col: u8, bytes: &[u8]) -> Result<(), Failed> {
        let written = write_run(&mut self.writer, row, col, bytes);
        if written.is_err() {
            self.faults = self.faults.saturating_add(1);
        }
        written
    }

    fn done(&mut self) -> Result<(), Failed> {
        Ok(())
    }

    fn close(&mut self) -> Result<(), Failed> {
        Ok(())
    }
}
