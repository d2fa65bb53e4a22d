// A line of the screen while it is painted. What is not painted yet is blank.
ghost use Rattle.std.specs.Prelude.{◌≡◌, ◌≤◌, ◌+◌, ◌-◌, ◌++◌, [], length, take, replicate, map, true, false};
ghost use Rattle.lics_text.specs.Ascii as ascii;
ghost use Rattle.cell_format.specs.Numbers.{shown_number};
ghost use Rattle.screen_layout.specs.Lines.{shown_line};
ghost use Rattle.shown_cells.specs.Cells.{shown_byte};

use cell_format::put_plain;
use fixed_value::Fixed;
use grid_address::Format;
use shown_cells::shown_byte;
use std::marker::Model;

#[derive(Drop)]
pub struct PaintedLine {
    bytes: [u8; 80],
    len: usize,
}

impl Model for PaintedLine {
    ghost use Rattle.std.specs.Prelude.{◌≡◌, ℕ, List, ◌≤◌, ◌-◌, take, drop, replicate};
    ghost use Rattle.lics_text.specs.Ascii as ascii;

    ghost Value = { List ℕ };

    ghost view = { λ a. take a.len a.bytes };

    ghost invariant = { λ a. (a.len ≤ 80) × (drop a.len a.bytes ≡ replicate (80 - a.len) ascii.space) };
}

impl PaintedLine {
    /// A line on which nothing is painted yet.
    pub fn new() -> PaintedLine
        ensures { result ≡ [] }
    {
        PaintedLine {
            bytes: [b' '; 80],
            len: 0,
        }
    }

    /// Up to which column it is painted.
    pub fn len(&self) -> usize
        ensures len { result ≡ length self.now }
        ensures within { length self.now ≤ 80 }
    {
        self.len
    }

    /// Adds bytes up to a column.
    pub fn add(&mut self, column: usize, bytes: &[u8])
        requires { column ≤ 80 }
        ensures { self.new ≡ self.old ++ take (column - length self.old) bytes.now }
    {
        let from = self.len;
        if from < column && !bytes.is_empty() {
            let count = bytes.len().min(column - from);
            self.bytes[from..from + count].copy_from_slice(&bytes[..count]);
            self.len = from + count;
        }
    }

    /// Adds a number in a width for which the line has room, where it goes into its cell at once. Whether it did; where
    /// it didn't, the line is as it was.
    pub fn add_plain(&mut self, number: Fixed, format: Format, width: u8) -> bool
        requires { length self.old + width ≤ 80 }
        ensures shown { result ≡ true → self.new ≡ self.old ++ shown_number number format.0 width }
        ensures same { result ≡ false → self.new ≡ self.old }
        ensures size { result ≡ true → length (shown_number number format.0 width) ≡ width }
    {
        let from = self.len;
        let end = from + usize::from(width);
        if put_plain(number, format, &mut self.bytes[from..end]) {
            self.len = end;
            return true;
        }
        false
    }

    /// Adds blanks up to a column.
    pub fn fill(&mut self, column: usize)
        requires { column ≤ 80 }
        ensures { self.new ≡ self.old ++ replicate (column - length self.old) ascii.space }
    {
        if self.len < column {
            self.len = column;
        }
    }

    /// The whole line as it is shown, with blanks where nothing is painted.
    pub fn finish(self) -> [u8; 80]
        ensures { result ≡ shown_line self }
    {
        shown(&self.bytes)
    }
}

// A whole line as it is shown.
fn shown(bytes: &[u8; 80]) -> [u8; 80]
    ensures { result ≡ map shown_byte bytes.now }
{
    let mut line = *bytes;
    for column in 0..80 {
        line[column] = shown_byte(line[column]);
    }
    line
}
