ghost use Rattle.std.specs.Prelude.{◌≡◌, ◌<◌, ◌≤◌, Some, length, slice_get, slice_index_or, slice_set, [], ◌+◌};
ghost use Rattle.screen_show.specs.Changes.{Unchanged};
ghost use Rattle.screen_show.specs.Screen.{IsScreen, empty_screen, put_in_screen};

use crate::LineSet;
use std::marker::Model;

/// The bytes of a screen: 25 lines of 80.
#[derive(Clone, Copy)]
pub struct Screen {
    lines: [[u8; 80]; 25],
}

impl Model for Screen {
    ghost use Rattle.std.specs.Prelude.{ℕ, List};

    ghost Value = { List (List ℕ) };

    ghost view = { λ g. g.lines };

    ghost use Rattle.screen_show.specs.Screen.{IsScreen};

    ghost invariant = { λ g. IsScreen g.lines };

    ghost inverse = { λ v. record { lines = v } };
}

impl Screen {
    /// A screen that holds the byte 0 everywhere, which none that is painted holds.
    pub fn empty() -> Screen
        ensures { result ≡ empty_screen }
    {
        Screen {
            lines: [[0; 80]; 25],
        }
    }

    /// A screen has 25 lines of 80 bytes. It does nothing, and is called for its clause.
    pub fn is_whole(&self)
        ensures { IsScreen self.now }
    {
        let _lines = &self.lines;
    }

    /// A line of 80 bytes, of the lines 0 to 24.
    pub fn line(&self, row: u8) -> &[u8]
        requires { row ≤ 24 }
        ensures line { slice_get self.now row ≡ Some result.now }
        ensures width { length result.now ≡ 80 }
        ensures screen { IsScreen self.now }
    {
        &self.lines[row as usize]
    }

    /// Puts bytes into a line, from a column on.
    pub fn put(&mut self, row: u8, col: u8, bytes: &[u8])
        requires row_in { row ≤ 24 }
        requires col_in { col + length bytes.now ≤ 80 }
        ensures put { self.new ≡ put_in_screen row col bytes.now self.old }
        ensures screen { IsScreen self.old }
    {
        let line = &mut self.lines[row as usize];
        let from = col as usize;
        line[from..from + bytes.len()].copy_from_slice(bytes);
    }

    /// Sets a whole line.
    pub fn set_line(&mut self, row: u8, line: [u8; 80])
        requires { row ≤ 24 }
        ensures { self.new ≡ slice_set self.old row line }
    {
        self.lines[row as usize] = line;
    }

    /// Becomes another screen, which has all lines in common with this one that aren't in the set: those of the set
    /// alone are copied.
    pub fn copy_lines(&mut self, from: &Screen, lines: &LineSet)
        requires { Unchanged lines.now self.old from.now }
        ensures { self.new ≡ from.now }
    {
        self.is_whole();
        from.is_whole();
        let mut row = lines.next_from(0);
        while row < 25 {
            self.copy_line(row, from);
            row = lines.next_from(row + 1);
        }
    }

    // Copies one line of another screen.
    fn copy_line(&mut self, row: u8, from: &Screen)
        requires { row ≤ 24 }
        ensures { self.new ≡ slice_set self.old row (slice_index_or from.now row []) }
    {
        self.lines[row as usize] = from.lines[row as usize];
    }
}
