// A sheet with its history, and what the lines do with them.

use crate::stop::Stop;
use crate::words::{Words, sum_of, worksheet_of};
use formula_eval::Tally;
use formula_parts::Scene;
use grid_address::{Cell, Span};
use lics_text::Memory;
use serial_date::Moment;
use sheet_store::{CellState, SavedSheet, Store, Write as Entry, Writes};
use std::alloc::Global;
use std::io::Write;
use std::mem::replace;
use wk1_file::write_parts;
use work_sheet::Worksheet;

// The pointer in C2, and noon and after on 1 June 1987.
const SCENE: Scene = Scene {
    cursor: Cell { row: 1, col: 2 },
    now: Moment {
        day: Some(31_929),
        second: 50_700,
    },
};

/// A sheet with its history, and the count of its evaluations.
#[derive(Drop)]
pub struct UndoDesk {
    sheet: Worksheet,
    tally: Tally,
}

// Writes of the contents and the formats of all cells.
fn writes_of(cells: &Store) -> Result<Writes, Stop> {
    let mut writes = Writes::new(cells.alloc());
    let used = cells.cells_in(Span::whole())?;
    for cell in used.as_slice() {
        if let Some(state) = cells.get(*cell) {
            writes.push(write_of(*cell, state)?)?;
        }
    }
    Ok(writes)
}

// A write of a cell's content and format.
fn write_of(cell: Cell, state: &CellState) -> Result<Entry, Memory> {
    Ok(Entry {
        cell,
        content: state.copied_content()?,
        format: Some(state.format()),
    })
}

impl UndoDesk {
    /// A fresh sheet, and no state is kept.
    pub fn new(alloc: Global) -> UndoDesk {
        UndoDesk {
            sheet: Worksheet::new(alloc),
            tally: Tally::new(),
        }
    }

    // Begins anew.
    fn restart(&mut self, alloc: Global) -> Result<&'static [u8], Stop> {
        drop(replace(self, UndoDesk::new(alloc)));
        Ok(b"")
    }

    // A command begins.
    fn begin(&mut self) -> Result<&'static [u8], Stop> {
        self.sheet.begin()?;
        Ok(b"begun ")
    }

    // The command that was begun ends: whether its state is kept, where there is one.
    fn end(&mut self) -> Result<&'static [u8], Stop> {
        if !self.sheet.has_begun() {
            return Ok(b"none ");
        }
        if self.sheet.end()? {
            Ok(b"kept ")
        } else {
            Ok(b"alike ")
        }
    }

    // The last state that is kept is put back, where there is one.
    fn undo(&mut self) -> Result<&'static [u8], Stop> {
        if self.sheet.undo()? {
            Ok(b"undone ")
        } else {
            Ok(b"none ")
        }
    }

    // Recalculates.
    fn calc(&mut self) -> Result<&'static [u8], Stop> {
        self.sheet.calc(&SCENE, &mut self.tally)?;
        Ok(b"")
    }

    // The sheet of a file takes the place of this one.
    fn restore(&mut self, saved: SavedSheet) -> Result<&'static [u8], Stop> {
        self.sheet.take_saved(saved)?;
        Ok(b"")
    }

    // Writes the cells of a file into the sheet.
    fn enter(&mut self, saved: SavedSheet) -> Result<&'static [u8], Stop> {
        let writes = writes_of(&saved.store)?;
        match self.sheet.write(&writes) {
            Ok(()) => Ok(b""),
            Err(_) => Err(Stop::Line),
        }
    }

    // Erases a span.
    fn erase(&mut self, span: Span) -> Result<&'static [u8], Stop> {
        match self.sheet.erase(span) {
            Ok(()) => Ok(b""),
            Err(_) => Err(Stop::Line),
        }
    }

    // Does what a line says, and tells what came of it.
    fn follow(&mut self, alloc: Global, line: &[u8]) -> Result<&'static [u8], Stop> {
        match line {
            [b':'] => self.restart(alloc),
            [b'('] => self.begin(),
            [b')'] => self.end(),
            [b'<'] => self.undo(),
            [b'!'] => self.calc(),
            [b'=', digits @ ..] => self.restore(worksheet_of(alloc, digits)?),
            [b'+', digits @ ..] => self.enter(worksheet_of(alloc, digits)?),
            [b'-', span @ ..] => self.erase(Words::of(span).span()?),
            _ => Err(Stop::Line),
        }
    }

    // Tells how many states are kept, the count of evaluations, and the marks.
    fn tell(&self, out: &mut Vec<u8>) -> Result<(), Stop> {
        write!(out, "{} {}", self.sheet.kept_count(), self.tally.count())?;
        if self.sheet.is_circular() {
            out.extend_from_slice(b" CIRC")?;
        }
        if self.sheet.is_stale() {
            out.extend_from_slice(b" CALC")?;
        }
        out.push(b'\n')?;
        Ok(())
    }

    /// Answers a line.
    pub fn answer(&mut self, alloc: Global, line: &[u8], answer: &mut Vec<u8>) -> Result<(), Stop> {
        if line == b"?".as_slice() {
            let sheet = &self.sheet;
            let file = write_parts(alloc, sheet.cells(), sheet.names(), *sheet.settings())?;
            writeln!(answer, "{:016x}", sum_of(file.as_slice()))?;
            return Ok(());
        }
        let word = self.follow(alloc, line)?;
        answer.extend_from_slice(word)?;
        self.tell(answer)
    }
}
