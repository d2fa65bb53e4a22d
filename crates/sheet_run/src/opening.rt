// The start of a run: a fresh sheet, that of the start file, or a generated one.
ghost use Rattle.std.specs.Prelude.{◌≡◌, ℕ, IfOk, List, OnOk, Option};
ghost use Rattle.sheet_undo.specs.Histories.{no_history};
ghost use Rattle.sheet_run.specs.Around.{shelf_of};
ghost use Rattle.sheet_run.specs.inner.Beginning.{or_memory, HasBegunOr, HasLoaded, HasReadFile, HasReadSheet, IsDeskOf, IsGeneratedDesk};
ghost use Rattle.sheet_run.specs.inner.Lent.{told_beside, HasRoom, IsSame};
ghost use Rattle.sheet_run.specs.inner.Opened.{HasOpenedOr};

use crate::displays::prepare;
use crate::options::{Options, RowCount, Start};
use crate::outside::Outside;
use command_desk::Desk;
use outside_world::{ByteBuffer, Clock, FileName, Memory, Shelf, ShelfFault};
use session_core::Session;
use sheet_gen::generate;
use sheet_store::SavedSheet;
use std::alloc::Global;
use wk1_file::{Wk1Fault, read};

/// Why a start file isn't read as a sheet.
#[derive(Clone, Copy)]
pub enum NotRead {
    /// The shelf has no such file.
    NoSuchFile,
    /// Its bytes are no worksheet file, for this fault.
    Faulty(Wk1Fault),
    /// The shelf failed.
    DiskError,
}

/// Why a run doesn't begin.
#[derive(Clone, Copy)]
pub enum NotBegun {
    NotRead(NotRead),
    Memory,
}

// The sheet that bytes are read as.
fn read_sheet(alloc: Global, bytes: &ByteBuffer) -> Result<SavedSheet, NotBegun>
    ensures { HasReadSheet bytes.now result }
{
    match read(alloc, bytes.bytes()) {
        Ok(saved) => Ok(saved),
        Err(Wk1Fault::Memory) => Err(NotBegun::Memory),
        Err(fault) => Err(NotBegun::NotRead(NotRead::Faulty(fault))),
    }
}

// The sheet that a file is read as.
fn read_file<S: Shelf>(
    alloc: Global,
    name: &FileName,
    shelf: &mut S,
) -> Result<SavedSheet, NotBegun>
    ensures { let at = shelf_of S.Shelf in HasReadFile name.now result (at shelf.old) (at shelf.new) }
{
    match shelf.get(name) {
        Ok(Some(bytes)) => read_sheet(alloc, &bytes),
        Ok(None) => Err(NotBegun::NotRead(NotRead::NoSuchFile)),
        Err(ShelfFault::Failed) => Err(NotBegun::NotRead(NotRead::DiskError)),
        Err(ShelfFault::Memory) => Err(NotBegun::Memory),
    }
}

// A desk with a sheet that was saved.
fn desk_over(alloc: Global, saved: SavedSheet) -> Result<Desk, Memory>
    ensures { IfOk result (IsDeskOf saved) }
{
    let mut desk = Desk::new(alloc)?;
    desk.sheet.take_saved(saved)?;
    Ok(desk)
}

// A desk with a generated sheet.
fn generated_desk(alloc: Global, rows: &RowCount) -> Result<Desk, Memory>
    ensures { IfOk result (IsGeneratedDesk rows.now) }
{
    let saved = generate(alloc, rows.rows())?;
    desk_over(alloc, saved)
}

// A desk, or want of memory.
fn or_memory(desk: Result<Desk, Memory>) -> Result<Desk, NotBegun>
    ensures { result ≡ or_memory desk }
{
    match desk {
        Ok(desk) => Ok(desk),
        Err(Memory) => Err(NotBegun::Memory),
    }
}

// The desk that a run begins with: with the sheet of the start file, where there is one, with a generated sheet, or
// with a fresh one. The shelf is asked once for the start file, and for nothing else.
fn begin<S: Shelf>(alloc: Global, start: &Start, shelf: &mut S) -> Result<Desk, NotBegun>
    ensures { let at = shelf_of S.Shelf in HasBegunOr start.now result (at shelf.old) (at shelf.new) }
{
    match start {
        Start::Fresh => or_memory(Desk::new(alloc)),
        Start::File(name) => {
            let saved = read_file(alloc, name, shelf)?;
            or_memory(desk_over(alloc, saved))
        }
        Start::Rows(rows) => or_memory(generated_desk(alloc, rows)),
    }
}

// The session that begins with a desk whose sheet keeps no states, recalculated at a reading of the clock.
fn load<C: Clock>(desk: Desk, clock: &mut C) -> Result<Session, Memory>
    requires { desk.sheet.history ≡ no_history }
    ensures { HasLoaded desk (C.readings clock.old) (C.readings clock.new) result }
{
    let first = clock.read();
    let mut session = Session::new(desk);
    match session.load(&first) {
        Ok(()) => Ok(session),
        Err(Memory) => Err(Memory),
    }
}

/// The session that a run with these options begins with. Room is made among the failed displays for those of the kind
/// that is asked for, the others are dropped, and then the shelf and the clock are asked.
pub fn open_session<S: Shelf, C: Clock>(
    alloc: Global,
    options: &Options,
    outside: &mut Outside<'_, S, C>,
) -> Result<Session, NotBegun>
    ensures opened { (bytes : Option (List ℕ)) (faults : ℕ) → let at = told_beside S.Shelf C.Clock seen bytes faults in
        HasOpenedOr options.now result (at outside.old) (at outside.new) }
    ensures room { OnOk result (HasRoom outside.new) }
    ensures same { IsSame outside.old outside.new }
{
    let prepared = prepare(options.kind(), outside.displays, outside.failed);
    if prepared.is_err() {
        return Err(NotBegun::Memory);
    }
    let desk = begin(alloc, &options.start, outside.shelf)?;
    match load(desk, outside.clock) {
        Ok(session) => Ok(session),
        Err(Memory) => Err(NotBegun::Memory),
    }
}
