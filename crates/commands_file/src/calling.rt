// Files that are written and taken away.
ghost use Rattle.std.specs.Prelude.{◌≡◌, IfOk, OnErr};
ghost use Rattle.commands_file.specs.Calls.{puts, removes, shelf_view, IsUnfinished};
ghost use Rattle.commands_file.specs.Calls as reply;
ghost use Rattle.commands_file.specs.Commands.{is_readable, sheet_bytes};
ghost use Rattle.commands_file.specs.Steps.{end_of_put, is_written, HasCalled};
ghost use Rattle.commands_file.specs.inner.Placing.{end_of_placing, end_of_remove, IsPlaced, IsUnplaced};
ghost use Rattle.wk1_file.specs.Saved.{file_bytes};
ghost use Rattle.work_sheet.specs.Seen.{of_worksheet};

use command_desk::CommandEnd;
use desk_errors::CommandError;
use outside_world::{ByteBuffer, FileName, Memory, Shelf, ShelfFault};
use sheet_store::SavedSheet;
use std::alloc::Global;
use wk1_file::{write, write_parts};
use work_sheet::Worksheet;

// The most bytes of a worksheet's file that is read.
const MOST_BYTES: usize = 67_108_864;

// The bytes of a sheet's file.
fn bytes_of(alloc: Global, saved: &SavedSheet) -> Result<ByteBuffer, Memory>
    ensures { IfOk result (λ bytes. bytes ≡ file_bytes saved.now) }
{
    let bytes = write(alloc, saved)?;
    ByteBuffer::from_slice(alloc, bytes.as_slice())
}

/// The bytes of the file of a sheet as it is.
pub(crate) fn sheet_bytes(sheet: &Worksheet) -> Result<ByteBuffer, Memory>
    ensures { IfOk result (λ bytes. bytes ≡ sheet_bytes (of_worksheet sheet.now)) }
{
    let bytes = write_parts(
        sheet.alloc(),
        sheet.cells(),
        sheet.names(),
        *sheet.settings(),
    )?;
    ByteBuffer::from_slice(sheet.alloc(), bytes.as_slice())
}

/// Bytes are written as a file, in the place of one of that name; false tells that the call failed, and the shelf's
/// count of faults rose in it. After want of memory no other file has changed.
pub fn put_bytes<S: Shelf>(
    name: &FileName,
    bytes: &ByteBuffer,
    shelf: &mut S,
) -> Result<bool, Memory>
    ensures put { IfOk result (λ done. HasCalled (puts name.now bytes.now) is_written done
        (shelf_view (S.holds shelf.old) (S.faults shelf.old)) (shelf_view (S.holds shelf.new) (S.faults shelf.new))) }
    ensures memory { OnErr result (IsUnfinished (puts name.now bytes.now)
        (shelf_view (S.holds shelf.old) (S.faults shelf.old)) (shelf_view (S.holds shelf.new) (S.faults shelf.new))) }
{
    match shelf.put(name, bytes) {
        Ok(()) => Ok(true),
        Err(ShelfFault::Failed) => Ok(false),
        Err(ShelfFault::Memory) => Err(Memory),
    }
}

/// What came of a worksheet's file.
#[derive(Clone, Copy)]
pub enum Placed {
    /// It was put.
    Written,
    /// The call failed.
    Failed,
    /// It would be longer than one that is read, and no call was made.
    TooLarge,
}

// Whether a worksheet's file isn't longer than one that is read.
fn is_readable(bytes: &ByteBuffer) -> bool
    ensures { result ≡ is_readable bytes.now }
{
    bytes.len() <= MOST_BYTES
}

/// The bytes of a worksheet's file are put, where they would be read again.
pub(crate) fn place<S: Shelf>(
    name: &FileName,
    bytes: &ByteBuffer,
    shelf: &mut S,
) -> Result<Placed, Memory>
    ensures placed { IfOk result (λ placed. IsPlaced name.now bytes.now placed
        (shelf_view (S.holds shelf.old) (S.faults shelf.old)) (shelf_view (S.holds shelf.new) (S.faults shelf.new))) }
    ensures memory { OnErr result (IsUnplaced name.now bytes.now
        (shelf_view (S.holds shelf.old) (S.faults shelf.old)) (shelf_view (S.holds shelf.new) (S.faults shelf.new))) }
{
    if !is_readable(bytes) {
        return Ok(Placed::TooLarge);
    }
    let written = put_bytes(name, bytes, shelf)?;
    if written {
        Ok(Placed::Written)
    } else {
        Ok(Placed::Failed)
    }
}

/// A sheet is written as a file, where that file would be read again.
pub(crate) fn put_sheet<S: Shelf>(
    name: &FileName,
    saved: &SavedSheet,
    shelf: &mut S,
) -> Result<Placed, Memory>
    ensures placed { IfOk result (λ placed. IsPlaced name.now (file_bytes saved.now) placed
        (shelf_view (S.holds shelf.old) (S.faults shelf.old)) (shelf_view (S.holds shelf.new) (S.faults shelf.new))) }
    ensures memory { OnErr result (IsUnplaced name.now (file_bytes saved.now)
        (shelf_view (S.holds shelf.old) (S.faults shelf.old)) (shelf_view (S.holds shelf.new) (S.faults shelf.new))) }
{
    let bytes = bytes_of(saved.store.alloc(), saved)?;
    place(name, &bytes, shelf)
}

/// What the placing of a worksheet's file comes to.
pub(crate) fn end_of_placing(placed: Placed) -> CommandEnd
    ensures { result ≡ end_of_placing placed }
{
    match placed {
        Placed::Written => CommandEnd::Finished,
        Placed::Failed => CommandEnd::Refused(CommandError::DiskError),
        Placed::TooLarge => CommandEnd::Refused(CommandError::WorksheetTooLarge),
    }
}

/// What the writing of a file comes to, by whether it was written.
pub fn end_of_put(written: bool) -> CommandEnd
    ensures { result ≡ end_of_put written }
{
    if written {
        CommandEnd::Finished
    } else {
        CommandEnd::Refused(CommandError::DiskError)
    }
}

// What taking a file away comes to, by whether it was there.
fn end_of_remove(there: bool) -> CommandEnd
    ensures { result ≡ end_of_remove (reply.there there) }
{
    if there {
        CommandEnd::Finished
    } else {
        CommandEnd::Refused(CommandError::FileNotFound)
    }
}

/// A file is taken away.
pub(crate) fn remove<S: Shelf>(name: &FileName, shelf: &mut S) -> Result<CommandEnd, Memory>
    ensures removed { IfOk result (λ end. HasCalled (removes name.now) end_of_remove end
        (shelf_view (S.holds shelf.old) (S.faults shelf.old)) (shelf_view (S.holds shelf.new) (S.faults shelf.new))) }
    ensures memory { OnErr result (IsUnfinished (removes name.now)
        (shelf_view (S.holds shelf.old) (S.faults shelf.old)) (shelf_view (S.holds shelf.new) (S.faults shelf.new))) }
{
    match shelf.remove(name) {
        Ok(there) => Ok(end_of_remove(there)),
        Err(ShelfFault::Failed) => Ok(CommandEnd::Refused(CommandError::DiskError)),
        Err(ShelfFault::Memory) => Err(Memory),
    }
}
