// Files that are read.
ghost use Rattle.std.specs.Prelude.{◌≡◌, IfOk, OnErr, Result, Some};
ghost use Rattle.commands_file.specs.Calls.{gets, loaded, shelf_view, IsUnfinished};
ghost use Rattle.commands_file.specs.Commands.{fault_number};
ghost use Rattle.commands_file.specs.Steps.{HasCalled};
ghost use Rattle.commands_file.specs.inner.Placing.{loaded_as};
ghost use Rattle.sheet_store.specs.declared.writes.SavedSheet.{SavedSheet};
ghost use Rattle.wk1_file.specs.Files.{IsFile};
ghost use Rattle.wk1_records.specs.declared.fault.Wk1Fault.{Wk1Fault};

use desk_errors::CommandError;
use outside_world::{FileName, Memory, Shelf, ShelfFault};
use sheet_store::SavedSheet;
use std::alloc::Global;
use wk1_file::{Wk1Fault, read};

/// What a file was loaded as.
#[derive(Drop)]
pub(crate) enum Loaded {
    Sheet(SavedSheet),
    Refused(CommandError),
}

// The number of a file's fault; want of memory has none.
fn fault_number(fault: Wk1Fault) -> u8
    ensures { result ≡ fault_number fault }
{
    match fault {
        Wk1Fault::NoBof => 1,
        Wk1Fault::Truncated(_) => 2,
        Wk1Fault::BadLength(_) => 3,
        Wk1Fault::CellOutside(_) => 4,
        Wk1Fault::BadText(_) => 5,
        Wk1Fault::NumberTooLarge(_) => 6,
        Wk1Fault::BadCode(_, _) => 7,
        Wk1Fault::FunctionOutside(_, _) => 8,
        Wk1Fault::BadName(_) => 9,
        Wk1Fault::BadSpan(_) => 10,
        Wk1Fault::FileTooLarge => 11,
        Wk1Fault::TooDeep(_) => 12,
        Wk1Fault::Memory => 0,
    }
}

// The sheet that the bytes of a file are, or by which fault they are none.
fn sheet_in(alloc: Global, bytes: &[u8]) -> Result<Result<SavedSheet, Wk1Fault>, Memory>
    ensures { IfOk result (λ file. IsFile bytes.now file) }
{
    match read(alloc, bytes) {
        Ok(saved) => Ok(Ok(saved)),
        Err(Wk1Fault::Memory) => Err(Memory),
        Err(fault) => Ok(Err(fault)),
    }
}

// What the bytes of a file are loaded as.
fn loaded_of(alloc: Global, bytes: &[u8]) -> Result<Loaded, Memory>
    ensures { IfOk result (λ came. (file : Result SavedSheet Wk1Fault) × IsFile bytes.now file
        × (came ≡ loaded_as (loaded (Some file)))) }
{
    let file = sheet_in(alloc, bytes)?;
    match file {
        Ok(saved) => Ok(Loaded::Sheet(saved)),
        Err(fault) => Ok(Loaded::Refused(CommandError::FileRefused(fault_number(fault)))),
    }
}

/// The sheet that a file is.
pub(crate) fn load<S: Shelf>(
    name: &FileName,
    alloc: Global,
    shelf: &mut S,
) -> Result<Loaded, Memory>
    ensures loaded { IfOk result (λ came. HasCalled (gets name.now) loaded_as came
        (shelf_view (S.holds shelf.old) (S.faults shelf.old)) (shelf_view (S.holds shelf.new) (S.faults shelf.new))) }
    ensures memory { OnErr result (IsUnfinished (gets name.now)
        (shelf_view (S.holds shelf.old) (S.faults shelf.old)) (shelf_view (S.holds shelf.new) (S.faults shelf.new))) }
{
    match shelf.get(name) {
        Ok(Some(bytes)) => loaded_of(alloc, bytes.bytes()),
        Ok(None) => Ok(Loaded::Refused(CommandError::FileNotFound)),
        Err(ShelfFault::Failed) => Ok(Loaded::Refused(CommandError::DiskError)),
        Err(ShelfFault::Memory) => Err(Memory),
    }
}
