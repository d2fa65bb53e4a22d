ghost use Rattle.std.specs.Prelude.{◌≡◌, ◌≤◌, List, None, length};
ghost use Rattle.outside_world.specs.Shelf.{HasCause};

use crate::limits::file_size_limit;
use crate::new_file::{put_in_place, text_of};
use crate::plain_file::{open_plain, state_of, state_to_change, uninterrupted};
use crate::{ByteBuffer, FileName, Shelf, ShelfFault};
use std::alloc::Global;
use std::fs::{Files, OpenFile, OpenOptions};
use std::io;
use std::io::{ErrorKind, Read};
use std::os::fd::AsFd;

// How many bytes of a file are read at most: one more than a worksheet's file may have.
const MOST_BYTES: u64 = 67_108_865;

/// The files of the current folder. They tell nothing of their content, and each failed call raises their count of
/// faults. At most 67,108,865 bytes of a file are read, one more than a worksheet's file may have.
///
/// A put writes the bytes into a file of its own beside, `NAME.WK1.saving.NNN` with the first number that no file has,
/// waits until they are on the disk, and gives that file the name: one that breaks off at any point leaves what the
/// name held before, and two programs that save at once leave the whole file of one of them. What a killed program left
/// beside is never opened or taken away. A file that takes another's place is for its owner alone until it has that
/// one's owner, group and rights, before the first byte is written; where the system doesn't let the group be given,
/// the new group gets no right that all others hadn't. A file of a new name has the rights that the umask leaves. The
/// folder is made safe on the disk too, where it can be read. A file that would pass the system's limit of a file's
/// size isn't begun.
///
/// A name leads to the file that is called exactly so, in capitals; another spelling, as `pay.wk1`, is another file,
/// which no name leads to. What is no plain file (a folder, a link, a pipe) is neither read, written nor taken away:
/// each call with its name fails, since a link may lead out of the folder. So does the reading of a file that can't be
/// read, and a put or a removal of one that this program may not read and write, or that nobody may write. All this is
/// this project's choice.
#[derive(Drop)]
pub struct HostShelf<F: Files + Drop> {
    files: F,
    alloc: Global,
    faults: u64,
}

impl<F: Files + Drop> HostShelf<F> {
    /// The current folder of these files.
    pub fn new(files: F, alloc: Global) -> HostShelf<F> {
        HostShelf {
            files,
            alloc,
            faults: 0,
        }
    }

    // The answer of a call: want of memory is told apart, and every other failure raises the count.
    fn answer<T>(&mut self, outcome: io::Result<T>) -> Result<T, ShelfFault>
        ensures { HasCause self.old.faults self.new.faults result }
    {
        match outcome {
            Ok(value) => Ok(value),
            Err(fault) => match fault.kind() {
                ErrorKind::OutOfMemory => Err(ShelfFault::Memory),
                _ => {
                    self.faults = self.faults.saturating_add(1);
                    Err(ShelfFault::Failed)
                }
            },
        }
    }
}

// The first bytes of a file, up to the most.
fn read_file(files: &impl Files, alloc: Global, name: &str) -> io::Result<Option<ByteBuffer>> {
    let mut how = OpenOptions::new();
    how.read(true);
    let Some((file, _)) = open_plain(files, &how, name)? else {
        return Ok(None);
    };
    let mut bytes = Vec::new(alloc);
    file.take(MOST_BYTES).read_to_end(&mut bytes)?;
    Ok(Some(ByteBuffer::of_vec(bytes)))
}

// Whether so many bytes pass the system's limit of a file's size. To write past it would end the program.
fn is_past_limit(files: &impl Files, alloc: Global, count: usize) -> bool {
    match file_size_limit(files, alloc) {
        Some(limit) => count as u64 > limit,
        None => false,
    }
}

// Makes what was renamed in the current folder safe on the disk. A folder that this program may not read, or whose file
// system has no such call, is passed over.
fn make_folder_safe(files: &impl Files) -> io::Result<()> {
    let mut how = OpenOptions::new();
    how.read(true);
    match how.open(files, ".") {
        Ok(folder) => match folder.sync_all() {
            Err(fault) if is_lack(&fault) => Ok(()),
            outcome => outcome,
        },
        Err(fault) if fault.kind() == ErrorKind::PermissionDenied => Ok(()),
        Err(fault) => Err(fault),
    }
}

// Whether a file system tells by this that it has no such call.
fn is_lack(fault: &io::Error) -> bool {
    matches!(
        fault.kind(),
        ErrorKind::InvalidInput | ErrorKind::Unsupported
    )
}

// Puts bytes in the place of the file of this name, or makes it.
fn put_file<F: Files<File: AsFd>>(
    files: &F,
    alloc: Global,
    name: &FileName,
    bytes: &[u8],
) -> io::Result<()> {
    if is_past_limit(files, alloc, bytes.len()) {
        return Err(ErrorKind::FileTooLarge.into());
    }
    let old = state_to_change(files, text_of(name.bytes())?)?;
    put_in_place(files, name, old, bytes)?;
    make_folder_safe(files)
}

// Takes a file away, where it is there.
fn remove_file(files: &impl Files, name: &str) -> io::Result<bool> {
    if state_to_change(files, name)?.is_none() {
        return Ok(false);
    }
    match uninterrupted(|| files.remove_file(name)) {
        Ok(()) => Ok(true),
        Err(fault) if fault.kind() == ErrorKind::NotFound => Ok(false),
        Err(fault) => Err(fault),
    }
}

impl<F: Files<File: AsFd> + Drop> Shelf for HostShelf<F> {
    ghost holds = { λ s. None };

    ghost faults = { λ s. s.faults };

    fn has(&mut self, name: &FileName) -> Result<bool, ShelfFault> {
        let outcome = match text_of(name.bytes()) {
            Ok(text) => state_of(&self.files, text),
            Err(fault) => Err(fault),
        };
        Ok(self.answer(outcome)?.is_some())
    }

    fn get(&mut self, name: &FileName) -> Result<Option<ByteBuffer>, ShelfFault> {
        let outcome = match text_of(name.bytes()) {
            Ok(text) => read_file(&self.files, self.alloc, text),
            Err(fault) => Err(fault),
        };
        self.answer(outcome)
    }

    fn put(&mut self, name: &FileName, bytes: &ByteBuffer) -> Result<(), ShelfFault> {
        let outcome = put_file(&self.files, self.alloc, name, bytes.bytes());
        self.answer(outcome)
    }

    fn remove(&mut self, name: &FileName) -> Result<bool, ShelfFault> {
        let outcome = match text_of(name.bytes()) {
            Ok(text) => remove_file(&self.files, text),
            Err(fault) => Err(fault),
        };
        self.answer(outcome)
    }
}
