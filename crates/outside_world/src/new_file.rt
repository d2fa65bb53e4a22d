// New files, which are written beside and then take the place of another.
ghost use Rattle.std.specs.Fs.{asks_create_new, asks_write};
ghost use Rattle.std.specs.Prelude.{◌≡◌, ◌≤◌, ◌<◌, true, length, IfOk, OnOk};
ghost use Rattle.outside_world.specs.declared.new_file.Stage.TheVariants as stage;

use crate::FileName;
use crate::plain_file::{is_same, uninterrupted};
use lics_text::ByteList;
use std::fs::{Files, Metadata, OpenFile, OpenOptions, Permissions};
use std::io;
use std::io::{ErrorKind, Write};
use std::os::fd::AsFd;
use std::os::unix::fs::{MetadataExt, OpenOptionsExt, PermissionsExt, fchown};

// What a file is called while it is written, behind the name that it is to have. A number of three digits follows. No
// name of a shelf's file goes on so.
const BESIDE: &[u8] = b".saving.";

// How many such files there may be of a name.
const MOST_BESIDE: u16 = 1000;

// The rights of a file beside until it has those of the old one: its owner reads and writes it.
const OWNER_ALONE: u32 = 0o600;

// The rights that a file of a new name asks for; the system takes those of the umask away.
const NEW_NAME: u32 = 0o666;

// The rights of a file: its owner, its group and all others read, write and run it. The bits above, which lend the
// rights of a file's owner or group to who runs it, are none of them.
const ALL_RIGHTS: u32 = 0o777;

// The rights of all others.
const OF_OTHERS: u32 = 0o007;

// The rights of the group.
const OF_GROUP: u32 = 0o070;

// How far a new file is.
#[derive(Clone, Copy, PartialEq, Eq)]
enum Stage {
    // It is there, empty, for its owner alone.
    Made,
    // It has the rights, the owner and the group that it is to have.
    Ready,
    // It has its bytes.
    Written,
    // They are on the disk.
    Safe,
}

// A new file beside.
#[derive(Drop)]
struct NewFile<F: Files> {
    file: F::File,
    name: ByteList<24>,
    stage: Stage,
}

// A name as text.
pub(crate) fn text_of(bytes: &[u8]) -> io::Result<&str> {
    match str::from_utf8(bytes) {
        Ok(text) => Ok(text),
        Err(_) => Err(ErrorKind::InvalidInput.into()),
    }
}

// The name of a file beside, by its number.
fn name_beside(name: &FileName, number: u16) -> ByteList<24>
    requires { number < 1000 }
{
    let mut beside = ByteList::new();
    beside.put_all(name.bytes());
    beside.put_all(BESIDE);
    beside.put_all(&[
        b'0' + (number / 100) as u8,
        b'0' + (number / 10 % 10) as u8,
        b'0' + (number % 10) as u8,
    ]);
    beside
}

// How a new file is opened: one that is there already is none.
fn exclusively(rights: u32) -> OpenOptions
    ensures new { asks_create_new result ≡ true }
    ensures written { asks_write result ≡ true }
{
    let mut how = OpenOptions::new();
    how.mode(rights);
    how.write(true).create_new(true);
    how
}

// The rights of a file that takes the place of one with these: the same. Where it couldn't be given to the group of the
// old one, its group gets those alone that all others had too.
fn rights_after(old: u32, is_of_group: bool) -> u32 {
    let rights = old & ALL_RIGHTS;
    if is_of_group {
        rights
    } else {
        rights & (!OF_GROUP | (rights & OF_OTHERS) << 3)
    }
}

// Gives a file to the owner and the group of another where the system lets it, and else to the group alone where it
// lets that; whether it is of that group then.
fn give_to<F: OpenFile + AsFd>(file: &F, old: &Metadata) -> io::Result<bool> {
    let own = uninterrupted(|| file.metadata())?;
    let is_of_group = own.gid() == old.gid();
    if own.uid() == old.uid() && is_of_group {
        return Ok(true);
    }
    let given = uninterrupted(|| fchown(file, Some(old.uid()), Some(old.gid()))).is_ok();
    if given || is_of_group {
        return Ok(true);
    }
    Ok(uninterrupted(|| fchown(file, None, Some(old.gid()))).is_ok())
}

impl<F: Files<File: AsFd>> NewFile<F> {
    // Makes an empty file beside a name, under a number that no file has. None that is there is opened or taken away:
    // it may be another program's.
    fn make(files: &F, name: &FileName, rights: u32) -> io::Result<NewFile<F>>
        ensures { IfOk result (λ new. new.stage ≡ stage.Made) }
    {
        for number in 0..MOST_BESIDE {
            let beside = name_beside(name, number);
            match exclusively(rights).open(files, text_of(beside.bytes())?) {
                Ok(file) => {
                    return Ok(NewFile {
                        file,
                        name: beside,
                        stage: Stage::Made,
                    });
                }
                Err(fault) if fault.kind() == ErrorKind::AlreadyExists => {}
                Err(fault) => return Err(fault),
            }
        }
        Err(ErrorKind::AlreadyExists.into())
    }

    // Gives the owner, the group and the rights of the file whose place it is to take, where there is one.
    fn take_rights(&mut self, old: Option<Metadata>) -> io::Result<()>
        requires { self.old.stage ≡ stage.Made }
        ensures { OnOk result (self.new.stage ≡ stage.Ready) }
    {
        if let Some(old) = old {
            let is_of_group = give_to(&self.file, &old)?;
            let rights = rights_after(old.mode(), is_of_group);
            self.file.set_permissions(Permissions::from_mode(rights))?;
        }
        self.stage = Stage::Ready;
        Ok(())
    }

    // Writes the bytes, into a file that has its rights.
    fn write(&mut self, bytes: &[u8]) -> io::Result<()>
        requires { self.old.stage ≡ stage.Ready }
        ensures { OnOk result (self.new.stage ≡ stage.Written) }
    {
        self.file.write_all(bytes)?;
        self.stage = Stage::Written;
        Ok(())
    }

    // Waits until the bytes that were written are on the disk.
    fn make_safe(&mut self) -> io::Result<()>
        requires { self.old.stage ≡ stage.Written }
        ensures { OnOk result (self.new.stage ≡ stage.Safe) }
    {
        self.file.sync_all()?;
        self.stage = Stage::Safe;
        Ok(())
    }

    // Gives the file that is on the disk its name, in the place of what has it.
    fn give_name(&self, files: &F, name: &str) -> io::Result<()>
        requires { self.now.stage ≡ stage.Safe }
    {
        let beside = text_of(self.name.bytes())?;
        uninterrupted(|| files.rename(beside, name))
    }

    // Makes of the empty file one with these bytes that has the place of the old one.
    fn finish(
        &mut self,
        files: &F,
        name: &str,
        old: Option<Metadata>,
        bytes: &[u8],
    ) -> io::Result<()>
        requires { self.old.stage ≡ stage.Made }
    {
        self.take_rights(old)?;
        self.write(bytes)?;
        self.make_safe()?;
        self.give_name(files, name)
    }

    // Takes the file away, where it still has its name beside.
    fn take_away(&self, files: &F) -> io::Result<()> {
        let beside = text_of(self.name.bytes())?;
        let own = uninterrupted(|| self.file.metadata())?;
        let there = uninterrupted(|| files.symlink_metadata(beside))?;
        if is_same(&own, &there) {
            uninterrupted(|| files.remove_file(beside))?;
        }
        Ok(())
    }
}

/// Writes a file beside, which has the rights of the old one before its first byte is written, and gives it the name
/// when it is on the disk; so the old one stays until then. What was made beside goes where that fails.
pub(crate) fn put_in_place<F: Files<File: AsFd>>(
    files: &F,
    name: &FileName,
    old: Option<Metadata>,
    bytes: &[u8],
) -> io::Result<()> {
    let rights = match &old {
        Some(_) => OWNER_ALONE,
        None => NEW_NAME,
    };
    let mut new = NewFile::make(files, name, rights)?;
    let outcome = new.finish(files, text_of(name.bytes())?, old, bytes);
    if outcome.is_err() {
        let _ = new.take_away(files);
    }
    outcome
}
