// Plain files of a folder: what a name leads to, looked at and opened.
use std::fs::{Files, Metadata, OpenFile, OpenOptions};
use std::io;
use std::io::ErrorKind;
use std::os::unix::fs::MetadataExt;

// How often a call is tried where a signal interrupts it, or where another program replaces the file meanwhile.
const TRIES: u32 = 1000;

/// The answer of a call, which is made again where a signal interrupts it.
pub(crate) fn uninterrupted<T, F: Fn() -> io::Result<T>>(call: F) -> io::Result<T>
    requires { F.IsAlwaysCallable call }
{
    for _ in 0..TRIES {
        match call() {
            Err(fault) if fault.kind() == ErrorKind::Interrupted => {}
            outcome => return outcome,
        }
    }
    Err(ErrorKind::Interrupted.into())
}

/// Whether two states are those of one file.
pub(crate) fn is_same(one: &Metadata, other: &Metadata) -> bool {
    one.dev() == other.dev() && one.ino() == other.ino()
}

/// The state of the plain file of this name, and none where there is nothing of the name. It fails where what is called
/// so is no plain file.
pub(crate) fn state_of(files: &impl Files, name: &str) -> io::Result<Option<Metadata>> {
    match uninterrupted(|| files.symlink_metadata(name)) {
        Ok(state) if state.is_file() => Ok(Some(state)),
        Ok(_) => Err(ErrorKind::InvalidInput.into()),
        Err(fault) if fault.kind() == ErrorKind::NotFound => Ok(None),
        Err(fault) => Err(fault),
    }
}

/// The plain file of this name, opened so, with its state; none where there is nothing of the name. What is opened is
/// what was looked at: where something else has the name by then, as behind a save of another program, both are done
/// again.
pub(crate) fn open_plain<F: Files>(
    files: &F,
    how: &OpenOptions,
    name: &str,
) -> io::Result<Option<(F::File, Metadata)>> {
    for _ in 0..TRIES {
        let Some(seen) = state_of(files, name)? else {
            return Ok(None);
        };
        match how.open(files, name) {
            Ok(file) => {
                let state = uninterrupted(|| file.metadata())?;
                if is_same(&seen, &state) {
                    return Ok(Some((file, state)));
                }
            }
            Err(fault) if fault.kind() == ErrorKind::NotFound => {}
            Err(fault) => return Err(fault),
        }
    }
    Err(ErrorKind::InvalidInput.into())
}

/// The state of the plain file of this name, which is to be changed; none where there is nothing of the name. It fails
/// where nobody may write the file, or this program may not read and write it.
pub(crate) fn state_to_change(files: &impl Files, name: &str) -> io::Result<Option<Metadata>> {
    let mut how = OpenOptions::new();
    how.read(true).write(true);
    match open_plain(files, &how, name)? {
        Some((_, state)) if state.permissions().readonly() => {
            Err(ErrorKind::PermissionDenied.into())
        }
        Some((_, state)) => Ok(Some(state)),
        None => Ok(None),
    }
}
