ghost use Rattle.std.specs.Prelude.{None};

use crate::{Failed, Notes};
use std::io::Write;

/// Notes on a writer, as standard error. They tell nothing of what was written, and a failed write raises
/// their count of faults.
#[derive(Drop)]
pub struct HostNotes<W: Write + Drop> {
    writer: W,
    faults: u64,
}

impl<W: Write + Drop> HostNotes<W> {
    /// Notes on this writer.
    pub fn new(writer: W) -> HostNotes<W> {
        HostNotes { writer, faults: 0 }
    }
}

impl<W: Write + Drop> Notes for HostNotes<W> {
    ghost written = { λ n. None };

    ghost faults = { λ n. n.faults };

    fn write(&mut self, bytes: &[u8]) -> Result<(), Failed> {
        match self.writer.write_all(bytes) {
            Ok(()) => Ok(()),
            Err(_) => {
                self.faults = self.faults.saturating_add(1);
                Err(Failed)
            }
        }
    }
}
