ghost use Rattle.std.specs.Prelude.{◌≡◌, ◌<◌, ◌≤◌, ◌+◌, ℕ, List, Option, Some, None, IfOk, [], vec_capacity};
ghost use Rattle.outside_world.specs.Causes.{HasCause};
ghost use Rattle.outside_world.specs.Notes.{AddsBytes};

use crate::Failed;
use lics_text::Memory;
use std::alloc::Global;

/// A sink of notes, by the bytes that were written, where it tells them, and the count of its faults,
/// which never falls.
pub trait Notes {
    ghost written: { Self → Option (List ℕ) };

    ghost faults: { Self → ℕ };

    /// Writes a note. A failed write has added a prefix of its bytes; `Failed` comes only where the count
    /// of faults rose in this call.
    fn write(&mut self, bytes: &[u8]) -> Result<(), Failed>
        ensures added { AddsBytes bytes.now (written self.old) (written self.new) result }
        ensures cause { HasCause (faults self.old) (faults self.new) result };
}

/// Notes in memory, with room for a number of bytes. A write past it fails, and so do the calls with the
/// given numbers, counted from 1; neither adds a byte.
#[derive(Drop)]
pub struct ListNotes {
    bytes: Vec<u8>,
    room: usize,
    failing: Vec<u64>,
    calls: u64,
    faults: u64,
    ghost has_room: { room ≤ vec_capacity bytes },
}

impl ListNotes {
    ghost use Rattle.outside_world.specs.Told.{notes_written, notes_faults};

    /// Notes with room for so many bytes, so that no write takes memory.
    pub fn new(alloc: Global, room: usize, failing: Vec<u64>) -> Result<ListNotes, Memory>
        ensures fresh { IfOk result (λ n. notes_written n ≡ []) }
        ensures faults { IfOk result (λ n. notes_faults n ≡ 0) }
    {
        let bytes = Vec::with_capacity(alloc, room)?;
        Ok(ListNotes {
            bytes,
            room,
            failing,
            calls: 0,
            faults: 0,
        })
    }

    /// What was written.
    pub fn bytes(&self) -> &[u8]
        ensures { result.now ≡ notes_written self.now }
    {
        &self.bytes
    }
}

impl Notes for ListNotes {
    ghost written = { λ n. Some n.bytes.items };

    ghost faults = { λ n. n.faults };

    fn write(&mut self, bytes: &[u8]) -> Result<(), Failed> {
        self.calls = self.calls.saturating_add(1);
        if self.failing.contains(&self.calls)
            || self.room < self.bytes.len()
            || self.room - self.bytes.len() < bytes.len()
        {
            self.faults = self.faults.saturating_add(1);
            return Err(Failed);
        }
        match self.bytes.extend_from_slice(bytes) {
            Ok(()) => Ok(()),
            Err(_) => {
                self.faults = self.faults.saturating_add(1);
                Err(Failed)
            }
        }
    }
}
