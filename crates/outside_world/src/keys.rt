ghost use Rattle.std.specs.Prelude.{◌≡◌, ◌<◌, ◌≤◌, ◌+◌, ℕ, List, Option, Some, None, drop, length};
ghost use Rattle.outside_world.specs.Causes.{HasCause};
ghost use Rattle.outside_world.specs.Keys.{TakesByte};

use crate::Failed;

/// A source of key bytes, by the bytes that are left, where it tells them, and the count of its faults,
/// which never falls.
pub trait Keys {
    ghost left: { Self → Option (List ℕ) };

    ghost faults: { Self → ℕ };

    /// The next byte, and none exactly where no byte is left. A failed call takes no byte; `Failed` comes
    /// only where the count of faults rose in this call.
    fn next(&mut self) -> Result<Option<u8>, Failed>
        ensures taken { TakesByte (left self.old) (left self.new) result }
        ensures cause { HasCause (faults self.old) (faults self.new) result };
}

/// Keys in memory. The calls with the given numbers, counted from 1, fail.
#[derive(Drop)]
pub struct ListKeys {
    bytes: Vec<u8>,
    at: usize,
    failing: Vec<u64>,
    calls: u64,
    faults: u64,
}

impl ListKeys {
    ghost use Rattle.outside_world.specs.Told.{keys_left, keys_faults};

    /// Keys with these bytes.
    pub fn new(bytes: Vec<u8>, failing: Vec<u64>) -> ListKeys
        ensures left { keys_left result ≡ bytes.items }
        ensures fresh { keys_faults result ≡ 0 }
    {
        ListKeys {
            bytes,
            at: 0,
            failing,
            calls: 0,
            faults: 0,
        }
    }
}

impl Keys for ListKeys {
    ghost left = { λ k. Some (drop k.at k.bytes.items) };

    ghost faults = { λ k. k.faults };

    fn next(&mut self) -> Result<Option<u8>, Failed> {
        self.calls = self.calls.saturating_add(1);
        if self.failing.contains(&self.calls) {
            self.faults = self.faults.saturating_add(1);
            return Err(Failed);
        }
        if self.at < self.bytes.len() {
            let byte = self.bytes[self.at];
            self.at += 1;
            Ok(Some(byte))
        } else {
            Ok(None)
        }
    }
}
