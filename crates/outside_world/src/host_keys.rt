ghost use Rattle.std.specs.Prelude.{◌≤◌, None};

use crate::{Failed, Keys};
use std::io::Read;

/// Keys from a reader, as standard input. They tell nothing of what is left. A read that gives nothing
/// is their end, and a failed read raises their count of faults.
#[derive(Drop)]
pub struct HostKeys<R: Read> {
    reader: R,
    buffer: [u8; 512],
    at: usize,
    end: usize,
    faults: u64,
    ghost in_range: { end ≤ 512 },
}

impl<R: Read> HostKeys<R> {
    /// Keys from this reader.
    pub fn new(reader: R) -> HostKeys<R> {
        HostKeys {
            reader,
            buffer: [0; 512],
            at: 0,
            end: 0,
            faults: 0,
        }
    }
}

impl<R: Read> Keys for HostKeys<R> {
    ghost left = { λ k. None };

    ghost faults = { λ k. k.faults };

    fn next(&mut self) -> Result<Option<u8>, Failed> {
        if self.end <= self.at {
            match self.reader.read(&mut self.buffer) {
                Ok(count) => {
                    self.at = 0;
                    self.end = count;
                }
                Err(_) => {
                    self.faults = self.faults.saturating_add(1);
                    return Err(Failed);
                }
            }
        }
        if self.at < self.end {
            let byte = self.buffer[self.at];
            self.at += 1;
            Ok(Some(byte))
        } else {
            Ok(None)
        }
    }
}
