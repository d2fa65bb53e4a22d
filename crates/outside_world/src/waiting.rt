use std::io::{ErrorKind, Read, Write};
use std::time::{Clock, Duration};
use std::{io, thread};

// How long it waits before it tries again, in milliseconds.
const PAUSE: u64 = 2;

/// A stream of the host, such as standard input or output. Where it has no byte to read, or no room to write, and
/// doesn't wait itself, or where a signal interrupts it, this waits and tries again, as a stream does that waits.
#[derive(Drop)]
pub struct Waiting<S: Drop, C: Clock + Drop> {
    stream: S,
    clock: C,
}

// Whether a call that failed so may do well later.
fn is_passing(fault: &io::Error) -> bool {
    matches!(fault.kind(), ErrorKind::WouldBlock | ErrorKind::Interrupted)
}

impl<S: Drop, C: Clock + Drop> Waiting<S, C> {
    /// A stream that waits by this clock.
    pub fn new(stream: S, clock: C) -> Waiting<S, C> {
        Waiting { stream, clock }
    }

    // Waits a little.
    fn pause(&self) {
        thread::sleep(&self.clock, Duration::from_millis(PAUSE));
    }
}

impl<S: Read + Drop, C: Clock + Drop> Read for Waiting<S, C> {
    fn read(&mut self, buf: &mut [u8]) -> io::Result<usize> {
        for _ in 0..u64::MAX {
            match self.stream.read(buf) {
                Err(fault) if is_passing(&fault) => self.pause(),
                outcome => return outcome,
            }
        }
        Err(ErrorKind::TimedOut.into())
    }
}

impl<S: Write + Drop, C: Clock + Drop> Write for Waiting<S, C> {
    fn write(&mut self, buf: &[u8]) -> io::Result<usize> {
        for _ in 0..u64::MAX {
            match self.stream.write(buf) {
                Err(fault) if is_passing(&fault) => self.pause(),
                outcome => return outcome,
            }
        }
        Err(ErrorKind::TimedOut.into())
    }

    fn flush(&mut self) -> io::Result<()> {
        self.stream.flush()
    }
}
