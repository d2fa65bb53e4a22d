// Why the work stops.

use lics_text::Memory;
use std::alloc::{AllocError, AllocFailed};
use std::io::Error;

/// Why the work stopped: want of memory, a stream that failed, or a line that doesn't say what it should.
#[derive(Clone, Copy)]
pub enum Stop {
    Memory,
    Stream,
    Line,
}

impl From<Memory> for Stop {
    fn from(_fault: Memory) -> Stop {
        Stop::Memory
    }
}

impl From<AllocError> for Stop {
    fn from(_fault: AllocError) -> Stop {
        Stop::Memory
    }
}

impl<T: Drop> From<AllocFailed<T>> for Stop {
    fn from(_fault: AllocFailed<T>) -> Stop {
        Stop::Memory
    }
}

impl From<Error> for Stop {
    fn from(_fault: Error) -> Stop {
        Stop::Stream
    }
}
