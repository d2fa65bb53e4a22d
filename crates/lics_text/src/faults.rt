// Want of memory, and why bytes are no text.
use std::alloc::{AllocError, AllocFailed};

/// Want of memory.
#[derive(Clone, Copy)]
pub struct Memory;

/// Why a list of bytes is no text.
#[derive(Clone, Copy)]
pub enum TextFault {
    /// There would be more than 240 bytes.
    TooLong,
    /// The byte at this place, counted from 0, is below 32; it is the first one.
    BadByte(usize),
    Memory,
}

impl From<AllocError> for Memory {
    fn from(_fault: AllocError) -> Memory {
        Memory
    }
}

impl<T: Drop> From<AllocFailed<T>> for Memory {
    fn from(_fault: AllocFailed<T>) -> Memory {
        Memory
    }
}
