use outside_world::{ByteBuffer, FileName};

/// What a channel may do with its file.
#[derive(Clone, Copy, PartialEq, Eq)]
pub enum Access {
    Read,
    Write,
    Modify,
}

/// A file that is attached: its name, its bytes, and the place of the next byte.
#[derive(Drop)]
pub struct Attached {
    pub name: FileName,
    pub access: Access,
    pub bytes: ByteBuffer,
    pub at: usize,
}
