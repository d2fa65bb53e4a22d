use crate::{ByteList, MAX_LEN};

/// A line of at most 240 bytes, of any value, which takes no memory.
pub type Line = ByteList<MAX_LEN>;
