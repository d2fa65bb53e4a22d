/// Why a call on names is refused, in the order in which the causes are tried.
#[derive(Clone, Copy)]
pub enum NameFault {
    /// A name has no bytes.
    Empty,
    /// A name has more than 15 bytes.
    TooLong,
    /// The byte at this place is below 32, or the name begins with a space.
    BadByte(usize),
    /// There is no such name.
    Absent,
    Memory,
}
