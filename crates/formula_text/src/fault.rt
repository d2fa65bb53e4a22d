// Why a text spells no formula.

/// Why a text spells no formula. A place is the index of a byte in the text.
#[derive(Clone, Copy)]
pub enum ParseFault {
    /// Nothing that may stand here begins at this byte.
    Unexpected(usize),
    /// The text ends where an operand is wanted, in a text, or with an open bracket.
    Ended,
    /// No function has this name; the place is its `@`.
    UnknownFunction(usize),
    /// A function of Release 2 that is left out; the place is its `@`.
    FunctionOutside(usize),
    /// The function doesn't take so many arguments; the place is its `)`.
    ArgCount(usize),
    /// A number of 1,000,000,000 or more.
    BadNumber(usize),
    /// A word that is neither an address nor a name.
    UnknownName(usize),
    /// More than 240 bytes.
    TooLong,
    /// No memory.
    Memory,
}
