/// Why bytes are no worksheet file. A fault carries the number of its record, counted from 0; `Truncated` carries the
/// offset at which no whole record stands, `BadCode` also the offset within the code, and `FunctionOutside` also the
/// function's code.
#[derive(Clone, Copy)]
pub enum Wk1Fault {
    NoBof,
    Truncated(u32),
    BadLength(u32),
    CellOutside(u32),
    BadText(u32),
    NumberTooLarge(u32),
    BadCode(u32, u32),
    FunctionOutside(u32, u8),
    BadName(u32),
    BadSpan(u32),
    FileTooLarge,
    TooDeep(u32),
    Memory,
}
