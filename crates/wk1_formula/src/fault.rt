/// Why a code is no formula's. `Bad` carries the offset of the first faulty code, `Outside` a function that is left
/// out. `TooLarge` is a constant past the size of a number, and `TooDeep` a tree more than 256 deep.
#[derive(Clone, Copy)]
pub enum CodeFault {
    Bad(u32),
    Outside(u8),
    TooDeep,
    TooLarge,
    Memory,
}
