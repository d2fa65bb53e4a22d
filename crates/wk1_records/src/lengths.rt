// The lengths of the bodies of a cell's records in bytes, and what stands where in them (worksheet file format).

/// Of a blank cell: the format byte and the place.
pub const BLANK_LENGTH: u16 = 5;

/// Of a whole number, which takes two bytes behind the place.
pub const INTEGER_LENGTH: u16 = 7;

/// Of a number, which takes eight bytes behind the place.
pub const NUMBER_LENGTH: u16 = 13;

/// Of a label without its text: behind the place stand the prefix and, at the end, 00.
pub const LABEL_LENGTH: u16 = 7;

/// Of a formula without its code: behind the place stand its value and the length of the code.
pub const FORMULA_LENGTH: u16 = 15;

/// Of the text of a formula's value without the text itself: 00 stands at its end.
pub const STR_LENGTH: u16 = 6;

/// How many bytes a head takes, the format byte and the place: what a cell holds begins behind them.
pub const HEAD: usize = BLANK_LENGTH as usize;

/// Where the length of a formula's code stands: behind the head and the eight bytes of its value.
pub const CODE_LENGTH: usize = 13;

/// Where a formula's code begins.
pub const CODE: usize = FORMULA_LENGTH as usize;
