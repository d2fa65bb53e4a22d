// The codes of a formula in a worksheet file, by their names (worksheet file format).

/// A number, as the eight bytes of a double.
pub const DOUBLE: u8 = 0x00;

/// A reference.
pub const REFERENCE: u8 = 0x01;

/// A range, by two references.
pub const RANGE: u8 = 0x02;

/// The end of a formula.
pub const FINISH: u8 = 0x03;

/// Round brackets about what stands before.
pub const BRACKETS: u8 = 0x04;

/// A whole number of two bytes.
pub const SHORT: u8 = 0x05;

/// A text, which a 00 ends.
pub const TEXT: u8 = 0x06;

/// A minus in front.
pub const MINUS: u8 = 0x08;

/// `+`.
pub const ADD: u8 = 0x09;

/// `-`.
pub const SUBTRACT: u8 = 0x0A;

/// `*`.
pub const MULTIPLY: u8 = 0x0B;

/// `/`.
pub const DIVIDE: u8 = 0x0C;

/// `^`.
pub const POWER: u8 = 0x0D;

/// `=`.
pub const EQUAL: u8 = 0x0E;

/// `<>`.
pub const UNEQUAL: u8 = 0x0F;

/// `<=`.
pub const AT_MOST: u8 = 0x10;

/// `>=`.
pub const AT_LEAST: u8 = 0x11;

/// `<`.
pub const LESS: u8 = 0x12;

/// `>`.
pub const GREATER: u8 = 0x13;

/// `#AND#`.
pub const AND: u8 = 0x14;

/// `#OR#`.
pub const OR: u8 = 0x15;

/// `#NOT#`.
pub const NOT: u8 = 0x16;

/// A plus in front.
pub const PLUS: u8 = 0x17;

/// `&`.
pub const JOIN: u8 = 0x18;

// The functions of 1-2-3 that this program leaves out.

pub const SQRT: u8 = 0x23;

pub const LOG: u8 = 0x24;

pub const LN: u8 = 0x25;

pub const PI: u8 = 0x26;

pub const SIN: u8 = 0x27;

pub const COS: u8 = 0x28;

pub const TAN: u8 = 0x29;

pub const ATAN2: u8 = 0x2A;

pub const ATAN: u8 = 0x2B;

pub const ASIN: u8 = 0x2C;

pub const ACOS: u8 = 0x2D;

pub const EXP: u8 = 0x2E;

pub const RAND: u8 = 0x35;

pub const PMT: u8 = 0x38;

pub const PV: u8 = 0x39;

pub const FV: u8 = 0x3A;

pub const NPV: u8 = 0x56;

pub const VAR: u8 = 0x57;

pub const STD: u8 = 0x58;

pub const IRR: u8 = 0x59;

pub const DVAR: u8 = 0x60;

pub const DSTD: u8 = 0x61;

pub const S: u8 = 0x6F;

pub const N: u8 = 0x70;

/// The call of an add-in's function.
pub const ADD_IN: u8 = 0x72;

pub const RATE: u8 = 0x74;

pub const TERM: u8 = 0x75;

pub const CTERM: u8 = 0x76;

pub const SLN: u8 = 0x77;

pub const SYD: u8 = 0x78;

pub const DDB: u8 = 0x79;
