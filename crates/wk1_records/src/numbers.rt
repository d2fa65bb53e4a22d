// The numbers of the types of records (worksheet file format).

/// The beginning of a file, with its release.
pub const BOF: u16 = 0x00;

/// The end of a file.
pub const EOF: u16 = 0x01;

/// Whether the sheet recalculates by itself.
pub const CALC_MODE: u16 = 0x02;

/// The order of recalculation.
pub const CALC_ORDER: u16 = 0x03;

/// The span that is used.
pub const RANGE: u16 = 0x06;

/// The pointer, the global format and the global width.
pub const WINDOW: u16 = 0x07;

/// A column's own width.
pub const COLUMN_WIDTH: u16 = 0x08;

/// A name with its span.
pub const NAME: u16 = 0x0B;

/// A blank cell that has a format.
pub const BLANK: u16 = 0x0C;

/// A whole number of two bytes.
pub const INTEGER: u16 = 0x0D;

/// A number of eight bytes.
pub const NUMBER: u16 = 0x0E;

/// A label.
pub const LABEL: u16 = 0x0F;

/// A formula with its value.
pub const FORMULA: u16 = 0x10;

/// Whether the sheet is protected.
pub const PROTECTION: u16 = 0x24;

/// The global label prefix.
pub const LABEL_FORMAT: u16 = 0x29;

/// How many passes a recalculation has.
pub const CALC_COUNT: u16 = 0x2F;

/// The text of a formula's value.
pub const STR: u16 = 0x33;

/// The hidden columns.
pub const HIDDEN_COLUMNS: u16 = 0x64;

/// A number that no record of these types has.
pub const OTHER: u16 = 0xFFFF;
