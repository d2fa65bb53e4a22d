ghost use Rattle.std.specs.Prelude.{◌≡◌, ◌<◌};
ghost use Rattle.grid_address.specs.Formats.{has_protection, is_shown_as, kind_of, places_of, protected, unprotected};

/// A cell's format byte (worksheet file format): bit 7 is protection, bits 6 to 4 are the kind and bits 3 to
/// 0 its detail. Kinds 0 fixed, 1 scientific, 2 currency, 3 percent and 4 comma have the number of decimals
/// as detail; kind 7 has 0 bar, 1 general, 2 to 4 the dates 1 to 3, 5 text, 6 hidden and 15 default. Each
/// other byte is shown as general.
#[derive(Clone, Copy, PartialEq, Eq)]
pub struct Format(pub u8);

impl Format {
    /// No format of the cell's own: it is shown in the sheet's. It is protected, as a cell is at first.
    pub const DEFAULT: Format = Format(0xFF);

    /// General, which is a fresh sheet's.
    pub const GENERAL: Format = Format(0x71);

    /// The first form of a date, as 01-Jun-87.
    pub const DATE: Format = Format(0x72);

    /// A formula is shown as its text.
    pub const TEXT: Format = Format(0x75);

    /// Nothing is shown.
    pub const HIDDEN: Format = Format(0x76);

    /// Bits 6 to 4.
    pub fn kind(self) -> u8
        ensures kind { result ≡ kind_of self.0 }
        ensures most { result < 8 }
    {
        self.0 / 16 % 8
    }

    /// Bits 3 to 0: the number of decimals, or which of the formats of kind 7.
    pub fn places(self) -> u8
        ensures places { result ≡ places_of self.0 }
        ensures most { result < 16 }
    {
        self.0 % 16
    }

    /// Whether the cell is protected, which is bit 7.
    pub fn is_protected(self) -> bool
        ensures { result ≡ has_protection self.0 }
    {
        self.0 >= 128
    }

    /// Whether a cell is shown as in the other format: they are the same but for protection.
    pub fn is_shown_as(self, other: Format) -> bool
        ensures { result ≡ is_shown_as self.0 other.0 }
    {
        self.0 % 128 == other.0 % 128
    }

    /// The format without its protection: bits 6 to 0.
    pub fn unprotected(self) -> Format
        ensures { result.0 ≡ unprotected self.0 }
    {
        Format(self.0 % 128)
    }

    /// The format with protection: bit 7 is set.
    pub fn protected(self) -> Format
        ensures { result.0 ≡ protected self.0 }
    {
        Format(self.0 % 128 + 128)
    }
}
