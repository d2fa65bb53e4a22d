// The formats that the menus set.
ghost use Rattle.std.specs.Prelude.{◌≡◌, ◌<◌};
ghost use Rattle.command_desk.specs.Formats.{code_of, HasDecimals};

const CURRENCY: u8 = 0x20;

const PERCENT: u8 = 0x30;

const COMMA: u8 = 0x40;

/// A format that a menu sets, with its decimals where it has some; `Default` is that of the sheet.
#[derive(Clone, Copy)]
pub enum FormatChoice {
    Fixed(u8),
    Currency(u8),
    Comma(u8),
    General,
    Percent(u8),
    Date1,
    Date2,
    Date3,
    Text,
    Hidden,
    Default,
}

impl FormatChoice {
    /// Its code, 0 to 127 (worksheet file format). A format has at most 15 decimals.
    pub fn code(self) -> u8
        requires { HasDecimals self }
        ensures code { result ≡ code_of self }
        ensures low { result < 128 }
    {
        match self {
            FormatChoice::Fixed(decimals) => decimals,
            FormatChoice::Currency(decimals) => CURRENCY + decimals,
            FormatChoice::Percent(decimals) => PERCENT + decimals,
            FormatChoice::Comma(decimals) => COMMA + decimals,
            FormatChoice::General => 0x71,
            FormatChoice::Date1 => 0x72,
            FormatChoice::Date2 => 0x73,
            FormatChoice::Date3 => 0x74,
            FormatChoice::Text => 0x75,
            FormatChoice::Hidden => 0x76,
            FormatChoice::Default => 0x7f,
        }
    }
}
