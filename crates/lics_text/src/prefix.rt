ghost use Rattle.std.specs.Prelude.{◌≡◌};
ghost use Rattle.lics_text.specs.Prefixes.{prefix_byte, prefix_of};

/// How a label stands in its cell, by the byte that it begins with (Release 2 manual).
#[derive(Clone, Copy, PartialEq, Eq)]
pub enum LabelPrefix {
    /// `'`: at the left edge.
    Left,
    /// `"`: at the right edge.
    Right,
    /// `^`: in the middle.
    Center,
    /// `\`: again and again through the cell.
    Repeat,
    /// `|`: at the left edge, and a row that it begins isn't printed.
    Unprinted,
}

impl LabelPrefix {
    /// The byte that stands for it in front of a label.
    pub fn byte(self) -> u8
        ensures { result ≡ prefix_byte self }
    {
        match self {
            LabelPrefix::Left => b'\'',
            LabelPrefix::Right => b'"',
            LabelPrefix::Center => b'^',
            LabelPrefix::Repeat => b'\\',
            LabelPrefix::Unprinted => b'|',
        }
    }

    /// The prefix that a byte stands for; none for a byte that is no prefix.
    #[tactic(auto, unfolding(crate::specs::Prefixes::prefix_of))]
    pub fn of(byte: u8) -> Option<LabelPrefix>
        ensures { result ≡ prefix_of byte }
    {
        match byte {
            b'\'' => Some(LabelPrefix::Left),
            b'"' => Some(LabelPrefix::Right),
            b'^' => Some(LabelPrefix::Center),
            b'\\' => Some(LabelPrefix::Repeat),
            b'|' => Some(LabelPrefix::Unprinted),
            _ => None,
        }
    }
}
