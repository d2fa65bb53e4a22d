// Single bytes that a text may hold.
ghost use Rattle.std.specs.Prelude.{◌≡◌, ◌≤◌, ◌↔◌, IsTrue, IsSome, IfSome};
ghost use Rattle.lics_text.specs.Ascii as ascii;

use std::marker::Model;

/// A byte that a text may hold: 32 to 255.
#[derive(Clone, Copy)]
pub struct TextByte {
    byte: u8,
}

impl Model for TextByte {
    ghost use Rattle.std.specs.Prelude.{ℕ, ◌≤◌};
    ghost use Rattle.lics_text.specs.Ascii as ascii;

    ghost Value = { ℕ };

    ghost view = { λ b. b.byte };

    ghost invariant = { λ b. ascii.space ≤ b.byte };

    ghost inverse = { λ n. record { byte = n } };
}

impl TextByte {
    /// The byte, and none exactly below 32.
    pub fn of(byte: u8) -> Option<TextByte>
        ensures which { IsSome result ↔ (ascii.space ≤ byte) }
        ensures value { IfSome result (λ b. b ≡ byte) }
    {
        if byte < b' ' {
            None
        } else {
            Some(TextByte { byte })
        }
    }

    /// The byte itself.
    pub fn get(self) -> u8
        ensures value { result ≡ self }
        ensures in_range { ascii.space ≤ self }
    {
        self.byte
    }
}
