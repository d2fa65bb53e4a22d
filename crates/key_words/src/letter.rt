// A letter, in capitals.
ghost use Rattle.std.specs.Char.{is_ascii_alphabetic, to_ascii_uppercase};
ghost use Rattle.std.specs.Prelude.{◌≡◌, ◌≤◌, IfNone, IfSome, false, true};
ghost use Rattle.lics_text.specs.Ascii as ascii;

use std::marker::Model;

/// A letter, A to Z.
#[derive(Clone, Copy)]
pub struct Letter {
    byte: u8,
}

impl Model for Letter {
    ghost use Rattle.std.specs.Prelude.{ℕ, ◌≤◌};
    ghost use Rattle.lics_text.specs.Ascii as ascii;

    ghost Value = { ℕ };

    ghost view = { λ l. l.byte };

    ghost invariant = { λ l. (ascii.capital_a ≤ l.byte) × (l.byte ≤ ascii.capital_z) };

    ghost inverse = { λ n. record { byte = n } };
}

impl Letter {
    /// The letter in either case, and none for any other byte.
    pub fn of(byte: u8) -> Option<Letter>
        ensures some { IfSome result (λ l. (is_ascii_alphabetic byte ≡ true) × (l ≡ to_ascii_uppercase byte)) }
        ensures none { IfNone result (is_ascii_alphabetic byte ≡ false) }
    {
        if byte.is_ascii_alphabetic() {
            Some(Letter {
                byte: byte.to_ascii_uppercase(),
            })
        } else {
            None
        }
    }

    /// The capital, 65 to 90.
    pub fn get(self) -> u8
        ensures value { result ≡ self }
        ensures least { ascii.capital_a ≤ self }
        ensures most { self ≤ ascii.capital_z }
    {
        self.byte
    }
}
