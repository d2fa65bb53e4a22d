// A text that grows at its front.
ghost use Rattle.std.specs.Prelude.{◌≡◌, ◌≤◌, ◌<◌, ◌∷◌, [], length};

use std::marker::Model;

/// A written decimal: at most 32 bytes, written from the last one.
#[derive(Drop)]
pub struct Digits {
    bytes: [u8; 32],
    at: usize,
}

impl Model for Digits {
    ghost use Rattle.std.specs.Prelude.{ℕ, List, drop, ◌≤◌};

    ghost Value = { List ℕ };

    ghost view = { λ a. drop a.at a.bytes };

    ghost invariant = { λ a. a.at ≤ 32 };
}

impl Digits {
    // The empty text.
    pub(crate) fn new() -> Digits
        ensures { result ≡ [] }
    {
        Digits {
            bytes: [0; 32],
            at: 32,
        }
    }

    // Puts a byte in front.
    pub(crate) fn put(&mut self, byte: u8)
        requires { length self.old < 32 }
        ensures { self.new ≡ byte ∷ self.old }
    {
        self.at -= 1;
        self.bytes[self.at] = byte;
    }

    /// The bytes.
    pub fn bytes(&self) -> &[u8]
        ensures bytes { result.now ≡ self.now }
        ensures length { length result.now ≤ 32 }
    {
        &self.bytes[self.at..]
    }
}
