ghost use Rattle.std.specs.Prelude.{◌≡◌, ◌≤◌, [], length, nat_lt};
ghost use Rattle.lics_text.specs.Texts.{line_with};

use crate::{Line, MAX_LEN, TextByte};
use std::marker::Model;

/// A text while it is typed: at most 240 bytes, each 32 to 255, which takes no memory.
#[derive(Drop)]
pub struct TextLine {
    line: Line,
}

impl Model for TextLine {
    ghost use Rattle.std.specs.Prelude.{ℕ, List};
    ghost use Rattle.lics_text.specs.Bytes.{IsText};

    ghost Value = { List ℕ };

    ghost view = { λ a. a.line };

    ghost invariant = { λ a. IsText a.line };
}

impl TextLine {
    ghost use Rattle.lics_text.specs.Bytes.{IsText};

    /// The empty line.
    pub fn new() -> TextLine
        ensures { result ≡ [] }
    {
        TextLine { line: Line::new() }
    }

    /// Adds a byte at the end. It answers false, and leaves the line as it was, exactly at 240 bytes.
    pub fn put(&mut self, byte: TextByte) -> bool
        ensures put { result ≡ nat_lt (length self.old) MAX_LEN }
        ensures line { self.new ≡ line_with self.old byte }
    {
        self.line.put(byte.get())
    }

    /// The bytes: at most 240, each at least 32.
    pub fn bytes(&self) -> &[u8]
        ensures value { result.now ≡ self.now }
        ensures text { IsText self.now }
    {
        self.line.bytes()
    }
}
