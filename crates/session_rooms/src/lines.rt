// Lines with the cursor at the end.
ghost use Rattle.std.specs.Prelude.{◌≡◌, ◌≤◌, ◌∷◌, [], length, nat_le, true};
ghost use Rattle.std.specs.List.{All, list_all};
ghost use Rattle.lics_text.specs.Ascii as ascii;
ghost use Rattle.lics_text.specs.Bytes.{IsText};
ghost use Rattle.session_rooms.specs.Lines.{extended, fits_line, last_byte, line_of};

use entry_line::EntryLine;
use lics_text::{Line, MAX_LEN, TextByte};

/// A line of one byte, with the cursor behind it.
pub fn line_of_byte(byte: TextByte) -> EntryLine
    ensures { result ≡ line_of (byte ∷ []) }
{
    EntryLine::new(&[byte.get()])
}

/// The line with more bytes at its end, and the cursor behind them. Bytes that would stand past 240 are passed over.
pub fn extended(line: &EntryLine, bytes: &[u8]) -> EntryLine
    requires { All (λ b. ascii.space ≤ b) bytes.now }
    ensures { result ≡ extended line.now bytes.now }
{
    let text = line.text();
    let room = (MAX_LEN - text.len()).min(bytes.len());
    let mut all = Line::new();
    all.put_all(text);
    all.put_all(&bytes[..room]);
    EntryLine::new(all.bytes())
}

/// The last byte of a line, and 0 of an empty one.
pub fn last_byte(line: &EntryLine) -> u8
    ensures { result ≡ last_byte line.now.text }
{
    match line.text().last() {
        Some(byte) => *byte,
        None => 0,
    }
}

// Whether no byte is below a space.
fn are_printable(bytes: &[u8]) -> bool
    ensures { result ≡ list_all (nat_le ascii.space) bytes.now }
{
    bytes.iter().all(|byte| b' ' <= *byte)
}

/// Whether bytes are a line's: at most 240, none below a space.
pub fn fits_line(bytes: &[u8]) -> bool
    ensures fits { result ≡ fits_line bytes.now }
    ensures text { result ≡ true → IsText bytes.now }
{
    bytes.len() <= MAX_LEN && are_printable(bytes)
}
