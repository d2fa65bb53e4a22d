ghost use Rattle.std.specs.Prelude.{◌≡◌, ◌≤◌, ◌+◌, length, min, map, take, IfOk};
ghost use Rattle.text_channel.specs.Lines.{ending_of, line_length, next_bytes, next_line, piece, text_byte};

use lics_text::{Line, MAX_LEN, Memory, Text};
use std::alloc::Global;

/// What is read of the bytes that are left: how many stand in the text, and how many are passed over.
#[derive(Clone, Copy)]
pub(crate) struct Taken {
    pub text: usize,
    pub passed: usize,
}

// How many bytes of an ending stand in front: two for CR LF, one for LF.
fn ending_of(bytes: &[u8]) -> usize
    ensures ending { result ≡ ending_of bytes.now }
    ensures within { result ≤ length bytes.now }
{
    if bytes.len() >= 1 && bytes[0] == b'\n' {
        1
    } else if bytes.len() >= 2 && bytes[0] == b'\r' && bytes[1] == b'\n' {
        2
    } else {
        0
    }
}

// How many bytes stand before the first ending, and 241 where it is more.
fn line_length(bytes: &[u8]) -> usize
    ensures length { result ≡ min (line_length bytes.now) (MAX_LEN + 1) }
    ensures within { result ≤ length bytes.now }
{
    let mut at = 0;
    while at < bytes.len() && at <= MAX_LEN && ending_of(&bytes[at..]) == 0 {
        at += 1;
    }
    at
}

// The next bytes, fewer at the end.
pub(crate) fn next_bytes(count: usize, left: &[u8]) -> Taken
    requires { count ≤ MAX_LEN }
    ensures piece { next_bytes count left.now ≡ piece (take result.text left.now) result.passed }
    ensures short { result.text ≤ MAX_LEN }
    ensures within { (result.text ≤ length left.now) × (result.passed ≤ length left.now) }
{
    let most = left.len().min(count);
    Taken {
        text: most,
        passed: most,
    }
}

// The next line and its ending, or the first bytes of a longer line.
#[tactic(auto, using(crate::proofs::Lining::long_line, crate::proofs::Lining::short_line))]
pub(crate) fn next_line(left: &[u8]) -> Taken
    ensures piece { next_line left.now ≡ piece (take result.text left.now) result.passed }
    ensures short { result.text ≤ MAX_LEN }
    ensures within { (result.text ≤ length left.now) × (result.passed ≤ length left.now) }
{
    let line = line_length(left);
    if line > MAX_LEN {
        Taken {
            text: MAX_LEN,
            passed: MAX_LEN,
        }
    } else {
        Taken {
            text: line,
            passed: line + ending_of(left.split_at(line).1),
        }
    }
}

// A byte below 32 becomes a blank.
fn text_byte(byte: u8) -> u8
    ensures { result ≡ text_byte byte }
{
    if byte < b' ' { b' ' } else { byte }
}

// The bytes, of which those below 32 become blanks.
fn shown_line(bytes: &[u8]) -> Line
    requires { length bytes.now ≤ MAX_LEN }
    ensures { result ≡ map text_byte bytes.now }
{
    let mut line = Line::new();
    for at in 0..bytes.len() {
        line.put_all(&[text_byte(bytes[at])]);
    }
    line
}

// The text of the bytes, of which those below 32 become blanks.
#[tactic(auto, using(crate::proofs::Shown::is_shown_text))]
pub(crate) fn shown_text(alloc: Global, bytes: &[u8]) -> Result<Text, Memory>
    requires { length bytes.now ≤ MAX_LEN }
    ensures { IfOk result (λ text. text ≡ map text_byte bytes.now) }
{
    let line = shown_line(bytes);
    Text::copy_of(alloc, line.bytes())
}
