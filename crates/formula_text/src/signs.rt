// Signs in a formula.
ghost use Rattle.std.specs.Prelude.{◌≡◌, ◌≤◌, ◌<◌, ◌⊎◌, true, get_or, length};
ghost use Rattle.formula_text.specs.inner.Fine.{is_fine_kind};
ghost use Rattle.formula_text.specs.Signs.{begins_with, hash_found, sign_found, sign_of, single_kind};

use crate::ParseFault;
use crate::lexeme::{Found, LexemeKind};
use formula_tree::Op;

// Whether bytes begin with this word, in letters of either case.
fn begins_with(bytes: &[u8], word: &[u8]) -> bool
    ensures { result ≡ begins_with bytes.now word.now }
{
    let len = word.len().min(bytes.len());
    bytes[..len].eq_ignore_ascii_case(word)
}

// The operator in words that stands first, from its # on.
#[tactic(auto, unfolding(crate::specs::Signs::hash_found))]
pub fn hash_found(bytes: &[u8], at: usize) -> Found
    requires { 0 < length bytes.now }
    ensures found { result ≡ hash_found at bytes.now }
    ensures fine { is_fine_kind result.kind ≡ true }
    ensures low { 0 < result.len }
    ensures high { result.len ≤ length bytes.now }
{
    if begins_with(bytes, b"#AND#") {
        Found {
            kind: LexemeKind::Infix(Op::And),
            len: 5,
        }
    } else if begins_with(bytes, b"#OR#") {
        Found {
            kind: LexemeKind::Infix(Op::Or),
            len: 4,
        }
    } else if begins_with(bytes, b"#NOT#") {
        Found {
            kind: LexemeKind::Not,
            len: 5,
        }
    } else {
        Found {
            kind: LexemeKind::Bad(ParseFault::Unexpected(at)),
            len: 1,
        }
    }
}

// A sign of one byte; ; is read as ,.
#[tactic(auto, unfolding(crate::specs::Signs::single_kind))]
fn single_kind(byte: u8, at: usize) -> LexemeKind
    ensures kind { result ≡ single_kind at byte }
    ensures fine { is_fine_kind result ≡ true }
{
    match byte {
        b'(' => LexemeKind::Open,
        b')' => LexemeKind::Close,
        b',' | b';' => LexemeKind::Comma,
        b'^' => LexemeKind::Infix(Op::Pow),
        b'*' => LexemeKind::Infix(Op::Mul),
        b'/' => LexemeKind::Infix(Op::Div),
        b'+' => LexemeKind::Infix(Op::Add),
        b'-' => LexemeKind::Infix(Op::Sub),
        b'=' => LexemeKind::Infix(Op::Eq),
        b'<' => LexemeKind::Infix(Op::Lt),
        b'>' => LexemeKind::Infix(Op::Gt),
        b'&' => LexemeKind::Infix(Op::Join),
        _ => LexemeKind::Bad(ParseFault::Unexpected(at)),
    }
}

// An operator of so many bytes.
fn infix(op: Op, len: usize) -> Found
    ensures kind { result.kind ≡ LexemeKind.Infix op }
    ensures len { result.len ≡ len }
{
    Found {
        kind: LexemeKind::Infix(op),
        len,
    }
}

// A sign, and the byte behind it.
#[tactic(auto, unfolding(crate::specs::Signs::sign_of))]
fn sign_of(byte: u8, next: u8, at: usize) -> Found
    ensures found { result ≡ sign_of at byte next }
    ensures fine { is_fine_kind result.kind ≡ true }
    ensures low { 0 < result.len }
    ensures high { result.len ≤ 2 }
    ensures next { (result.len ≤ 1) ⊎ (0 < next) }
{
    if byte == b'<' {
        if next == b'>' {
            infix(Op::Ne, 2)
        } else if next == b'=' {
            infix(Op::Le, 2)
        } else {
            infix(Op::Lt, 1)
        }
    } else if byte == b'>' {
        if next == b'=' {
            infix(Op::Ge, 2)
        } else {
            infix(Op::Gt, 1)
        }
    } else {
        Found {
            kind: single_kind(byte, at),
            len: 1,
        }
    }
}

// The byte at a place, 0 behind the end.
fn byte_at(bytes: &[u8], at: usize) -> u8
    ensures byte { result ≡ get_or bytes.now at 0 }
    ensures there { (result ≡ 0) ⊎ (at < length bytes.now) }
{
    if at < bytes.len() { bytes[at] } else { 0 }
}

// The sign that stands first.
pub fn sign_found(bytes: &[u8], at: usize) -> Found
    requires { 0 < length bytes.now }
    ensures found { result ≡ sign_found at bytes.now }
    ensures fine { is_fine_kind result.kind ≡ true }
    ensures low { 0 < result.len }
    ensures high { result.len ≤ length bytes.now }
{
    sign_of(byte_at(bytes, 0), byte_at(bytes, 1), at)
}
