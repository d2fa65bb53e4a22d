// Numbers, texts and functions in a formula.
ghost use Rattle.std.specs.Prelude.{◌≡◌, ◌≤◌, ◌<◌, ◌==◌, true, IfOk, IfErr, length, position, take, Some};
ghost use Rattle.lics_text.specs.Ascii as ascii;
ghost use Rattle.formula_tree.specs.Table.{counts_of, takes};
ghost use Rattle.formula_text.specs.inner.Fine.{is_fine_kind};
ghost use Rattle.formula_text.specs.Functions.{is_among, left_out};
ghost use Rattle.formula_text.specs.Operands.{called_kind, function_found, function_kind, is_name_byte, name_len, number_found, number_kind, number_len, outside_kind, point_len, text_found, text_kind};
ghost use Rattle.lics_text.specs.Texts.{text_of};
ghost use Rattle.fixed_value.specs.Decimals.{decimal_of};

use crate::ParseFault;
use crate::functions::{function_named, is_left_out};
use crate::lexeme::{Found, LexemeKind};
use fixed_value::{Decimal, digits_len, read_decimal};
use formula_tree::{Function, takes};
use lics_text::{Text, TextFault};
use std::alloc::Global;

// How many bytes a point and the digits behind it take.
fn point_len(bytes: &[u8]) -> usize
    ensures count { result ≡ point_len bytes.now }
    ensures within { result ≤ length bytes.now }
{
    if bytes.len() == 0 || bytes[0] != b'.' {
        0
    } else {
        1 + digits_len(&bytes[1..])
    }
}

// How many bytes the longest decimal without a sign takes; 0 where there is none.
pub fn number_len(bytes: &[u8]) -> usize
    ensures count { result ≡ number_len bytes.now }
    ensures within { result ≤ length bytes.now }
{
    let whole = digits_len(bytes);
    let point = point_len(&bytes[whole..]);
    if whole == 0 && point <= 1 {
        0
    } else {
        whole + point
    }
}

// A decimal that is read is a number, or a fault of this place.
fn number_kind(bytes: &[u8], at: usize) -> LexemeKind
    ensures { result ≡ number_kind at (decimal_of bytes.now) }
{
    match read_decimal(bytes) {
        Decimal::Num(value) => LexemeKind::Num(value),
        Decimal::TooLarge => LexemeKind::Bad(ParseFault::BadNumber(at)),
        Decimal::NotNumber => LexemeKind::Bad(ParseFault::Unexpected(at)),
    }
}

// The number that stands first.
#[tactic(auto, using(crate::proofs::Unsigned::number_is_fine))]
pub fn number_found(bytes: &[u8], at: usize) -> Found
    requires { 0 < number_len bytes.now }
    ensures found { result ≡ number_found at bytes.now }
    ensures fine { is_fine_kind result.kind ≡ true }
    ensures low { 0 < result.len }
    ensures high { result.len ≤ length bytes.now }
{
    let len = number_len(bytes);
    Found {
        kind: number_kind(&bytes[..len], at),
        len,
    }
}

// Where the next quote stands.
fn next_quote(bytes: &[u8]) -> Option<usize>
    ensures { result ≡ position (λ b. b == ascii.quote) bytes.now }
{
    bytes.iter().position(|b| *b == b'"')
}

// The text between quotes.
fn text_kind(alloc: Global, bytes: &[u8], at: usize) -> Result<LexemeKind, ParseFault>
    ensures kind { IfOk result (λ k. k ≡ text_kind at (text_of bytes.now)) }
    ensures err { IfErr result (λ f. f ≡ ParseFault.Memory) }
{
    match Text::from_bytes(alloc, bytes) {
        Ok(text) => Ok(LexemeKind::Str(text)),
        Err(TextFault::Memory) => Err(ParseFault::Memory),
        Err(TextFault::TooLong) => Ok(LexemeKind::Bad(ParseFault::Unexpected(at))),
        Err(TextFault::BadByte(_)) => Ok(LexemeKind::Bad(ParseFault::Unexpected(at))),
    }
}

// The text before the first quote.
#[tactic(auto, using(crate::proofs::Quotes::text_is_fine))]
fn before_quote(
    alloc: Global,
    bytes: &[u8],
    end: usize,
    at: usize,
) -> Result<LexemeKind, ParseFault>
    requires { position (λ b. b == ascii.quote) bytes.now ≡ Some end }
    ensures kind { IfOk result (λ k. k ≡ text_kind at (text_of (take end bytes.now))) }
    ensures fine { IfOk result (λ k. is_fine_kind k ≡ true) }
    ensures err { IfErr result (λ f. f ≡ ParseFault.Memory) }
{
    text_kind(alloc, &bytes[..end], at)
}

// The text that stands first, from its quote on.
pub fn text_found(alloc: Global, bytes: &[u8], at: usize) -> Result<Found, ParseFault>
    requires { 0 < length bytes.now }
    ensures found { IfOk result (λ f. f ≡ text_found at bytes.now) }
    ensures fine { IfOk result (λ f. is_fine_kind f.kind ≡ true) }
    ensures low { IfOk result (λ f. 0 < f.len) }
    ensures high { IfOk result (λ f. f.len ≤ length bytes.now) }
    ensures err { IfErr result (λ f. f ≡ ParseFault.Memory) }
{
    let rest = &bytes[1..];
    let Some(end) = next_quote(rest) else {
        return Ok(Found {
            kind: LexemeKind::Unclosed,
            len: 1 + rest.len(),
        });
    };
    let kind = before_quote(alloc, rest, end, at)?;
    Ok(Found { kind, len: end + 2 })
}

// The bytes of a function's name: letters and digits.
fn is_name_byte(byte: u8) -> bool
    ensures { result ≡ is_name_byte byte }
{
    byte.is_ascii_alphabetic() || byte.is_ascii_digit()
}

// How many bytes of a function's name stand first.
fn name_len(bytes: &[u8]) -> usize
    ensures count { result ≡ name_len bytes.now }
    ensures within { result ≤ length bytes.now }
{
    bytes.iter().take_while(|b| is_name_byte(**b)).count()
}

// A function that 1-2-3 has and this program leaves out, or one that neither has.
fn outside_kind(name: &[u8], at: usize) -> LexemeKind
    ensures kind { result ≡ outside_kind at (is_among left_out name.now) }
    ensures fine { is_fine_kind result ≡ true }
{
    if is_left_out(name) {
        LexemeKind::Bad(ParseFault::FunctionOutside(at))
    } else {
        LexemeKind::Bad(ParseFault::UnknownFunction(at))
    }
}

// What a function's name is.
fn called_kind(name: &[u8], at: usize) -> LexemeKind
    ensures kind { result ≡ called_kind at name.now }
    ensures fine { is_fine_kind result ≡ true }
{
    if name.len() == 0 {
        return LexemeKind::Bad(ParseFault::Unexpected(at));
    }
    match function_named(name) {
        None => outside_kind(name, at),
        Some(function) => {
            if takes(function, 0) {
                LexemeKind::Constant(function)
            } else {
                LexemeKind::Function(function)
            }
        }
    }
}

// The function that stands first, from its @ on.
pub fn function_found(bytes: &[u8], at: usize) -> Found
    requires { 0 < length bytes.now }
    ensures found { result ≡ function_found at bytes.now }
    ensures fine { is_fine_kind result.kind ≡ true }
    ensures low { 0 < result.len }
    ensures high { result.len ≤ length bytes.now }
{
    if 1 < bytes.len() && bytes[1] == b'@' {
        return Found {
            kind: LexemeKind::Function(Function::Pointed),
            len: 2,
        };
    }
    let rest = &bytes[1..];
    let len = name_len(rest);
    Found {
        kind: called_kind(&rest[..len], at),
        len: 1 + len,
    }
}
