// From a text to its parts.
ghost use Rattle.std.specs.Prelude.{◌≡◌, ◌≤◌, ◌<◌, true, IfOk, IfErr, OnOk, ◌++◌, ◌∷◌, [], drop, length};
ghost use Rattle.formula_text.specs.inner.Fine.{are_fine, is_fine_kind};
ghost use Rattle.formula_text.specs.Lexed.{lexed, part_found};

use crate::ParseFault;
use crate::lexeme::{Found, Lexeme};
use crate::operands::{function_found, number_found, number_len, text_found};
use crate::signs::{hash_found, sign_found};
use crate::words::{is_word_byte, word_found};
use grid_address::Cell;
use lics_text::MAX_LEN;
use range_names::Names;
use std::alloc::Global;

// The part that stands first, which begins at a place of the text.
#[tactic(auto, unfolding(crate::specs::Lexed::part_found, crate::specs::Lexed::found_by))]
fn part_found(
    alloc: Global,
    bytes: &[u8],
    at: usize,
    cell: Cell,
    names: &Names,
) -> Result<Found, ParseFault>
    requires some { 0 < length bytes.now }
    requires short { length bytes.now ≤ MAX_LEN }
    ensures found { IfOk result (λ f. f ≡ part_found names.now cell at bytes.now) }
    ensures fine { IfOk result (λ f. is_fine_kind f.kind ≡ true) }
    ensures low { IfOk result (λ f. 0 < f.len) }
    ensures high { IfOk result (λ f. f.len ≤ length bytes.now) }
    ensures err { IfErr result (λ f. f ≡ ParseFault.Memory) }
{
    if 0 < number_len(bytes) {
        return Ok(number_found(bytes, at));
    }
    match bytes[0] {
        b'"' => text_found(alloc, bytes, at),
        b'@' => Ok(function_found(bytes, at)),
        b'#' => Ok(hash_found(bytes, at)),
        first => {
            if is_word_byte(first) {
                Ok(word_found(bytes, at, cell, names))
            } else {
                Ok(sign_found(bytes, at))
            }
        }
    }
}

// The bytes from a place on.
fn from(text: &[u8], at: usize) -> &[u8]
    requires { at ≤ length text.now }
    ensures { result.now ≡ drop at text.now }
{
    &text[at..]
}

// Adds a part.
fn add(lexemes: &mut Vec<Lexeme>, lexeme: Lexeme) -> Result<(), ParseFault>
    ensures ok { OnOk result (lexemes.new.items ≡ lexemes.old.items ++ lexeme ∷ []) }
    ensures err { IfErr result (λ f. f ≡ ParseFault.Memory) }
{
    match lexemes.push(lexeme) {
        Ok(()) => Ok(()),
        Err(_) => Err(ParseFault::Memory),
    }
}

// The parts of a text that stands in the cell.
pub fn lex(alloc: Global, text: &[u8], cell: Cell, names: &Names) -> Result<Vec<Lexeme>, ParseFault>
    requires { length text.now ≤ MAX_LEN }
    ensures ok { IfOk result (λ v. v.items ≡ lexed names.now cell 0 0 text.now) }
    ensures fine { IfOk result (λ v. are_fine v.items ≡ true) }
    ensures few { IfOk result (λ v. length v.items ≤ length text.now) }
    ensures err { IfErr result (λ f. f ≡ ParseFault.Memory) }
{
    let mut lexemes = Vec::new(alloc);
    let mut at = 0;
    while at < text.len() {
        if text[at] == b' ' {
            at += 1;
        } else {
            let found = part_found(alloc, from(text, at), at, cell, names)?;
            let Found { kind, len } = found;
            add(&mut lexemes, Lexeme { at, kind })?;
            at += len;
        }
    }
    Ok(lexemes)
}
