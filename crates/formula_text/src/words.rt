// Addresses and names in a formula.
ghost use Rattle.std.specs.Prelude.{◌≡◌, ◌≤◌, ◌<◌, ◌+◌, true, length};
ghost use Rattle.grid_address.specs.Place.{same_place};
ghost use Rattle.formula_text.specs.inner.Fine.{is_fine_kind};
ghost use Rattle.formula_text.specs.Words.{address_found, corner_behind, has_dollar, is_word_byte, letters_len, name_kind, named_span, plain_address, reference_from, reference_in, span_kind, with_corner, without_dollar, word_found, word_len};

use crate::ParseFault;
use crate::lexeme::{Found, LexemeKind};
use fixed_value::all_digits;
use grid_address::{Cell, Ref, Span, count_dots, read_cell};
use lics_text::{Line, MAX_LEN};
use range_names::Names;

// Letters, digits, _ and $.
pub fn is_word_byte(byte: u8) -> bool
    ensures { result ≡ is_word_byte byte }
{
    byte.is_ascii_alphabetic() || byte.is_ascii_digit() || byte == b'_' || byte == b'$'
}

// How many bytes of a word stand first.
fn word_len(bytes: &[u8]) -> usize
    ensures count { result ≡ word_len bytes.now }
    ensures within { result ≤ length bytes.now }
{
    bytes.iter().take_while(|b| is_word_byte(**b)).count()
}

// How many letters stand first.
fn letters_len(bytes: &[u8]) -> usize
    ensures count { result ≡ letters_len bytes.now }
    ensures within { result ≤ length bytes.now }
{
    bytes.iter().take_while(|b| b.is_ascii_alphabetic()).count()
}

// Whether a $ stands first.
fn has_dollar(bytes: &[u8]) -> bool
    ensures { result ≡ has_dollar bytes.now }
{
    0 < bytes.len() && bytes[0] == b'$'
}

// What stands behind a $ in front.
fn without_dollar(bytes: &[u8]) -> &[u8]
    ensures bytes { result.now ≡ without_dollar bytes.now }
    ensures within { length result.now ≤ length bytes.now }
{
    if has_dollar(bytes) {
        &bytes[1..]
    } else {
        bytes
    }
}

// The cell of a column and the digits of a row.
fn plain_address(column: &[u8], row: &[u8]) -> Option<Cell>
    requires { length column.now + length row.now ≤ MAX_LEN }
    ensures { result ≡ plain_address column.now row.now }
{
    if !all_digits(row) {
        return None;
    }
    let mut line = Line::new();
    line.put_all(column);
    line.put_all(row);
    match read_cell(line.bytes()) {
        Ok(cell) => Some(cell),
        Err(_) => None,
    }
}

// The reference of a column without its $ and a row that may have one.
fn reference_from(word: &[u8], cell: Cell, fixed_col: bool) -> Option<Ref>
    requires { length word.now ≤ MAX_LEN }
    ensures { result ≡ reference_from cell fixed_col word.now }
{
    let (column, behind) = word.split_at(letters_len(word));
    match plain_address(column, without_dollar(behind)) {
        Some(target) => Some(Ref::of(target, cell, fixed_col, has_dollar(behind))),
        None => None,
    }
}

// The reference that a word is where it stands in the cell.
fn reference_in(word: &[u8], cell: Cell) -> Option<Ref>
    requires { length word.now ≤ MAX_LEN }
    ensures { result ≡ reference_in cell word.now }
{
    reference_from(without_dollar(word), cell, has_dollar(word))
}

// The corner behind so many dots.
fn corner_behind(dots: usize, bytes: &[u8], cell: Cell) -> Option<Ref>
    requires { length bytes.now ≤ MAX_LEN }
    ensures { result ≡ corner_behind cell dots bytes.now }
{
    if dots == 0 {
        None
    } else {
        reference_in(&bytes[..word_len(bytes)], cell)
    }
}

// What an address of so many bytes is with what stands behind it.
fn address_found(first: Ref, len: usize, behind: &[u8], cell: Cell) -> Found
    requires short { len + length behind.now ≤ MAX_LEN }
    requires some { 0 < len }
    ensures found { result ≡ address_found cell first len behind.now }
    ensures fine { is_fine_kind result.kind ≡ true }
    ensures low { 0 < result.len }
    ensures high { result.len ≤ len + length behind.now }
{
    let dots = count_dots(behind);
    let bytes = &behind[dots..];
    let word = word_len(bytes);
    match corner_behind(dots, bytes, cell) {
        Some(other) => Found {
            kind: LexemeKind::Span(first, other),
            len: len + dots + word,
        },
        None => Found {
            kind: LexemeKind::Cell(first),
            len,
        },
    }
}

// The span of a name; more than 15 bytes are no name.
fn named_span(name: &[u8], names: &Names) -> Option<Span>
    ensures { result ≡ named_span names.now name.now }
{
    names.find(name)
}

// Whether a span is one cell.
fn is_one_cell(span: Span) -> bool
    ensures { result ≡ same_place span.first span.last }
{
    span.first.row == span.last.row && span.first.col == span.last.col
}

// What a name is that stands for a span.
fn span_kind(span: Option<Span>, at: usize, cell: Cell, fixed: bool) -> LexemeKind
    ensures kind { result ≡ span_kind cell at fixed span }
    ensures fine { is_fine_kind result ≡ true }
{
    match span {
        None => LexemeKind::Bad(ParseFault::UnknownName(at)),
        Some(span) => {
            let first = Ref::of(span.first, cell, fixed, fixed);
            if is_one_cell(span) {
                LexemeKind::Cell(first)
            } else {
                LexemeKind::Span(first, Ref::of(span.last, cell, fixed, fixed))
            }
        }
    }
}

// The word that stands first, which begins at a place of the text.
pub fn word_found(bytes: &[u8], at: usize, cell: Cell, names: &Names) -> Found
    requires short { length bytes.now ≤ MAX_LEN }
    requires some { 0 < word_len bytes.now }
    ensures found { result ≡ word_found names.now cell at bytes.now }
    ensures fine { is_fine_kind result.kind ≡ true }
    ensures low { 0 < result.len }
    ensures high { result.len ≤ length bytes.now }
{
    let len = word_len(bytes);
    let word = &bytes[..len];
    match reference_in(word, cell) {
        Some(first) => address_found(first, len, &bytes[len..], cell),
        None => {
            let span = named_span(without_dollar(word), names);
            Found {
                kind: span_kind(span, at, cell, has_dollar(word)),
                len,
            }
        }
    }
}
