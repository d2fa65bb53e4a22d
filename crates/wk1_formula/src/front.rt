// The code at the front of bytes.
ghost use Rattle.std.specs.Int.{from_le_bytes, w64};
ghost use Rattle.std.specs.List.{list_all};
ghost use Rattle.std.specs.Prelude.{◌≡◌, nat_le, ◌≤◌, ◌<◌, ◌+◌, ◌*◌, drop, take, length, true, false, pos, IfOk, IfSome, IfNone, Some, None};
ghost use Rattle.lics_text.specs.Ascii as ascii;
ghost use Rattle.grid_address.specs.Axes.{number_of};
ghost use Rattle.formula_tree.specs.Ranges.{is_text};
ghost use Rattle.formula_tree.specs.Shape.{has_no_quote};
ghost use Rattle.formula_tree.specs.Table.{counts_of};
ghost use Rattle.wk1_formula.specs.Reading.{axis_of, before_zero, counted_front, double_front, front_by, front_of, function_front, is_formula_text, least_of, range_front, reference_at, reference_front, short_at, short_front, short_value, text_code};
ghost use Rattle.wk1_formula.specs.inner.Steps.{IsSound};
ghost use Rattle.wk1_formula.specs.inner.Views.{seen, seen_code};

use crate::bytes::{bytes_from, first_long, short_at};
use crate::kind::{CodeKind, kind_of};
use fixed_value::{DoubleRead, Fixed, from_double_bits};
use formula_tree::{Counts, Function, Op, call_size, counts_of, takes};
use grid_address::{Axis, COLUMNS, ROWS, Ref};
use lics_text::{MAX_LEN, Memory, Text};
use std::alloc::Global;

/// A code with what stands behind it in the bytes.
#[derive(Drop)]
pub enum Code {
    Number(Fixed),
    Error,
    Missing,
    Reference(Ref),
    Range(Ref, Ref),
    Text(Text),
    Brackets,
    Minus,
    Plus,
    Negation,
    Operator(Op),
    Function(Function, u8),
}

/// What stands at the front of bytes: a code and how many bytes it has, the end, or why it is no code.
#[derive(Drop)]
pub enum Front {
    Whole(Code, usize),
    Finish,
    Faulty,
    LeftOut(u8),
    TooLarge,
}

// A whole number of so many ones.
fn whole(size: u16) -> Fixed
    ensures { result ≡ pos (size * 1000000) }
{
    match Fixed::of(i64::from(size) * 1_000_000) {
        Some(value) => value,
        None => unreachable!(),
    }
}

/// A whole number of two bytes, in two's complement.
pub fn short_value(number: u16) -> Fixed
    ensures { result ≡ short_value number }
{
    if number < 32768 {
        whole(number)
    } else {
        whole(65535 - number + 1).neg()
    }
}

// A whole number of two bytes.
fn short_front(bytes: &[u8]) -> Front
    ensures { seen result ≡ short_front bytes.now }
{
    if bytes.len() < 2 {
        return Front::Faulty;
    }
    Front::Whole(Code::Number(short_value(short_at(bytes, 0))), 3)
}

// A number of eight bytes, ERR or NA.
fn double_front(bytes: &[u8]) -> Front
    ensures { seen result ≡ double_front bytes.now }
{
    if bytes.len() < 8 {
        return Front::Faulty;
    }
    match from_double_bits(first_long(bytes)) {
        DoubleRead::Num(value) => Front::Whole(Code::Number(value), 9),
        DoubleRead::Na => Front::Whole(Code::Missing, 9),
        DoubleRead::Err => Front::Whole(Code::Error, 9),
        DoubleRead::TooLarge => Front::TooLarge,
    }
}

// A coordinate among so many.
fn axis_of(number: u16, count: u16) -> Option<Axis>
    requires some { 1 ≤ count }
    ensures axis { result ≡ axis_of number count }
    ensures in_range { IfSome result (λ a. number_of a < count) }
{
    if number >= 32768 {
        Some(Axis::Offset(number % count))
    } else if number < count {
        Some(Axis::Fixed(number))
    } else {
        None
    }
}

// The reference in four bytes at a place, where both coordinates are in the sheet.
fn reference_at(bytes: &[u8], at: usize) -> Option<Ref>
    requires { at + 4 ≤ length bytes.now }
    ensures { result ≡ reference_at at bytes.now }
{
    let Some(col) = axis_of(short_at(bytes, at), COLUMNS) else {
        return None;
    };
    let Some(row) = axis_of(short_at(bytes, at + 2), ROWS) else {
        return None;
    };
    Some(Ref { col, row })
}

// A reference.
fn reference_front(bytes: &[u8]) -> Front
    ensures { seen result ≡ reference_front bytes.now }
{
    if bytes.len() < 4 {
        return Front::Faulty;
    }
    match reference_at(bytes, 0) {
        Some(reference) => Front::Whole(Code::Reference(reference), 5),
        None => Front::Faulty,
    }
}

// Two references.
fn range_front(bytes: &[u8]) -> Front
    ensures { seen result ≡ range_front bytes.now }
{
    if bytes.len() < 8 {
        return Front::Faulty;
    }
    let Some(first) = reference_at(bytes, 0) else {
        return Front::Faulty;
    };
    let Some(last) = reference_at(bytes, 4) else {
        return Front::Faulty;
    };
    Front::Whole(Code::Range(first, last), 9)
}

/// The bytes before the first 00; none exactly where there is none.
pub fn before_zero(bytes: &[u8]) -> Option<&[u8]>
    ensures some { IfSome result (λ t. before_zero bytes.now ≡ Some t.now) }
    ensures none { IfNone result (before_zero bytes.now ≡ None) }
{
    for at in 0..bytes.len() {
        if bytes[at] == 0 {
            return Some(&bytes[..at]);
        }
    }
    None
}

// Whether each byte is at least 32.
fn are_text_bytes(bytes: &[u8]) -> bool
    ensures { result ≡ list_all (λ b. nat_le ascii.space b) bytes.now }
{
    bytes.iter().all(|byte| *byte >= b' ')
}

/// Whether bytes are a text's: at most 240, each at least 32.
pub fn is_text(bytes: &[u8]) -> bool
    ensures { result ≡ is_text bytes.now }
{
    bytes.len() <= MAX_LEN && are_text_bytes(bytes)
}

// Whether no byte is a quote.
fn has_no_quote(bytes: &[u8]) -> bool
    ensures { result ≡ has_no_quote bytes.now }
{
    !bytes.contains(&b'"')
}

// The text of a formula, which holds no quote.
fn formula_text(alloc: Global, bytes: &[u8]) -> Result<Option<Text>, Memory>
    ensures some { IfOk result (λ o. IfSome o (λ t. (is_formula_text bytes.now ≡ true) × (t ≡ bytes.now))) }
    ensures none { IfOk result (λ o. IfNone o (is_formula_text bytes.now ≡ false)) }
{
    if !is_text(bytes) {
        return Ok(None);
    }
    if !has_no_quote(bytes) {
        return Ok(None);
    }
    let text = Text::copy_of(alloc, bytes)?;
    Ok(Some(text))
}

// A text that ends before a 00.
fn text_front(alloc: Global, bytes: &[u8]) -> Result<Front, Memory>
    ensures { IfOk result (λ f. seen f ≡ text_code (before_zero bytes.now)) }
{
    let Some(bytes) = before_zero(bytes) else {
        return Ok(Front::Faulty);
    };
    match formula_text(alloc, bytes)? {
        Some(text) => {
            let size = text.bytes().len() + 2;
            Ok(Front::Whole(Code::Text(text), size))
        }
        None => Ok(Front::Faulty),
    }
}

// A function whose arguments are counted behind its code.
fn counted_front(function: Function, bytes: &[u8]) -> Front
    ensures { seen result ≡ counted_front function bytes.now }
{
    if bytes.len() == 0 {
        return Front::Faulty;
    }
    if takes(function, usize::from(bytes[0])) {
        Front::Whole(Code::Function(function, bytes[0]), 2)
    } else {
        Front::Faulty
    }
}

// How many arguments a function takes at least.
fn least_of(function: Function) -> u8
    ensures { result ≡ least_of (counts_of function) }
{
    match counts_of(function) {
        Counts::Exactly(count) => count,
        Counts::AtLeast(count) => count,
    }
}

// A function.
fn function_front(function: Function, bytes: &[u8]) -> Front
    ensures { seen result ≡ function_front function bytes.now }
{
    if call_size(function) == 2 {
        counted_front(function, bytes)
    } else {
        Front::Whole(Code::Function(function, least_of(function)), 1)
    }
}

// What a code of a kind and the bytes behind it are.
fn front_by(alloc: Global, kind: CodeKind, code: u8, bytes: &[u8]) -> Result<Front, Memory>
    ensures { IfOk result (λ f. seen f ≡ front_by kind code bytes.now) }
{
    match kind {
        CodeKind::Double => Ok(double_front(bytes)),
        CodeKind::Reference => Ok(reference_front(bytes)),
        CodeKind::Range => Ok(range_front(bytes)),
        CodeKind::Finish => Ok(Front::Finish),
        CodeKind::Brackets => Ok(Front::Whole(Code::Brackets, 1)),
        CodeKind::Short => Ok(short_front(bytes)),
        CodeKind::Text => text_front(alloc, bytes),
        CodeKind::Minus => Ok(Front::Whole(Code::Minus, 1)),
        CodeKind::Not => Ok(Front::Whole(Code::Negation, 1)),
        CodeKind::Plus => Ok(Front::Whole(Code::Plus, 1)),
        CodeKind::Operator(op) => Ok(Front::Whole(Code::Operator(op), 1)),
        CodeKind::Function(function) => Ok(function_front(function, bytes)),
        CodeKind::LeftOut => Ok(Front::LeftOut(code)),
        CodeKind::Unknown => Ok(Front::Faulty),
    }
}

// The code at the front of bytes.
#[tactic(auto, unfolding(crate::specs::Reading::front_of))]
fn front_at(alloc: Global, bytes: &[u8]) -> Result<Front, Memory>
    ensures { IfOk result (λ f. seen f ≡ front_of bytes.now) }
{
    if bytes.len() == 0 {
        return Ok(Front::Faulty);
    }
    front_by(alloc, kind_of(bytes[0]), bytes[0], bytes_from(bytes, 1))
}

/// The code at the front of bytes. It lies within them, and its text or the count of its arguments is one that a
/// formula may have.
pub fn front_of(alloc: Global, bytes: &[u8]) -> Result<Front, Memory>
    ensures front { IfOk result (λ f. seen f ≡ front_of bytes.now) }
    ensures sound { IfOk result (λ f. IsSound (seen f) (length bytes.now)) }
{
    front_at(alloc, bytes)
}
