// The functions of texts.
ghost use Rattle.std.specs.Prelude.{◌≡◌, ◌≤◌, ◌+◌, ◌*◌, ◌++◌, ◌∷◌, [], IfOk, IfSome, IfNone, Some, None, drop, length, take};
ghost use Rattle.at_functions.specs.Numbers.{units};
ghost use Rattle.at_functions.specs.Texts.{again, char_of, code, find_in, found, left, mid, repeat, replace, right, string};

use crate::counts::{count_of, units, whole, within};
use fixed_value::{Fixed, write_decimal};
use lics_text::{Line, MAX_LEN, Memory, Text};
use std::alloc::Global;

// The codes that @CHAR has a byte for: those of the bytes that a text may hold.
const FIRST_CODE: u16 = 32;

const LAST_CODE: u16 = 255;

/// A number with so many decimals, 0 to 15.
pub fn string(alloc: Global, number: Fixed, places: Fixed) -> Result<Option<Text>, Memory>
    ensures { IfOk result (λ text. text ≡ string number places) }
{
    let Some(places) = within(0, 15, whole(places)) else {
        return Ok(None);
    };
    let digits = write_decimal(number, places as u8);
    Ok(Some(Text::copy_of(alloc, digits.bytes())?))
}

// So many bytes from a place on.
fn part(bytes: &[u8], start: usize, count: usize) -> &[u8]
    ensures { result.now ≡ take count (drop start bytes.now) }
{
    let from = start.min(bytes.len());
    let rest = &bytes[from..];
    &rest[..count.min(rest.len())]
}

/// So many bytes of a text from a place on, fewer at its end; none for a place or a count below zero.
pub fn mid(text: &Text, start: Fixed, count: Fixed) -> Result<Option<Text>, Memory>
    ensures { IfOk result (λ found. found ≡ mid text.now start count) }
{
    let Some(start) = count_of(start) else {
        return Ok(None);
    };
    let Some(count) = count_of(count) else {
        return Ok(None);
    };
    Ok(Some(text.like(part(text.bytes(), start as usize, count as usize))?))
}

/// The first bytes of a text, fewer at its end; none for a count below zero.
pub fn left(text: &Text, count: Fixed) -> Result<Option<Text>, Memory>
    ensures { IfOk result (λ found. found ≡ left text.now count) }
{
    let Some(count) = count_of(count) else {
        return Ok(None);
    };
    Ok(Some(text.like(part(text.bytes(), 0, count as usize))?))
}

/// The last bytes of a text, fewer at its front; none for a count below zero.
pub fn right(text: &Text, count: Fixed) -> Result<Option<Text>, Memory>
    ensures { IfOk result (λ found. found ≡ right text.now count) }
{
    let Some(count) = count_of(count) else {
        return Ok(None);
    };
    let bytes = text.bytes();
    let start = bytes.len().saturating_sub(count as usize);
    Ok(Some(text.like(part(bytes, start, count as usize))?))
}

/// How many bytes a text has.
pub fn length(text: &Text) -> Option<Fixed>
    ensures { result ≡ Some (units (length text.now)) }
{
    units(text.bytes().len() as u32)
}

/// The first byte of a text; none for the empty text.
pub fn code(text: &Text) -> Option<Fixed>
    ensures { result ≡ code text.now }
{
    let bytes = text.bytes();
    if bytes.len() == 0 {
        None
    } else {
        units(u32::from(bytes[0]))
    }
}

// The bytes of three parts, one behind the other.
fn joined(front: &[u8], middle: &[u8], back: &[u8]) -> Line
    requires { length front.now + length middle.now + length back.now ≤ MAX_LEN }
    ensures { result ≡ front.now ++ (middle.now ++ back.now) }
{
    let mut line = Line::new();
    line.put_all(front);
    line.put_all(middle);
    line.put_all(back);
    line
}

/// A text with so many bytes from a place on replaced by new ones, which are put behind it for a place past its
/// end; none past 240 bytes, and for a place or a count below zero.
pub fn replace(text: &Text, start: Fixed, count: Fixed, new: &Text) -> Result<Option<Text>, Memory>
    ensures { IfOk result (λ found. found ≡ replace text.now start count new.now) }
{
    let Some(start) = count_of(start) else {
        return Ok(None);
    };
    let Some(count) = count_of(count) else {
        return Ok(None);
    };
    let bytes = text.bytes();
    let front = part(bytes, 0, start as usize);
    let middle = new.bytes();
    let back = part(bytes, start as usize + count as usize, bytes.len());
    if front.len() + middle.len() + back.len() > MAX_LEN {
        return Ok(None);
    }
    let line = joined(front, middle, back);
    Ok(Some(text.like(line.bytes())?))
}

// The bytes so many times.
fn again(bytes: &[u8], count: usize) -> Line
    requires { length bytes.now * count ≤ MAX_LEN }
    ensures { result ≡ again count bytes.now }
{
    let mut line = Line::new();
    if bytes.len() > 0 {
        for _ in 0..count {
            line.put_all(bytes);
        }
    }
    line
}

/// A text so many times; none past 240 bytes and for a count below zero.
pub fn repeat(text: &Text, count: Fixed) -> Result<Option<Text>, Memory>
    ensures { IfOk result (λ found. found ≡ repeat text.now count) }
{
    let Some(count) = count_of(count) else {
        return Ok(None);
    };
    let bytes = text.bytes();
    if bytes.len() * count as usize > MAX_LEN {
        return Ok(None);
    }
    let line = again(bytes, count as usize);
    Ok(Some(text.like(line.bytes())?))
}

/// The byte of a code from 32 to 255.
pub fn char_of(alloc: Global, code: Fixed) -> Result<Option<Text>, Memory>
    ensures { IfOk result (λ text. text ≡ char_of code) }
{
    let Some(code) = within(FIRST_CODE, LAST_CODE, whole(code)) else {
        return Ok(None);
    };
    Ok(Some(Text::copy_of(alloc, &[code as u8])?))
}

/// The first place of a text, at or after one, at which the bytes stand, case told apart; the empty text stands
/// at each place up to the length. None exactly where they stand at none.
pub fn find_in(what: &Text, text: &Text, start: Fixed) -> Option<Fixed>
    ensures { result ≡ find_in what.now text.now start }
{
    let from = count_of(start).unwrap_or(0);
    match text.find(what, from as usize) {
        Some(at) => units(at as u32),
        None => None,
    }
}
